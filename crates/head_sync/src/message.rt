use tg_text::{Items, LinkName};

/// The kind of a message, which its first line names.
#[derive(Clone, Copy, Debug, PartialEq, Eq)]
pub(crate) enum Kind {
    Hello,
    Ask,
    Give,
    Done,
}

/// What a message says. The texts that it gives are lent by its bytes.
#[derive(Debug, Drop)]
pub(crate) enum Body<'a> {
    /// The heads of its sender.
    Hello {
        heads: Items<LinkName>,
    },
    /// The names that are asked for, and the heads of the one who asks.
    Ask {
        names: Items<LinkName>,
        marks: Items<LinkName>,
    },
    /// Texts of links, and whether more of them follow in a further message.
    Give {
        more: bool,
        texts: Items<&'a [u8]>,
    },
    /// Its sender is done, and has these heads.
    Done {
        heads: Items<LinkName>,
    },
}

/// A message to the team of this name.
#[derive(Debug, Drop)]
pub(crate) struct Message<'a> {
    pub(crate) team: LinkName,
    pub(crate) body: Body<'a>,
}
