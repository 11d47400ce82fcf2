use tg_text::LinkName;

/// What became of an item of a bundle that was given to a team's links.
#[derive(Clone, Copy, Debug, PartialEq, Eq)]
pub enum ItemResult {
    /// A header line, which gives nothing.
    Header,
    /// A new link, with which so many links connected: it, and those that waited for it.
    New { connected: usize },
    /// A new link, which waits for a parent.
    Waiting,
    /// The text was held already.
    Again,
    /// Nothing was taken.
    Refused(Refusal),
}

/// Why an item gave nothing.
#[derive(Clone, Copy, Debug, PartialEq, Eq)]
pub enum Refusal {
    /// The text has more than 1,048,576 bytes.
    TooLong,
    /// The text is no link's.
    BadText,
    /// The link is of another team.
    OtherTeam,
    /// The signature doesn't verify.
    BadSignature,
    /// Another text is held under this name.
    NameClash { name: LinkName },
    /// The team has no room for the link.
    Full,
    /// The bundle ends inside the item.
    Cut,
    /// No item begins here.
    BadFrame,
    /// The bundle has more bytes than are judged.
    Long,
}
