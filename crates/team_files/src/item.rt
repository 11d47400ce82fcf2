use tg_text::Bytes;

/// What stands in a bundle, one behind the other.
#[derive(Debug, Drop, PartialEq, Eq)]
pub enum Item {
    /// A header line `team-file 1 HEX`, whatever team it names.
    Header,
    /// The text in a frame.
    Text(Bytes),
    /// The input ended inside an item. Nothing follows.
    Cut,
    /// No item begins here. What follows isn't read.
    BadFrame,
    /// The input has more bytes than a file may have. What follows isn't read.
    Long,
}
