use tg_text::Items;

/// What became of a text that was given to a graph.
#[derive(Debug, Drop, PartialEq, Eq)]
pub enum Took {
    /// Its link connected. A position is given to each link when it connects, from 0 on, and `connected` has those given now: that of
    /// the new link first, and then of those that waited for it, each time the least by name of those ready.
    New { connected: Items<u32> },
    /// Its link waits for a parent.
    Waiting,
    /// This very text was held already.
    Again,
}
