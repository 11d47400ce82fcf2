use tg_text::LinkName;

/// A place in the graph of links. Places compare by height and then by name.
#[derive(Clone, Copy, Debug, PartialEq, Eq, PartialOrd, Ord)]
pub struct Place {
    pub height: u32,
    pub name: LinkName,
}

/// An act that strikes others. Its rank is the seniority of its user, `since`, and then its own place; a smaller rank is more
/// senior. `by` tells users apart.
#[derive(Clone, Copy, Debug)]
pub struct Striker {
    pub id: u32,
    pub by: u32,
    pub since: Place,
    pub place: Place,
}

/// What settlement decides of an act: it stands, or it left at the turn of the act of this id, which strikes it, or which it
/// strikes and which doesn't strike it.
#[derive(Clone, Copy, Debug, PartialEq, Eq)]
pub enum Decision {
    Stands,
    Struck(u32),
    Lost(u32),
}
