//! The connected links in the order in which they connected. The one of position i has the i-th entry: its name, and its place
//! among the held links.
ghost use Rattle.std.specs.Prelude.{◌≡◌, ◌≤◌, ◌<◌, [], ◌∷◌, ◌++◌, length, take, map, position, false, Some, slice_get, OnOk, OnErr};
ghost use Rattle.std.specs.List.{list_all};
ghost use Rattle.std.specs.Map.{keys_of};
ghost use Rattle.team_sets.specs.Names.{has_name, same_name};
ghost use Rattle.link_graph.specs.Positions.{may_stand};

use indexmap::IndexMap;
use std::alloc::Global;
use std::marker::Model;
use team_model::Link;
use tg_text::{LinkName, Memory};

/// The link at a place.
pub(crate) fn link_of(links: &[Link], place: usize) -> &Link
    requires held { place < length links.now }
    ensures { slice_get links.now place ≡ Some result.now }
{
    &links[place]
}

#[derive(Drop)]
pub(crate) struct Connected {
    places: IndexMap<LinkName, u32>,
}

impl Model for Connected {
    ghost use Rattle.std.specs.Prelude.{ℕ, List};

    ghost Value = { List (List ℕ × ℕ) };

    ghost view = { λ it. it.places.entries };
}

impl Connected {
    pub(crate) fn new(alloc: Global) -> Connected
        ensures { result ≡ [] }
    {
        Connected {
            places: IndexMap::new(alloc),
        }
    }

    pub(crate) fn len(&self) -> usize
        ensures { result ≡ length self.now }
    {
        self.places.len()
    }

    pub(crate) fn has(&self, name: &LinkName) -> bool
        ensures { result ≡ has_name (keys_of self.now) name.now }
    {
        self.places.contains_key(name)
    }

    pub(crate) fn position(&self, name: &LinkName) -> Option<usize>
        ensures { result ≡ position (same_name name.now) (keys_of self.now) }
    {
        self.places.get_index_of(name)
    }

    /// The name of the link of a position.
    pub(crate) fn name_at(&self, position: usize) -> &LinkName
        requires given { position < length self.now }
        ensures { slice_get (keys_of self.now) position ≡ Some result.now }
    {
        let (name, _) = self.places.get_index(position).unwrap();
        name
    }

    /// The place among the held links of the link of a position.
    pub(crate) fn place_at(&self, position: usize) -> usize
        requires given { position < length self.now }
        ensures { slice_get (map (λ e. e.1) self.now) position ≡ Some result }
    {
        let (_, place) = self.places.get_index(position).unwrap();
        *place as usize
    }

    /// Gives the next position.
    pub(crate) fn push(&mut self, name: &LinkName, place: u32) -> Result<(), Memory>
        requires fresh { has_name (keys_of self.old) name.now ≡ false }
        ensures ok { OnOk result (self.new ≡ self.old ++ (name.now, place) ∷ []) }
        ensures err { OnErr result (self.new ≡ self.old) }
    {
        self.places.insert(*name, place)?;
        Ok(())
    }

    /// Keeps the first positions.
    pub(crate) fn truncate(&mut self, len: usize)
        ensures { self.new ≡ take len self.old }
    {
        self.places.truncate(len);
    }

    fn has_all(&self, names: &[LinkName]) -> bool
        ensures { result ≡ list_all (has_name (keys_of self.now)) names.now }
    {
        for name in names {
            if !self.has(name) {
                return false;
            }
        }
        true
    }

    /// Whether a link may connect: it isn't connected, and all its parents are.
    pub(crate) fn may_stand(&self, link: &Link) -> bool
        ensures { result ≡ may_stand (keys_of self.now) link.now }
    {
        !self.has(&link.name) && self.has_all(link.prev.as_slice())
    }
}
