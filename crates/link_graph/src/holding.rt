//! The held texts by name, and their links, both in order of arrival.
ghost use Rattle.std.specs.Prelude.{◌≡◌, ◌-◌, ◌<◌, [], ◌∷◌, ◌++◌, length, take, true, false, Some, slice_get, option_map, map, OnOk, OnErr};
ghost use Rattle.team_sets.specs.Names.{has_name};
ghost use Rattle.team_sets.specs.Order.{names};
ghost use Rattle.team_model.specs.Judging.{name_of};
ghost use Rattle.link_text.specs.LinkText.{text};
ghost use Rattle.link_graph.specs.Holds.{text_named};

use indexmap::IndexMap;
use std::alloc::Global;
use std::marker::Model;
use team_model::Link;
use tg_text::{Bytes, LinkName, Memory};

/// Held links in order of arrival, each with its text.
#[derive(Drop)]
pub(crate) struct Holding {
    texts: IndexMap<LinkName, Bytes>,
    links: Vec<Link>,
}

impl Model for Holding {
    ghost use Rattle.std.specs.Prelude.{◌≡◌, List, map};
    ghost use Rattle.team_model.specs.declared.terms.Link.{Link};
    ghost use Rattle.link_graph.specs.Holds.{text_entry};

    ghost Value = { List Link };

    ghost view = { λ it. it.links.items };

    ghost invariant = { λ it. it.texts.entries ≡ map text_entry it.links.items };
}

impl Holding {
    pub(crate) fn new(alloc: Global) -> Holding
        ensures { result ≡ [] }
    {
        Holding {
            texts: IndexMap::new(alloc),
            links: Vec::new(alloc),
        }
    }

    pub(crate) fn links(&self) -> &[Link]
        ensures { result.now ≡ self.now }
    {
        self.links.as_slice()
    }

    pub(crate) fn len(&self) -> usize
        ensures { result ≡ length self.now }
    {
        self.links.len()
    }

    pub(crate) fn text_of(&self, name: &LinkName) -> Option<&[u8]>
        ensures { option_map (λ t. t.now) result ≡ text_named self.now name.now }
    {
        match self.texts.get(name) {
            Some(text) => Some(text.as_slice()),
            None => None,
        }
    }

    /// The text of the link at a place.
    pub(crate) fn text_at(&self, place: usize) -> &[u8]
        requires held { place < length self.now }
        ensures { option_map text (slice_get self.now place) ≡ Some result.now }
    {
        let (_, text) = self.texts.get_index(place).unwrap();
        text.as_slice()
    }

    pub(crate) fn holds(&self, name: &LinkName) -> bool
        ensures { result ≡ has_name (names name_of self.now) name.now }
    {
        self.texts.contains_key(name)
    }

    /// The place of a name that is held.
    pub(crate) fn place_of(&self, name: &LinkName) -> usize
        requires held { has_name (names name_of self.now) name.now ≡ true }
        ensures { slice_get (names name_of self.now) result ≡ Some name.now }
    {
        self.texts.get_index_of(name).unwrap()
    }

    /// How many bytes the text of the link that came last has.
    pub(crate) fn last_len(&self) -> usize
        requires some { 0 < length self.now }
        ensures { slice_get (map (λ l. length (text l)) self.now) (length self.now - 1) ≡ Some result }
    {
        let (_, text) = self.texts.last().unwrap();
        text.len()
    }

    /// Holds a link of a new name, with its text.
    pub(crate) fn push(&mut self, alloc: Global, bytes: &[u8], link: Link) -> Result<(), Memory>
        requires text { bytes.now ≡ text link }
        requires fresh { has_name (names name_of self.old) link.name ≡ false }
        ensures ok { OnOk result (self.new ≡ self.old ++ link ∷ []) }
        ensures err { OnErr result (self.new ≡ self.old) }
    {
        let text = Bytes::from_slice(alloc, bytes)?;
        let name = link.name;
        self.links.push(link)?;
        match self.texts.insert(name, text) {
            Ok(_) => Ok(()),
            Err(_) => {
                let _ = self.links.pop();
                Err(Memory)
            }
        }
    }

    /// Lets go of the link that came last.
    pub(crate) fn pop(&mut self)
        ensures { self.new ≡ take (length self.old - 1) self.old }
    {
        let _ = self.links.pop();
        let _ = self.texts.pop();
    }
}
