//! The connected links as they line up: their positions in the order of the team, and the heads.
ghost use Rattle.std.specs.Prelude.{◌≡◌, ◌≤◌, ◌<◌, ◌+◌, ◌^◌, ℕ, [], length, insert, take, Some, slice_get, All, OnOk};
ghost use Rattle.std.specs.Map.{keys_of};
ghost use Rattle.std.specs.Vec.{vec_capacity};
ghost use Rattle.team_sets.specs.OrderLaws.{ParentsFirst};
ghost use Rattle.team_model.specs.Judging.{name_of, prev_of};
ghost use Rattle.link_graph.specs.Heads.{heads_with};
ghost use Rattle.link_graph.specs.Lines.{HasRoom, IsLineup, place_index};
ghost use Rattle.link_graph.specs.Positions.{at_places, HasEntries, linked};

use crate::connected::{Connected, link_of};
use crate::heads::add_head;
use crate::inserting::insert_within;
use crate::ordering::place_in_order;
use std::alloc::Global;
use team_model::Link;
use tg_text::{LinkName, Memory};

#[derive(Drop)]
pub(crate) struct Lineup {
    pub(crate) order: Vec<u32>,
    pub(crate) heads: Vec<LinkName>,
}

impl Lineup {
    pub(crate) fn new(alloc: Global) -> Lineup
        ensures { IsLineup [] result }
    {
        Lineup {
            order: Vec::new(alloc),
            heads: Vec::new(alloc),
        }
    }

    /// Makes room for as many links. What stands there stays.
    pub(crate) fn reserve(&mut self, len: usize) -> Result<(), Memory>
        ensures order { self.new.order.items ≡ self.old.order.items }
        ensures heads { self.new.heads.items ≡ self.old.heads.items }
        ensures capacity { (n : ℕ) → HasRoom n self.old → HasRoom n self.new }
        ensures room { OnOk result (HasRoom len self.new) }
    {
        let more = len.saturating_sub(self.order.len());
        self.order.reserve(more)?;
        let more = len.saturating_sub(self.heads.len());
        self.heads.reserve(more)?;
        Ok(())
    }

    /// Adds the link of the next position.
    fn add(&mut self, connected: &Connected, link: &Link)
        requires few { length connected.now < 2 ^ 32 }
        requires next { length self.old.order.items < length connected.now }
        requires range { All (λ p. p < length connected.now) self.old.order.items }
        requires order_room { length self.old.order.items < vec_capacity self.old.order }
        requires heads_room { length self.old.heads.items < vec_capacity self.old.heads }
        ensures order { self.new.order.items ≡ insert self.old.order.items (place_index link.now (at_places (keys_of connected.now) self.old.order.items)) (length self.old.order.items) }
        ensures heads { self.new.heads.items ≡ heads_with self.old.heads.items link.now }
        ensures len { length self.new.heads.items ≤ length self.old.heads.items + 1 }
        ensures room { (n : ℕ) → HasRoom n self.old → HasRoom n self.new }
    {
        let position = self.order.len() as u32;
        let place = place_in_order(connected, &self.order, link);
        insert_within(&mut self.order, place, position);
        add_head(&mut self.heads, link);
    }

    /// Adds the links of the further positions.
    pub(crate) fn add_all(&mut self, links: &[Link], connected: &Connected)
        requires few { length connected.now < 2 ^ 32 }
        requires entries { HasEntries links.now connected.now }
        requires first { ParentsFirst name_of prev_of [] (linked links.now connected.now) }
        requires room { HasRoom (length connected.now) self.old }
        requires so_far { IsLineup (take (length self.old.order.items) (linked links.now connected.now)) self.old }
        ensures whole { IsLineup (linked links.now connected.now) self.new }
        ensures room { HasRoom (length connected.now) self.new }
    {
        for position in self.order.len()..connected.len() {
            let link = link_of(links, connected.place_at(position));
            self.add(connected, link);
        }
    }

    /// Leaves no link, and keeps the room.
    pub(crate) fn clear(&mut self)
        ensures none { IsLineup [] self.new }
        ensures room { (n : ℕ) → HasRoom n self.old → HasRoom n self.new }
    {
        self.order.clear();
        self.heads.clear();
    }
}
