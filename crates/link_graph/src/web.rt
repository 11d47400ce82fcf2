//! The parts of a graph together: a link is put in, or the one that came last is taken out.
ghost use Rattle.std.specs.Prelude.{◌≡◌, ◌-◌, ◌<◌, ◌≤◌, ◌++◌, ◌∷◌, ℕ, List, [], length, take, false, IfOk, OnOk, OnErr};
ghost use Rattle.std.specs.List.{range_with_len};
ghost use Rattle.tg_text.specs.Limits.{most_links};
ghost use Rattle.team_sets.specs.Names.{has_name};
ghost use Rattle.team_sets.specs.Order.{names};
ghost use Rattle.team_model.specs.Judging.{name_of};
ghost use Rattle.link_text.specs.LinkText.{text};
ghost use Rattle.link_graph.specs.Held.{arrived_of, answer_of, took_of};
ghost use Rattle.link_graph.specs.Children.{HasChildren};
ghost use Rattle.link_graph.specs.Lines.{HasRoom};
ghost use Rattle.link_graph.specs.Webs.{IsAwaiting, IsUnlined, IsWeb, without_last};

use crate::children::Children;
use crate::connected::Connected;
use crate::connecting::connect;
use crate::holding::Holding;
use crate::lineup::Lineup;
use crate::took::Took;
use std::alloc::Global;
use team_model::Link;
use tg_text::{Items, Memory};

#[derive(Drop)]
pub(crate) struct Web {
    pub(crate) holding: Holding,
    pub(crate) children: Children,
    pub(crate) connected: Connected,
    pub(crate) lineup: Lineup,
}

fn positions(alloc: Global, from: u32, to: u32) -> Result<Items<u32>, Memory>
    ensures { IfOk result (λ positions. positions ≡ range_with_len from (to - from)) }
{
    let positions: Vec<u32> = (from..to).collect(alloc)?;
    Ok(Items::from_vec(positions))
}

/// What is answered where so many links were connected before, and so many are now.
fn answer(alloc: Global, before: u32, now: u32) -> Result<Took, Memory>
    ensures { IfOk result (λ took. took ≡ took_of before now) }
{
    if before < now {
        let connected = positions(alloc, before, now)?;
        Ok(Took::New { connected })
    } else {
        Ok(Took::Waiting)
    }
}

/// Takes the memory that the connected links need to line up, and for the answer.
fn make_room(alloc: Global, lineup: &mut Lineup, before: usize, now: usize) -> Result<Took, Memory>
    requires few { now ≤ most_links }
    requires more { before ≤ now }
    ensures order { lineup.new.order.items ≡ lineup.old.order.items }
    ensures heads { lineup.new.heads.items ≡ lineup.old.heads.items }
    ensures capacity { (n : ℕ) → HasRoom n lineup.old → HasRoom n lineup.new }
    ensures room { OnOk result (HasRoom now lineup.new) }
    ensures answer { IfOk result (λ took. took ≡ took_of before now) }
{
    lineup.reserve(now)?;
    answer(alloc, before as u32, now as u32)
}

impl Web {
    pub(crate) fn new(alloc: Global) -> Web
        ensures web { IsWeb result }
        ensures none { result.holding ≡ [] }
    {
        Web {
            holding: Holding::new(alloc),
            children: Children::new(alloc),
            connected: Connected::new(alloc),
            lineup: Lineup::new(alloc),
        }
    }

    /// Lets those links line up that have connected since there were so many. Without memory for it they aren't connected.
    fn line_up(&mut self, alloc: Global, before: usize) -> Result<Took, Memory>
        requires unlined { IsUnlined self.old before }
        requires children { HasChildren self.old.holding self.old.children.lists }
        ensures held { self.new.holding ≡ self.old.holding }
        ensures children { self.new.children ≡ self.old.children }
        ensures ok { OnOk result (IsWeb self.new) }
        ensures answer { IfOk result (λ took. took ≡ took_of before (length (arrived_of self.old.holding))) }
        ensures err { OnErr result (self.new.connected ≡ take before self.old.connected) }
        ensures order { OnErr result (self.new.lineup.order.items ≡ self.old.lineup.order.items) }
        ensures heads { OnErr result (self.new.lineup.heads.items ≡ self.old.lineup.heads.items) }
        ensures room { OnErr result ((n : ℕ) → HasRoom n self.old.lineup → HasRoom n self.new.lineup) }
    {
        match make_room(alloc, &mut self.lineup, before, self.connected.len()) {
            Ok(took) => {
                self.lineup.add_all(self.holding.links(), &self.connected);
                Ok(took)
            }
            Err(memory) => {
                self.connected.truncate(before);
                Err(memory)
            }
        }
    }

    /// Lets the link that came last connect, if it may, and those that waited for it.
    fn connect_last(&mut self, alloc: Global) -> Result<Took, Memory>
        requires awaiting { IsAwaiting self.old }
        requires children { HasChildren self.old.holding self.old.children.lists }
        ensures held { self.new.holding ≡ self.old.holding }
        ensures children { self.new.children ≡ self.old.children }
        ensures ok { OnOk result (IsWeb self.new) }
        ensures answer { IfOk result (λ took. took ≡ answer_of (without_last self.old.holding) self.old.holding) }
        ensures err { OnErr result (IsAwaiting self.new) }
        ensures entries { OnErr result (self.new.connected ≡ self.old.connected) }
    {
        let before = self.connected.len();
        connect(alloc, &self.holding, &self.children, &mut self.connected)?;
        self.line_up(alloc, before)
    }

    /// Makes the link that came last a child of its parents.
    fn add_to_parents(&mut self, alloc: Global) -> Result<(), Memory>
        requires some { 0 < length self.old.holding }
        requires few { length self.old.holding ≤ most_links }
        requires children { HasChildren (without_last self.old.holding) self.old.children.lists }
        ensures held { self.new.holding ≡ self.old.holding }
        ensures connected { self.new.connected ≡ self.old.connected }
        ensures lineup { self.new.lineup ≡ self.old.lineup }
        ensures ok { OnOk result (HasChildren self.old.holding self.new.children.lists) }
        ensures err { OnErr result (HasChildren (without_last self.old.holding) self.new.children.lists) }
    {
        let last = self.holding.len() - 1;
        let link = &self.holding.links()[last];
        self.children.add(alloc, link.prev.as_slice(), last as u32)
    }

    /// Takes the link that came last away from its parents.
    fn remove_from_parents(&mut self)
        requires some { 0 < length self.old.holding }
        requires children { HasChildren self.old.holding self.old.children.lists }
        ensures held { self.new.holding ≡ self.old.holding }
        ensures connected { self.new.connected ≡ self.old.connected }
        ensures lineup { self.new.lineup ≡ self.old.lineup }
        ensures children { HasChildren (without_last self.old.holding) self.new.children.lists }
    {
        let last = self.holding.len() - 1;
        let link = &self.holding.links()[last];
        self.children.remove(link.prev.as_slice());
    }

    /// Puts the link that came last into the web.
    fn link_last(&mut self, alloc: Global) -> Result<Took, Memory>
        requires awaiting { IsAwaiting self.old }
        requires children { HasChildren (without_last self.old.holding) self.old.children.lists }
        ensures held { self.new.holding ≡ self.old.holding }
        ensures ok { OnOk result (IsWeb self.new) }
        ensures answer { IfOk result (λ took. took ≡ answer_of (without_last self.old.holding) self.old.holding) }
        ensures err { OnErr result (IsAwaiting self.new) }
        ensures children { OnErr result (HasChildren (without_last self.old.holding) self.new.children.lists) }
        ensures entries { OnErr result (self.new.connected ≡ self.old.connected) }
    {
        self.add_to_parents(alloc)?;
        match self.connect_last(alloc) {
            Ok(took) => Ok(took),
            Err(memory) => {
                self.remove_from_parents();
                Err(memory)
            }
        }
    }

    /// Puts in a link of a new name.
    pub(crate) fn put(&mut self, alloc: Global, bytes: &[u8], link: Link) -> Result<Took, Memory>
        requires few { length self.old.holding < most_links }
        requires text { bytes.now ≡ text link }
        requires fresh { has_name (names name_of self.old.holding) link.name ≡ false }
        requires web { IsWeb self.old }
        ensures web { IsWeb self.new }
        ensures ok { OnOk result (self.new.holding ≡ self.old.holding ++ link ∷ []) }
        ensures answer { IfOk result (λ took. took ≡ answer_of self.old.holding (self.old.holding ++ link ∷ [])) }
        ensures err { OnErr result (self.new.holding ≡ self.old.holding) }
    {
        self.holding.push(alloc, bytes, link)?;
        match self.link_last(alloc) {
            Ok(took) => Ok(took),
            Err(memory) => {
                self.holding.pop();
                Err(memory)
            }
        }
    }

    /// Takes out the link that came last. The first `connected` positions are those of the others.
    pub(crate) fn take_out(&mut self, connected: usize)
        requires some { 0 < length self.old.holding }
        requires connected { connected ≡ length (arrived_of (without_last self.old.holding)) }
        requires web { IsWeb self.old }
        ensures held { self.new.holding ≡ without_last self.old.holding }
        ensures web { IsWeb self.new }
    {
        self.remove_from_parents();
        self.connected.truncate(connected);
        self.holding.pop();
        self.lineup.clear();
        self.lineup.add_all(self.holding.links(), &self.connected);
    }
}
