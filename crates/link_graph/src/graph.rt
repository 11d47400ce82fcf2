ghost use Rattle.std.specs.Prelude.{◌≡◌, ◌<◌, ◌≤◌, ◌++◌, [], ◌∷◌, length, position, Some, slice_get, option_map, All, IfErr, IfOk, IfSome, OnErr, OnOk};
ghost use Rattle.sha2.specs.Sha256.{sha256};
ghost use Rattle.tg_text.specs.Limits.{most_link_bytes};
ghost use Rattle.team_sets.specs.Names.{has_name, same_name};
ghost use Rattle.team_sets.specs.Ancestry.{height};
ghost use Rattle.team_sets.specs.Order.{names};
ghost use Rattle.team_model.specs.Judging.{name_of, order_of, prev_of};
ghost use Rattle.link_text.specs.LinkText.{IsValid, text};
ghost use Rattle.link_text.specs.TeamFile.{IsHeld, file_text};
ghost use Rattle.link_graph.specs.Below.{AreBelow};
ghost use Rattle.link_graph.specs.Causes.{IsCaused, IsRoomFault};
ghost use Rattle.link_graph.specs.Heads.{heads_of};
ghost use Rattle.link_graph.specs.Held.{answer_of, arrived_of};
ghost use Rattle.link_graph.specs.Holds.{text_named};
ghost use Rattle.link_graph.specs.Parentage.{parents_in};
ghost use Rattle.link_graph.specs.Positions.{at_places};
ghost use Rattle.link_graph.specs.Taking.{Answers, HasSpace, HasText, IsFresh};
ghost use Rattle.link_graph.specs.Webs.{without_last};

use crate::below::find_below;
use crate::connected::link_of;
use crate::measuring::{frame_length, header_length};
use crate::parentage::put_with_parents;
use crate::take_fault::TakeFault;
use crate::taking::has_text;
use crate::took::Took;
use crate::web::Web;
use ancestry::Ancestry;
use link_text::{name_of, read_named_of_team};
use std::alloc::Global;
use std::marker::Model;
use team_model::Link;
use tg_text::{LinkName, MOST_FILE_BYTES, MOST_LINK_BYTES, MOST_LINKS, Memory};

/// The held links of a team, connected as far as their parents are there.
#[derive(Drop)]
pub struct Graph {
    alloc: Global,
    team: LinkName,
    web: Web,
    ancestry: Ancestry,
    bytes: u64,
}

impl Model for Graph {
    ghost use Rattle.link_graph.specs.Held.{Held};
    ghost use Rattle.link_graph.specs.Graphs.{IsGraph};

    ghost Value = { Held };

    ghost view = { λ it. record { team = it.team; links = it.web.holding } };

    ghost invariant = { λ it. IsGraph it.team it.web it.ancestry it.bytes };
}

impl Graph {
    /// A graph without links, for the team whose root has this name. The allocator is kept for those to come.
    pub fn new(alloc: Global, team: LinkName) -> Graph
        ensures { result ≡ record { team = team; links = [] } }
    {
        Graph {
            alloc,
            team,
            web: Web::new(alloc),
            ancestry: Ancestry::new(alloc),
            bytes: header_length(&team),
        }
    }

    /// The name of the team's root.
    pub fn team(&self) -> LinkName
        ensures { result ≡ self.now.team }
    {
        self.team
    }

    /// How many links are held.
    pub fn held(&self) -> u32
        ensures { result ≡ length self.now.links }
    {
        self.web.holding.len() as u32
    }

    /// How many bytes the team file of the held links has.
    pub fn file_bytes(&self) -> u64
        ensures { result ≡ length (file_text self.now.team self.now.links) }
    {
        self.bytes
    }

    /// The held links, in the order in which they were taken.
    pub fn links(&self) -> &[Link]
        ensures { result.now ≡ self.now.links }
    {
        self.web.holding.links()
    }

    /// What is held is a set of valid links of the team, within the limits of a team. This says so, and does nothing.
    pub fn is_held(&self)
        ensures { IsHeld self.now.team self.now.links }
    {
        let _ = self.team.as_slice();
    }

    /// How many links are connected: positions are the numbers below.
    pub fn connected(&self) -> u32
        ensures { result ≡ length (arrived_of self.now.links) }
    {
        self.web.connected.len() as u32
    }

    /// The name of the link that was taken after so many others.
    pub fn held_name(&self, at: u32) -> LinkName
        requires held { at < length self.now.links }
        ensures { slice_get (names name_of self.now.links) at ≡ Some result }
    {
        self.links()[at as usize].name
    }

    /// Whether a link of this name is held.
    pub fn holds(&self, name: &LinkName) -> bool
        ensures { result ≡ has_name (names name_of self.now.links) name.now }
    {
        self.web.holding.holds(name)
    }

    /// The position of the link of this name, where it is connected.
    pub fn position(&self, name: &LinkName) -> Option<u32>
        ensures { result ≡ position (same_name name.now) (names name_of (arrived_of self.now.links)) }
    {
        match self.web.connected.position(name) {
            Some(position) => Some(position as u32),
            None => None,
        }
    }

    /// The text of the link of this name, where it is held.
    pub fn text_of(&self, name: &LinkName) -> Option<&[u8]>
        ensures { option_map (λ t. t.now) result ≡ text_named self.now.links name.now }
    {
        self.web.holding.text_of(name)
    }

    /// The link of a position.
    pub fn link_at(&self, position: u32) -> &Link
        requires given { position < length (arrived_of self.now.links) }
        ensures { slice_get (arrived_of self.now.links) position ≡ Some result.now }
    {
        link_of(self.links(), self.web.connected.place_at(position as usize))
    }

    /// The place of the link of a position among the held links.
    pub fn place_at(&self, position: u32) -> usize
        requires given { position < length (arrived_of self.now.links) }
        ensures { slice_get self.now.links result ≡ slice_get (arrived_of self.now.links) position }
    {
        self.web.connected.place_at(position as usize)
    }

    /// The positions of the connected links, in the order of the team.
    pub fn order(&self) -> &[u32]
        ensures order { at_places (arrived_of self.now.links) result.now ≡ order_of self.now.links }
        ensures given { All (λ p. p < length (arrived_of self.now.links)) result.now }
    {
        self.web.lineup.order.as_slice()
    }

    /// Which positions are before which: the link of one is an ancestor of the link of the other.
    pub fn ancestry(&self) -> &Ancestry
        ensures { result.now ≡ parents_in (arrived_of self.now.links) }
    {
        &self.ancestry
    }

    /// The height of the link of a position: one more than the greatest height of a parent, and 0 without parents.
    pub fn height(&self, position: u32) -> u32
        requires given { position < length (arrived_of self.now.links) }
        ensures { IfSome (slice_get (arrived_of self.now.links) position) (λ x. result ≡ height name_of prev_of self.now.links x) }
    {
        self.ancestry.height(position)
    }

    /// The names of those connected links that are no connected link's parent, in ascending order.
    pub fn heads(&self) -> &[LinkName]
        ensures { result.now ≡ heads_of self.now.links }
    {
        self.web.lineup.heads.as_slice()
    }

    /// The text of the link of a position.
    pub fn text_at(&self, position: u32) -> &[u8]
        requires given { position < length (arrived_of self.now.links) }
        ensures { option_map text (slice_get (arrived_of self.now.links) position) ≡ Some result.now }
    {
        self.web.holding.text_at(self.place_at(position))
    }

    /// The positions of the connected links that have one of the names or are ancestors of one that has, without those that have
    /// one of the other names or are ancestors of one that has, in the order of the team. A name that isn't connected gives
    /// nothing.
    pub fn below(&self, names: &[LinkName], not_below: &[LinkName]) -> Result<Vec<u32>, Memory>
        ensures { IfOk result (λ positions. AreBelow self.now.links names.now not_below.now positions.items) }
    {
        find_below(self.alloc, self, names, not_below)
    }

    // Whether there is room for one more link of the team, whose text has so many bytes.
    fn admit(&self, link: &Link, len: usize) -> Result<(), TakeFault>
        requires len { len ≡ length (text link.now) }
        requires short { len ≤ most_link_bytes }
        ensures fresh { IfOk result (λ _. IsFresh self.now.links link.now) }
        ensures space { IfOk result (λ _. HasSpace self.now.team self.now.links link.now) }
        ensures fault { IfErr result (λ fault. IsRoomFault self.now link.now fault) }
    {
        if self.holds(&link.name) {
            return Err(TakeFault::NameClash { name: link.name });
        }
        let bytes = self.bytes + frame_length(len);
        if self.links().len() >= MOST_LINKS || bytes > MOST_FILE_BYTES {
            return Err(TakeFault::Full {
                links: self.held(),
                bytes: self.bytes,
            });
        }
        Ok(())
    }

    // The link of a text of this name that isn't held, where there is room for it.
    fn read_new(&self, bytes: &[u8], name: LinkName) -> Result<Link, TakeFault>
        requires short { length bytes.now ≤ most_link_bytes }
        requires named { name ≡ sha256 bytes.now }
        requires new { ¬ (HasText self.now.links bytes.now) }
        ensures valid { IfOk result (λ link. IsValid self.now.team bytes.now link) }
        ensures fresh { IfOk result (λ link. IsFresh self.now.links link) }
        ensures space { IfOk result (λ link. HasSpace self.now.team self.now.links link) }
        ensures fault { IfErr result (λ fault. IsCaused self.now bytes.now fault) }
    {
        let link = read_named_of_team(self.alloc, bytes, name, &self.team)?;
        self.admit(&link, bytes.len())?;
        Ok(link)
    }

    /// Holds a link that was read already: a new one of the team, for which there is room. It isn't verified again.
    ///
    /// Where memory is short all is as before.
    pub fn hold(&mut self, bytes: &[u8], link: Link) -> Result<Took, Memory>
        requires valid { IsValid self.old.team bytes.now link }
        requires fresh { IsFresh self.old.links link }
        requires space { HasSpace self.old.team self.old.links link }
        ensures ok { OnOk result (self.new ≡ record self.old { links = self.old.links ++ link ∷ [] }) }
        ensures answer { IfOk result (λ took. took ≡ answer_of self.old.links (self.old.links ++ link ∷ [])) }
        ensures err { OnErr result (self.new ≡ self.old) }
    {
        let took = put_with_parents(self.alloc, &mut self.web, &mut self.ancestry, bytes, link)?;
        self.bytes += frame_length(bytes.len());
        Ok(took)
    }

    /// Takes the text of a link. After a fault all is as before. A text that is held is answered without memory.
    ///
    /// A text is hashed once, and one that is too long isn't hashed. The team is asked before the signature is verified.
    pub fn take(&mut self, bytes: &[u8]) -> Result<Took, TakeFault>
        ensures { Answers self.old self.new bytes.now result }
    {
        if bytes.len() > MOST_LINK_BYTES {
            // A law: it does nothing at run time.
            self.is_held();
            return Err(TakeFault::TooLong);
        }
        let name = name_of(bytes);
        if has_text(&self.web.holding, bytes, &name) {
            return Ok(Took::Again);
        }
        let link = self.read_new(bytes, name)?;
        let took = self.hold(bytes, link)?;
        Ok(took)
    }

    /// Lets go of the text that was taken last. It takes no memory.
    pub fn undo(&mut self, connected: u32)
        requires held { 0 < length self.old.links }
        requires connected { connected ≡ length (arrived_of (without_last self.old.links)) }
        ensures { self.new ≡ record self.old { links = without_last self.old.links } }
    {
        let frame = frame_length(self.web.holding.last_len());
        self.bytes -= frame;
        self.web.take_out(connected as usize);
        self.ancestry.truncate(connected as usize);
    }
}
