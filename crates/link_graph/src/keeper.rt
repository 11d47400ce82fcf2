//! What holds the links of a team, as those see it who exchange links.
ghost use Rattle.std.specs.Prelude.{◌≡◌, ◌<◌, length, Some, slice_get, option_map, IfOk};
ghost use Rattle.link_text.specs.LinkText.{text};
ghost use Rattle.link_text.specs.TeamFile.{IsHeld};
ghost use Rattle.link_graph.specs.Below.{AreBelow, is_connected};
ghost use Rattle.link_graph.specs.Heads.{heads_of};
ghost use Rattle.link_graph.specs.Held.{Held, arrived_of};
ghost use Rattle.link_graph.specs.Taking.{Answers};

use crate::graph::Graph;
use crate::take_fault::TakeFault;
use crate::took::Took;
use std::alloc::Global;
use tg_outside::{StepLedger, Steps};
use tg_text::{LinkName, Memory};

/// What holds the links of a team: a graph, or what keeps one and more beside it. The calls mean what those of the graph mean.
pub trait LinkKeeper {
    /// The team, and its links in the order in which they came.
    ghost held: { Self → Held };

    /// What is held is a set of valid links of the team, within the limits of a team. This says so, and does nothing.
    fn is_held(&self)
        ensures { IsHeld (held self.now).team (held self.now).links };

    /// The name of the team's root.
    fn team(&self) -> LinkName
        ensures { result ≡ (held self.now).team };

    /// The names of those connected links that are no connected link's parent, in ascending order.
    fn heads(&self) -> &[LinkName]
        ensures { result.now ≡ heads_of (held self.now).links };

    /// Whether the link of this name is connected.
    fn is_connected(&self, name: &LinkName) -> bool
        ensures { result ≡ is_connected (held self.now).links name.now };

    /// The positions of the connected links that have one of the names or are ancestors of one that has, without those that
    /// have one of the other names or are ancestors of one that has, in the order of the team. A name that isn't connected
    /// gives nothing.
    fn below(
        &self,
        alloc: Global,
        names: &[LinkName],
        not_below: &[LinkName],
    ) -> Result<Vec<u32>, Memory>
        ensures { IfOk result (λ positions. AreBelow (held self.now).links names.now not_below.now positions.items) };

    /// The text of the link of a position.
    fn text_at(&self, position: u32) -> &[u8]
        requires given { position < length (arrived_of (held self.now).links) }
        ensures { option_map text (slice_get (arrived_of (held self.now).links) position) ≡ Some result.now };

    /// Takes the text of a link. After a fault all is as before. A text that is held is answered without memory.
    fn offer<L: StepLedger>(
        &mut self,
        alloc: Global,
        bytes: &[u8],
        steps: &mut Steps<L>,
    ) -> Result<Took, TakeFault>
        ensures { Answers (held self.old) (held self.new) bytes.now result };
}

impl LinkKeeper for Graph {
    ghost held = { λ it. it };

    fn is_held(&self) {
        self.is_held()
    }

    fn team(&self) -> LinkName {
        self.team()
    }

    fn heads(&self) -> &[LinkName] {
        self.heads()
    }

    fn is_connected(&self, name: &LinkName) -> bool {
        // A law: it does nothing at run time.
        self.is_held();
        self.position(name).is_some()
    }

    fn below(
        &self,
        _alloc: Global,
        names: &[LinkName],
        not_below: &[LinkName],
    ) -> Result<Vec<u32>, Memory> {
        self.below(names, not_below)
    }

    fn text_at(&self, position: u32) -> &[u8] {
        self.text_at(position)
    }

    fn offer<L: StepLedger>(
        &mut self,
        _alloc: Global,
        bytes: &[u8],
        _steps: &mut Steps<L>,
    ) -> Result<Took, TakeFault> {
        self.take(bytes)
    }
}
