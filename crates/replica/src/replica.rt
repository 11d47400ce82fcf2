ghost use Rattle.std.specs.Prelude.{◌≡◌, ◌<◌, [], ◌↔◌, length, IsTrue, IfOk, OnOk, OnErr};
ghost use Rattle.link_graph.specs.Taking.{Answers};
ghost use Rattle.link_graph.specs.Webs.{without_last};
ghost use Rattle.team_model.specs.Judging.{team, team_rules};
ghost use Rattle.replica.specs.Below.{AreConnected, with_pasts};
ghost use Rattle.replica.specs.Kept.{AreAllJudged, IsKept};
ghost use Rattle.replica.specs.Views.{IsViewOf, verdict_named};

use crate::folding::team_below;
use crate::judged::Judged;
use crate::laws::{counting_links_are_right, removals_are_right};
use crate::view::View;
use crate::viewing::{Kept, look};
use link_graph::{Graph, TakeFault, Took};
use std::alloc::Global;
use std::marker::Model;
use team_model::Verdict;
use team_state::TeamState;
use tg_outside::{Silent, StepLedger, Steps};
use tg_text::{LinkName, Memory};

/// One holder of the links of a team. Each link is judged once, when it connects; the view is found anew whenever a link comes.
#[derive(Drop)]
pub struct Replica {
    graph: Graph,
    kept: Kept,
}

impl Model for Replica {
    ghost use Rattle.link_graph.specs.Held.{Held};
    ghost use Rattle.replica.specs.Kept.{IsKept};

    ghost Value = { Held };

    ghost view = { λ it. it.graph };

    ghost invariant = { λ it. IsKept it.graph.links it.kept };
}

// Looks at the links with the one that was taken last. Without memory for it that link is let go.
fn look_again<L: StepLedger>(
    alloc: Global,
    graph: &mut Graph,
    known: &Judged,
    steps: &mut Steps<L>,
) -> Result<Kept, Memory>
    requires held { 0 < length graph.old.links }
    requires known { AreAllJudged (without_last graph.old.links) known.now }
    ensures kept { IfOk result (λ kept. IsKept graph.new.links kept) }
    ensures ok { OnOk result (graph.new ≡ graph.old) }
    ensures err { OnErr result (graph.new ≡ record graph.old { links = without_last graph.old.links }) }
{
    // A law: it does nothing at run time.
    graph.is_held();
    match look(alloc, graph, known, steps) {
        Ok(kept) => Ok(kept),
        Err(memory) => {
            graph.undo(known.reasons.len() as u32);
            Err(memory)
        }
    }
}

// Whether the answer says that the text was held before.
fn was_held(took: &Took) -> bool
    ensures { IsTrue result ↔ (took.now ≡ Took.Again) }
{
    matches!(took, Took::Again)
}

impl Replica {
    /// A replica without links, for the team whose root has this name.
    pub fn new(alloc: Global, team: LinkName) -> Result<Replica, Memory>
        ensures { IfOk result (λ it. it ≡ record { team = team; links = [] }) }
    {
        Replica::with_graph(alloc, Graph::new(alloc, team))
    }

    /// A replica that holds the links of a graph, as those of a team file. They are judged, and their view is found once.
    pub fn with_graph(alloc: Global, graph: Graph) -> Result<Replica, Memory>
        ensures { IfOk result (λ it. it ≡ graph) }
    {
        // Laws: they do nothing at run time.
        counting_links_are_right();
        removals_are_right();
        let mut steps = Steps::new(Silent);
        let none = Judged {
            reasons: Vec::new(alloc),
            strikers: Vec::new(alloc),
            strikes: Vec::new(alloc),
        };
        let kept = look(alloc, &graph, &none, &mut steps)?;
        Ok(Replica { graph, kept })
    }

    /// The name of the team's root.
    pub fn team(&self) -> LinkName
        ensures { result ≡ self.now.team }
    {
        self.graph.team()
    }

    /// The held links.
    pub fn graph(&self) -> &Graph
        ensures { result.now ≡ self.now }
    {
        &self.graph
    }

    /// The team of the held links, and what became of each.
    pub fn view(&self) -> &View
        ensures { IsViewOf self.now.links result.now }
    {
        &self.kept.view
    }

    /// The team of the held links.
    pub fn state(&self) -> &TeamState
        ensures { result.now ≡ team team_rules self.now.links }
    {
        &self.kept.view.state
    }

    /// What became of the link of this name, where it is held. It takes no memory.
    pub fn verdict(&self, name: &LinkName) -> Option<Verdict>
        ensures { result ≡ verdict_named self.now.links name.now }
    {
        // A law: it does nothing at run time.
        self.graph.is_held();
        match self.graph.position(name) {
            Some(position) => Some(self.kept.view.verdicts.as_slice()[position as usize]),
            None => {
                if self.graph.holds(name) {
                    Some(Verdict::Waiting)
                } else {
                    None
                }
            }
        }
    }

    /// The team of these links with all their ancestors, found from scratch.
    pub fn team_of(&self, alloc: Global, heads: &[LinkName]) -> Result<TeamState, Memory>
        requires connected { AreConnected self.now.links heads.now }
        ensures { IfOk result (λ state. state ≡ team team_rules (with_pasts self.now.links heads.now)) }
    {
        // A law: it does nothing at run time.
        self.graph.is_held();
        let mut steps = Steps::new(Silent);
        team_below(alloc, &self.graph, &self.kept.judged, heads, &mut steps)
    }

    /// Takes the text of a link. Answers and faults are those of `Graph::take`. After a fault, want of memory included, the held
    /// links and what is shown of them are as before.
    pub fn insert<L: StepLedger>(
        &mut self,
        alloc: Global,
        bytes: &[u8],
        steps: &mut Steps<L>,
    ) -> Result<Took, TakeFault>
        ensures { Answers self.old self.new bytes.now result }
    {
        let took = self.graph.take(bytes)?;
        if was_held(&took) {
            return Ok(took);
        }
        self.kept = look_again(alloc, &mut self.graph, &self.kept.judged, steps)?;
        Ok(took)
    }
}
