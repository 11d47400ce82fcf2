//! The team of links in their turn, and what becomes of each at its turn.
ghost use Rattle.std.specs.Prelude.{◌≡◌, ◌<◌, All, IfOk, length, map};
ghost use Rattle.team_model.specs.Judging.{fold_team, lawful, team, team_rules};
ghost use Rattle.team_model.specs.State.{empty_state};
ghost use Rattle.link_graph.specs.Held.{arrived_of};
ghost use Rattle.link_graph.specs.Positions.{at_places};
ghost use Rattle.replica.specs.Below.{with_pasts};
ghost use Rattle.replica.specs.Judged.{AreGiven, noted, turned};
ghost use Rattle.replica.specs.Resolving.{first_verdict};
ghost use Rattle.replica.specs.Settling.{IsSettled};
ghost use Rattle.replica.specs.Striking.{IsJudged};
ghost use Rattle.replica.specs.Views.{judgements};

use crate::before_turns::first_verdicts;
use crate::judged::Judged;
use crate::resolving::{Resolved, resolve};
use link_graph::{Graph, find_within};
use std::alloc::Global;
use team_model::{Reason, Verdict};
use team_reducer::apply;
use team_state::TeamState;
use tg_outside::{StepLedger, Steps};
use tg_text::{LinkName, Memory};

/// The team and the verdicts that come of links in their turn.
#[derive(Debug, Drop)]
pub(crate) struct Turns {
    pub(crate) state: TeamState,
    pub(crate) verdicts: Vec<Verdict>,
}

// The team that the links of these positions give, one after the other.
fn fold_links<L: StepLedger>(
    alloc: Global,
    graph: &Graph,
    positions: &[u32],
    steps: &mut Steps<L>,
) -> Result<TeamState, Memory>
    requires given { All (λ p. p < length (arrived_of graph.now.links)) positions.now }
    ensures { IfOk result (λ state. state ≡ fold_team team_rules (at_places (arrived_of graph.now.links) positions.now)) }
{
    let mut state = TeamState::new(alloc)?;
    for &position in positions {
        apply(alloc, &mut state, &graph.link_at(position).entry, steps)?;
    }
    Ok(state)
}

/// The team of the links of these names with all their ancestors, all of which are judged.
pub(crate) fn team_below<L: StepLedger>(
    alloc: Global,
    graph: &Graph,
    judged: &Judged,
    names: &[LinkName],
    steps: &mut Steps<L>,
) -> Result<TeamState, Memory>
    requires judged { IsJudged graph.now.links judged.now }
    requires given { AreGiven graph.now.links (length judged.now.reasons.items) names.now }
    ensures { IfOk result (λ state. state ≡ team team_rules (with_pasts graph.now.links names.now)) }
{
    // A law: it does nothing at run time.
    graph.is_held();
    let marked = find_within(alloc, graph, names)?;
    let resolved = resolve(alloc, graph, judged, &marked)?;
    fold_links(alloc, graph, &resolved.positions, steps)
}

fn note(verdicts: &mut [Verdict], position: u32, refused: Option<Reason>)
    requires { position < length verdicts.old }
    ensures { verdicts.new ≡ noted verdicts.old position refused }
{
    if let Some(reason) = refused {
        verdicts[position as usize] = Verdict::Refused(reason);
    }
}

/// Lets the links of the resolved list have their turn, one after the other.
pub(crate) fn take_turns<L: StepLedger>(
    alloc: Global,
    graph: &Graph,
    judged: &Judged,
    resolved: &Resolved,
    steps: &mut Steps<L>,
) -> Result<Turns, Memory>
    requires judged { judged.now.reasons.items ≡ judgements graph.now.links }
    requires given { All (λ p. p < length (arrived_of graph.now.links)) resolved.now.positions.items }
    requires settled { IsSettled graph.now.links (lawful team_rules graph.now.links) resolved.now.settled }
    ensures state { IfOk result (λ it. it.state ≡ fold_team team_rules (at_places (arrived_of graph.now.links) resolved.now.positions.items)) }
    ensures verdicts { IfOk result (λ it. it.verdicts.items ≡ turned team_rules (arrived_of graph.now.links) empty_state resolved.now.positions.items
        (map (first_verdict graph.now.links) (arrived_of graph.now.links))) }
{
    let mut state = TeamState::new(alloc)?;
    let mut verdicts = first_verdicts(alloc, graph, judged, &resolved.settled)?;
    for &position in &resolved.positions {
        let refused = apply(alloc, &mut state, &graph.link_at(position).entry, steps)?;
        note(&mut verdicts, position, refused);
    }
    Ok(Turns { state, verdicts })
}
