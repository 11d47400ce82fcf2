//! Which links are lawful. A link is judged once, when it connects, since its judgement is of its past alone.
ghost use Rattle.std.specs.Prelude.{◌≡◌, ◌<◌, ◌+◌, ◌-◌, IfOk, IsTrue, OnOk, length};
ghost use Rattle.link_graph.specs.Held.{arrived_of};
ghost use Rattle.replica.specs.Judged.{FollowsOne, IsLast, IsPastOf};
ghost use Rattle.replica.specs.Kept.{AreAllJudged};
ghost use Rattle.replica.specs.Striking.{IsJudged};

use crate::folding::team_below;
use crate::judged::Judged;
use crate::striking::{note_striker, note_strikes};
use link_graph::Graph;
use std::alloc::Global;
use team_reducer::{apply, permits};
use team_state::TeamState;
use tg_outside::{StepLedger, Steps};
use tg_text::Memory;

// Whether the link of a position has the one before it as its only parent.
fn follows(graph: &Graph, position: u32) -> bool
    requires given { position < length (arrived_of graph.now.links) }
    requires later { 0 < position }
    ensures { IsTrue result → FollowsOne graph.now.links position }
{
    match graph.link_at(position).prev.as_slice() {
        [parent] => *parent == graph.link_at(position - 1).name,
        _ => false,
    }
}

// The team of the past of the link of a position, whose only parent is the link before it. `last` is the team of that one's past.
fn follow<L: StepLedger>(
    alloc: Global,
    graph: &Graph,
    position: u32,
    last: TeamState,
    steps: &mut Steps<L>,
) -> Result<TeamState, Memory>
    requires given { position < length (arrived_of graph.now.links) }
    requires later { 0 < position }
    requires follows { FollowsOne graph.now.links position }
    requires last { IsPastOf graph.now.links (position - 1) last }
    ensures { IfOk result (λ state. IsPastOf graph.now.links position state) }
{
    // A law: it does nothing at run time.
    graph.is_held();
    let mut state = last;
    apply(alloc, &mut state, &graph.link_at(position - 1).entry, steps)?;
    Ok(state)
}

// The team of the past of the next link to be judged, whose position is given. `last` is that of the link that was judged last, if it is at hand.
fn next_past<L: StepLedger>(
    alloc: Global,
    graph: &Graph,
    judged: &Judged,
    position: u32,
    last: Option<TeamState>,
    steps: &mut Steps<L>,
) -> Result<TeamState, Memory>
    requires judged { IsJudged graph.now.links judged.now }
    requires next { length judged.now.reasons.items ≡ position }
    requires given { position < length (arrived_of graph.now.links) }
    requires last { IsLast graph.now.links position last }
    ensures { IfOk result (λ state. IsPastOf graph.now.links position state) }
{
    // A law: it does nothing at run time.
    graph.is_held();
    match last {
        Some(state) if follows(graph, position) => follow(alloc, graph, position, state, steps),
        _ => {
            let parents = graph.link_at(position).prev.as_slice();
            team_below(alloc, graph, judged, parents, steps)
        }
    }
}

// Judges the next link, whose past has this team, and notes its strikes.
fn add_judgement(
    graph: &Graph,
    position: u32,
    past: &TeamState,
    judged: &mut Judged,
) -> Result<(), Memory>
    requires next { position < length (arrived_of graph.now.links) }
    requires before { length judged.old.reasons.items ≡ position }
    requires judged { IsJudged graph.now.links judged.old }
    requires past { IsPastOf graph.now.links position past.now }
    ensures size { OnOk result (length judged.new.reasons.items ≡ position + 1) }
    ensures judged { OnOk result (IsJudged graph.now.links judged.new) }
{
    // A law: it does nothing at run time.
    graph.is_held();
    let link = graph.link_at(position);
    judged.reasons.push(permits(past, &link.entry).err())?;
    note_strikes(
        graph,
        &judged.reasons,
        &judged.strikers,
        position,
        &mut judged.strikes,
    )?;
    note_striker(graph, &judged.reasons, position, &mut judged.strikers)?;
    Ok(())
}

/// Judges the connected links. Those of the first positions are judged already.
pub(crate) fn judge<L: StepLedger>(
    alloc: Global,
    graph: &Graph,
    known: &Judged,
    steps: &mut Steps<L>,
) -> Result<Judged, Memory>
    requires { IsJudged graph.now.links known.now }
    ensures { IfOk result (λ judged. AreAllJudged graph.now.links judged) }
{
    let mut judged = Judged {
        reasons: Vec::from_slice(alloc, &known.reasons)?,
        strikers: Vec::from_slice(alloc, &known.strikers)?,
        strikes: Vec::from_slice(alloc, &known.strikes)?,
    };
    let mut last = None;
    for position in known.reasons.len()..graph.connected() as usize {
        let next = position as u32;
        let past = next_past(alloc, graph, &judged, next, last, steps)?;
        add_judgement(graph, next, &past, &mut judged)?;
        last = Some(past);
    }
    Ok(judged)
}
