//! What becomes of links before their turn.
ghost use Rattle.std.specs.Prelude.{◌≡◌, ◌<◌, IfOk, Some, length, map, slice_get};
ghost use Rattle.team_sets.specs.Members.{IsIn};
ghost use Rattle.team_model.specs.Judging.{lawful, team_rules};
ghost use Rattle.team_model.specs.declared.terms.Link.{Link};
ghost use Rattle.link_graph.specs.Held.{arrived_of};
ghost use Rattle.replica.specs.Resolving.{first_lawful, first_verdict, IsDecidedWithin, verdict_by};
ghost use Rattle.replica.specs.Settling.{IsSettled};
ghost use Rattle.replica.specs.Views.{judgements};

use crate::judged::Judged;
use crate::settling::{Settled, decision_at, first_striker};
use link_graph::Graph;
use settlement::Decision;
use std::alloc::Global;
use strikes::is_striking;
use team_model::Verdict;
use tg_text::Memory;

// What a decision makes of a striker.
fn decided(graph: &Graph, decision: Decision) -> Verdict
    requires { IsDecidedWithin (length (arrived_of graph.now.links)) decision }
    ensures { result ≡ verdict_by graph.now.links decision }
{
    match decision {
        Decision::Stands => Verdict::Counts,
        Decision::Struck(position) => Verdict::Struck(graph.link_at(position).name),
        Decision::Lost(position) => Verdict::Outranked(graph.link_at(position).name),
    }
}

// What becomes of a lawful link before its turn. The first striker that stands and strikes it takes out one that doesn't strike.
fn first_lawful(graph: &Graph, settled: &Settled, position: u32) -> Verdict
    requires given { position < length (arrived_of graph.now.links) }
    requires settled { IsSettled graph.now.links (lawful team_rules graph.now.links) settled.now }
    requires lawful { (x : Link) → slice_get (arrived_of graph.now.links) position ≡ Some x → IsIn x (lawful team_rules graph.now.links) }
    ensures { (x : Link) → slice_get (arrived_of graph.now.links) position ≡ Some x → result ≡ first_lawful graph.now.links x }
{
    // A law: it does nothing at run time.
    graph.is_held();
    if is_striking(&graph.link_at(position).entry.act) {
        return decided(graph, decision_at(settled, position));
    }
    if !settled.struck[position as usize] {
        return Verdict::Counts;
    }
    match first_striker(graph, settled, position) {
        Some(striker) => Verdict::Struck(graph.link_at(striker).name),
        None => Verdict::Counts,
    }
}

// What becomes of the link of a position before its turn.
fn first_verdict(graph: &Graph, judged: &Judged, settled: &Settled, position: u32) -> Verdict
    requires given { position < length (arrived_of graph.now.links) }
    requires judged { judged.now.reasons.items ≡ judgements graph.now.links }
    requires settled { IsSettled graph.now.links (lawful team_rules graph.now.links) settled.now }
    ensures { (x : Link) → slice_get (arrived_of graph.now.links) position ≡ Some x → result ≡ first_verdict graph.now.links x }
{
    // A law: it does nothing at run time.
    graph.is_held();
    match judged.reasons[position as usize] {
        Some(reason) => Verdict::Unlawful(reason),
        None => first_lawful(graph, settled, position),
    }
}

/// What becomes of the links before their turn, by position.
pub(crate) fn first_verdicts(
    alloc: Global,
    graph: &Graph,
    judged: &Judged,
    settled: &Settled,
) -> Result<Vec<Verdict>, Memory>
    requires judged { judged.now.reasons.items ≡ judgements graph.now.links }
    requires settled { IsSettled graph.now.links (lawful team_rules graph.now.links) settled.now }
    ensures { IfOk result (λ verdicts. verdicts.items ≡ map (first_verdict graph.now.links) (arrived_of graph.now.links)) }
{
    let mut verdicts = Vec::new(alloc);
    for position in 0..graph.connected() {
        verdicts.push(first_verdict(graph, judged, settled, position))?;
    }
    Ok(verdicts)
}
