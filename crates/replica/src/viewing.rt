ghost use Rattle.std.specs.Prelude.{IfOk};
ghost use Rattle.replica.specs.Kept.{AreAllJudged, IsKept};
ghost use Rattle.replica.specs.Striking.{IsJudged};
ghost use Rattle.replica.specs.Views.{IsViewOf};

use crate::folding::take_turns;
use crate::judged::Judged;
use crate::judging::judge;
use crate::resolving::resolve;
use crate::view::View;
use link_graph::Graph;
use std::alloc::Global;
use tg_outside::{StepLedger, Steps};
use tg_text::{Items, Memory};

/// What is kept of the links of a graph: what was found of each connected one, and the view.
#[derive(Debug, Drop)]
pub(crate) struct Kept {
    pub(crate) judged: Judged,
    pub(crate) view: View,
}

// The view of the links that a graph holds, all of which are judged. It is found from scratch.
fn view_of<L: StepLedger>(
    alloc: Global,
    graph: &Graph,
    judged: &Judged,
    steps: &mut Steps<L>,
) -> Result<View, Memory>
    requires { AreAllJudged graph.now.links judged.now }
    ensures { IfOk result (λ view. IsViewOf graph.now.links view) }
{
    // A law: it does nothing at run time.
    graph.is_held();
    let all = vec![in alloc; true; graph.connected() as usize]?;
    let resolved = resolve(alloc, graph, judged, &all)?;
    let turns = take_turns(alloc, graph, judged, &resolved, steps)?;
    Ok(View {
        state: turns.state,
        resolved: Items::from_vec(resolved.positions),
        verdicts: Items::from_vec(turns.verdicts),
    })
}

/// Judges the links that are not judged yet, and finds the view of all.
pub(crate) fn look<L: StepLedger>(
    alloc: Global,
    graph: &Graph,
    known: &Judged,
    steps: &mut Steps<L>,
) -> Result<Kept, Memory>
    requires { IsJudged graph.now.links known.now }
    ensures { IfOk result (λ kept. IsKept graph.now.links kept) }
{
    let judged = judge(alloc, graph, known, steps)?;
    let view = view_of(alloc, graph, &judged, steps)?;
    Ok(Kept { judged, view })
}
