//! The resolved list of a set of links, and of a part of it.
ghost use Rattle.std.specs.Prelude.{◌≡◌, ◌<◌, ◌&&◌, Bool, All, IfOk, filter, length};
ghost use Rattle.team_model.specs.Judging.{lawful, team_rules};
ghost use Rattle.team_model.specs.declared.terms.Link.{Link};
ghost use Rattle.link_graph.specs.Held.{arrived_of};
ghost use Rattle.link_graph.specs.Positions.{at_places};
ghost use Rattle.replica.specs.Judged.{AreJudged, ArePartOf, is_picked};
ghost use Rattle.replica.specs.Resolving.{IsResolved};
ghost use Rattle.replica.specs.Settling.{AreLawful, HasSizes, stays_at};
ghost use Rattle.replica.specs.Striking.{IsJudged};

use crate::judged::Judged;
use crate::settling::{Settled, settle};
use crate::striking::is_lawful;
use link_graph::Graph;
use std::alloc::Global;
use strikes::is_striking;
use team_model::{Reason, rank_is_defined};
use tg_text::Memory;

/// The positions of the resolved list, and what settlement decided on the way to it.
#[derive(Debug, Drop)]
pub(crate) struct Resolved {
    pub(crate) positions: Vec<u32>,
    pub(crate) settled: Settled,
}

// Whether the position is marked, and its link is lawful.
fn is_picked(reasons: &[Option<Reason>], marked: &[bool], position: u32) -> bool
    requires { position < length marked.now }
    ensures { result ≡ is_picked marked.now reasons.now position }
{
    marked[position as usize] && is_lawful(reasons, position)
}

// The positions of the lawful links that are marked, in the order of the team.
fn pick_lawful(
    alloc: Global,
    graph: &Graph,
    reasons: &[Option<Reason>],
    marked: &[bool],
) -> Result<Vec<u32>, Memory>
    requires judged { AreJudged graph.now.links reasons.now }
    requires size { length marked.now ≡ length (arrived_of graph.now.links) }
    requires part { (part : Link → Bool) × ArePartOf graph.now.links (length reasons.now) part marked.now }
    ensures given { IfOk result (λ found. All (λ p. p < length (arrived_of graph.now.links)) found.items) }
    ensures lawful { IfOk result (λ found. AreLawful graph.now.links reasons.now marked.now (at_places (arrived_of graph.now.links) found.items)) }
    ensures of_part { IfOk result (λ found. (part : Link → Bool) → ArePartOf graph.now.links (length reasons.now) part marked.now
        → at_places (arrived_of graph.now.links) found.items ≡ filter part (lawful team_rules graph.now.links)) }
{
    // Laws: they do nothing at run time.
    graph.is_held();
    rank_is_defined();
    let mut found = Vec::new(alloc);
    for &position in graph.order() {
        if is_picked(reasons, marked, position) {
            found.push(position)?;
        }
    }
    Ok(found)
}

// Whether the link of a position stays: a striker has to stand, and no striker that stands may strike it.
fn stays(graph: &Graph, settled: &Settled, position: u32) -> bool
    requires given { position < length (arrived_of graph.now.links) }
    requires sizes { HasSizes (length (arrived_of graph.now.links)) settled.now }
    ensures { result ≡ stays_at graph.now.links settled.now position }
{
    (!is_striking(&graph.link_at(position).entry.act) || settled.standing[position as usize])
        && !settled.struck[position as usize]
}

// Those of these positions whose links stay.
fn pick_staying(
    alloc: Global,
    graph: &Graph,
    settled: &Settled,
    lawful: &[u32],
) -> Result<Vec<u32>, Memory>
    requires given { All (λ p. p < length (arrived_of graph.now.links)) lawful.now }
    requires sizes { HasSizes (length (arrived_of graph.now.links)) settled.now }
    ensures { IfOk result (λ found. found.items ≡ filter (stays_at graph.now.links settled.now) lawful.now) }
{
    let mut found = Vec::new(alloc);
    for &position in lawful {
        if stays(graph, settled, position) {
            found.push(position)?;
        }
    }
    Ok(found)
}

/// The resolved list of the links that are marked, whose ancestors are marked too, and which are judged.
pub(crate) fn resolve(
    alloc: Global,
    graph: &Graph,
    judged: &Judged,
    marked: &[bool],
) -> Result<Resolved, Memory>
    requires judged { IsJudged graph.now.links judged.now }
    requires size { length marked.now ≡ length (arrived_of graph.now.links) }
    requires part { (part : Link → Bool) × ArePartOf graph.now.links (length judged.now.reasons.items) part marked.now }
    ensures { IfOk result (λ found. IsResolved graph.now.links (length judged.now.reasons.items) marked.now found) }
{
    // A law: it does nothing at run time.
    graph.is_held();
    let lawful = pick_lawful(alloc, graph, &judged.reasons, marked)?;
    let settled = settle(alloc, graph, judged, marked, &lawful)?;
    let positions = pick_staying(alloc, graph, &settled, &lawful)?;
    Ok(Resolved { positions, settled })
}
