ghost use Rattle.std.specs.Prelude.{◌≡◌, true, length, List, IfOk};
ghost use Rattle.std.specs.List.{All};
ghost use Rattle.team_sets.specs.Closure.{closure, has};
ghost use Rattle.tg_text.specs.Order.{key_cmp};
ghost use Rattle.tg_text.specs.declared.keys.KeyId.{KeyId};
ghost use Rattle.key_reach.specs.Graphs.{IsGraph, turned};
ghost use Rattle.key_reach.specs.Keys.{box_arrows, same_key};
ghost use Rattle.key_reach.specs.Lists.{IsListOf};

use crate::graph::{Graph, make_graph, reached_from};
use crate::numbers::NumberSet;
use std::alloc::Global;
use tg_text::{BoxLine, KeyId, Memory};

// The boxes as arrows from the recipient to the content. The nodes have these keys too.
pub(crate) fn box_graph(
    alloc: Global,
    boxes: &[BoxLine],
    more: &[KeyId],
) -> Result<Graph<KeyId>, Memory>
    ensures nodes { IfOk result (λ graph. (k : KeyId) → has same_key more.now k ≡ true → has same_key graph.nodes.items k ≡ true) }
    ensures graph { IfOk result (λ graph. IsGraph key_cmp (box_arrows boxes.now) graph.nodes.items graph.arrows.items) }
{
    let mut arrows = Vec::new(alloc);
    for line in boxes {
        arrows.push((line.to, line.of))?;
    }
    make_key_graph(alloc, more, arrows.as_slice())
}

// The boxes as arrows from the content to the recipient. The nodes have these keys too.
pub(crate) fn turned_box_graph(
    alloc: Global,
    boxes: &[BoxLine],
    more: &[KeyId],
) -> Result<Graph<KeyId>, Memory>
    ensures nodes { IfOk result (λ graph. (k : KeyId) → has same_key more.now k ≡ true → has same_key graph.nodes.items k ≡ true) }
    ensures graph { IfOk result (λ graph. IsGraph key_cmp (turned (box_arrows boxes.now)) graph.nodes.items graph.arrows.items) }
{
    let mut arrows = Vec::new(alloc);
    for line in boxes {
        arrows.push((line.of, line.to))?;
    }
    make_key_graph(alloc, more, arrows.as_slice())
}

fn make_key_graph(
    alloc: Global,
    more: &[KeyId],
    arrows: &[(KeyId, KeyId)],
) -> Result<Graph<KeyId>, Memory>
    ensures nodes { IfOk result (λ graph. (k : KeyId) → has same_key more.now k ≡ true → has same_key graph.nodes.items k ≡ true) }
    ensures graph { IfOk result (λ graph. IsGraph key_cmp arrows.now graph.nodes.items graph.arrows.items) }
{
    make_graph(alloc, more, arrows)
}

// The keys that these reach in a graph.
pub(crate) fn keys_from(
    alloc: Global,
    graph: &Graph<KeyId>,
    reached: &mut NumberSet,
    from: &[KeyId],
) -> Result<Vec<KeyId>, Memory>
    requires graph { (arrows : List (KeyId × KeyId)) × IsGraph key_cmp arrows graph.now.nodes.items graph.now.arrows.items }
    requires nodes { All (λ k. has same_key graph.now.nodes.items k ≡ true) from.now }
    requires size { reached.old.size ≡ length graph.now.nodes.items }
    ensures size { reached.new.size ≡ reached.old.size }
    ensures reached { IfOk result (λ keys. (arrows : List (KeyId × KeyId)) → IsGraph key_cmp arrows graph.now.nodes.items graph.now.arrows.items
        → IsListOf key_cmp (closure same_key arrows from.now) keys.items) }
{
    reached_from(alloc, graph, reached, from)
}
