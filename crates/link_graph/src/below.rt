//! Which connected links have some names, or are ancestors of one that has: marks by position.
ghost use Rattle.std.specs.Prelude.{◌≡◌, ◌<◌, [], ◌∷◌, false, IfOk, length, map, replicate};
ghost use Rattle.link_graph.specs.Below.{AreBelow, AreMarked, is_kept, is_within};
ghost use Rattle.link_graph.specs.Held.{arrived_of};

use crate::graph::Graph;
use std::alloc::Global;
use tg_text::{LinkName, Memory};

/// Marks the position of the link of this name, if it is connected.
pub fn mark_one(graph: &Graph, name: &LinkName, flags: &mut [bool])
    requires size { length flags.old ≡ length (arrived_of graph.now.links) }
    ensures size { length flags.new ≡ length flags.old }
    ensures marks { AreMarked graph.now.links (name.now ∷ []) flags.old flags.new }
{
    // A law: it does nothing at run time.
    graph.is_held();
    let Some(position) = graph.position(name) else {
        return;
    };
    flags[position as usize] = true;
}

// Marks the connected links that have one of the names.
fn mark(graph: &Graph, names: &[LinkName], flags: &mut [bool])
    requires size { length flags.old ≡ length (arrived_of graph.now.links) }
    ensures size { length flags.new ≡ length flags.old }
    ensures marks { AreMarked graph.now.links names.now flags.old flags.new }
{
    for name in names {
        mark_one(graph, name, flags);
    }
}

// Marks the connected links that have one of the names, and their ancestors.
//
// Parents stand before their children, so each link is final when the walk from the last position to the first comes to it.
fn mark_within(graph: &Graph, names: &[LinkName], flags: &mut [bool])
    requires none { flags.old ≡ replicate (length (arrived_of graph.now.links)) false }
    ensures { flags.new ≡ map (is_within graph.now.links names.now) (arrived_of graph.now.links) }
{
    // A law: it does nothing at run time.
    graph.is_held();
    mark(graph, names, flags);
    for position in (0..graph.connected()).rev() {
        if flags[position as usize] {
            mark(graph, graph.link_at(position).prev.as_slice(), flags);
        }
    }
}

/// Of each position, whether its link has one of the names or is an ancestor of a connected link that has.
pub fn find_within(alloc: Global, graph: &Graph, names: &[LinkName]) -> Result<Vec<bool>, Memory>
    ensures { IfOk result (λ flags. flags.items ≡ map (is_within graph.now.links names.now) (arrived_of graph.now.links)) }
{
    let mut flags = vec![in alloc; false; graph.connected() as usize]?;
    mark_within(graph, names, &mut flags);
    Ok(flags)
}

fn is_kept(wanted: &[bool], unwanted: &[bool], position: u32) -> bool
    requires wanted { position < length wanted.now }
    requires unwanted { position < length unwanted.now }
    ensures { result ≡ is_kept wanted.now unwanted.now position }
{
    wanted[position as usize] && !unwanted[position as usize]
}

/// What `Graph::below` answers.
pub(crate) fn find_below(
    alloc: Global,
    graph: &Graph,
    names: &[LinkName],
    not_below: &[LinkName],
) -> Result<Vec<u32>, Memory>
    ensures { IfOk result (λ positions. AreBelow graph.now.links names.now not_below.now positions.items) }
{
    let wanted = find_within(alloc, graph, names)?;
    let unwanted = find_within(alloc, graph, not_below)?;
    let mut found = Vec::new(alloc);
    for &position in graph.order() {
        if is_kept(&wanted, &unwanted, position) {
            found.push(position)?;
        }
    }
    Ok(found)
}
