ghost use Rattle.std.specs.Prelude.{◌≡◌, ◌<◌, ◌++◌, ℕ, List, [], ◌∷◌, true, length, IfOk, slice_get, Some};
ghost use Rattle.std.specs.List.{All};
ghost use Rattle.std.specs.List.Sorted.{IsNonDecreasingBy, IsStrictlySortedBy};
ghost use Rattle.std.specs.Ordering.{eq_by_cmp};
ghost use Rattle.team_sets.specs.Closure.{closure, has};
ghost use Rattle.key_reach.specs.Graphs.{arrows_with, ends, found, found_arrows, IsGraph, nodes_with};
ghost use Rattle.key_reach.specs.Lists.{IsListOf};

use crate::lists::{ordered, place};
use crate::numbers::NumberSet;
use crate::walking::walk;
use std::alloc::Global;
use tg_text::Memory;

// Nodes in ascending order, and arrows between their places, in the order of the tails.
#[derive(Drop)]
pub(crate) struct Graph<T> {
    pub(crate) nodes: Vec<T>,
    pub(crate) arrows: Vec<(usize, usize)>,
}

// The graph of these arrows. Its nodes are their ends, and the values of `more`.
pub(crate) fn make_graph<T: Ord + Copy>(
    alloc: Global,
    more: &[T],
    arrows: &[(T, T)],
) -> Result<Graph<T>, Memory>
    requires { (x y : T) → eq_by_cmp T.cmp x y ≡ true → x ≡ y }
    ensures nodes { IfOk result (λ graph. IsListOf T.cmp (ends more.now arrows.now) graph.nodes.items) }
    ensures graph { IfOk result (λ graph. IsGraph T.cmp arrows.now graph.nodes.items graph.arrows.items) }
{
    let ends = all_ends(alloc, more, arrows)?;
    let nodes = ordered(alloc, ends.as_slice())?;
    let mut numbers = number_arrows(alloc, nodes.as_slice(), arrows)?;
    numbers.sort_by_key(|arrow| arrow.0)?;
    Ok(Graph {
        nodes,
        arrows: numbers,
    })
}

fn all_ends<T: Copy>(alloc: Global, more: &[T], arrows: &[(T, T)]) -> Result<Vec<T>, Memory>
    ensures { IfOk result (λ values. values.items ≡ ends more.now arrows.now) }
{
    let mut values = Vec::from_slice(alloc, more)?;
    for (tail, head) in arrows {
        values.push(*tail)?;
        values.push(*head)?;
    }
    Ok(values)
}

// The arrows by the places of their ends.
fn number_arrows<T: Ord + Copy>(
    alloc: Global,
    nodes: &[T],
    arrows: &[(T, T)],
) -> Result<Vec<(usize, usize)>, Memory>
    requires tells { (x y : T) → eq_by_cmp T.cmp x y ≡ true → x ≡ y }
    requires ascends { IsStrictlySortedBy T.cmp nodes.now }
    requires ends { All (λ a. (has (eq_by_cmp T.cmp) nodes.now a.0 ≡ true) × (has (eq_by_cmp T.cmp) nodes.now a.1 ≡ true)) arrows.now }
    ensures within { IfOk result (λ numbers. All (λ a. (a.0 < length nodes.now) × (a.1 < length nodes.now)) numbers.items) }
    ensures named { IfOk result (λ numbers. arrows_with nodes.now numbers.items ≡ found_arrows arrows.now) }
{
    let mut numbers = Vec::new(alloc);
    for arrow in arrows {
        numbers.push(number_arrow(nodes, arrow))?;
    }
    Ok(numbers)
}

fn number_arrow<T: Ord>(nodes: &[T], arrow: &(T, T)) -> (usize, usize)
    requires tells { (x y : T) → eq_by_cmp T.cmp x y ≡ true → x ≡ y }
    requires ascends { IsStrictlySortedBy T.cmp nodes.now }
    requires ends { (has (eq_by_cmp T.cmp) nodes.now arrow.now.0 ≡ true) × (has (eq_by_cmp T.cmp) nodes.now arrow.now.1 ≡ true) }
    ensures within { (result.0 < length nodes.now) × (result.1 < length nodes.now) }
    ensures tail { slice_get nodes.now result.0 ≡ Some arrow.now.0 }
    ensures head { slice_get nodes.now result.1 ≡ Some arrow.now.1 }
{
    (place(nodes, &arrow.0), place(nodes, &arrow.1))
}

// The places of these nodes.
fn number_nodes<T: Ord + Copy>(
    alloc: Global,
    nodes: &[T],
    values: &[T],
) -> Result<Vec<usize>, Memory>
    requires tells { (x y : T) → eq_by_cmp T.cmp x y ≡ true → x ≡ y }
    requires ascends { IsStrictlySortedBy T.cmp nodes.now }
    requires nodes { All (λ x. has (eq_by_cmp T.cmp) nodes.now x ≡ true) values.now }
    ensures within { IfOk result (λ numbers. All (λ n. n < length nodes.now) numbers.items) }
    ensures named { IfOk result (λ numbers. nodes_with nodes.now numbers.items ≡ found values.now) }
{
    let mut numbers = Vec::new(alloc);
    for value in values {
        numbers.push(place(nodes, value))?;
    }
    Ok(numbers)
}

fn nodes_at<T: Copy>(alloc: Global, nodes: &[T], places: &[usize]) -> Result<Vec<T>, Memory>
    requires { All (λ n. n < length nodes.now) places.now }
    ensures { IfOk result (λ values. found values.items ≡ nodes_with nodes.now places.now) }
{
    let mut values = Vec::new(alloc);
    for place in places {
        values.push(node_at(nodes, *place))?;
    }
    Ok(values)
}

fn node_at<T: Copy>(nodes: &[T], place: usize) -> T
    requires { place < length nodes.now }
    ensures { slice_get nodes.now place ≡ Some result }
{
    nodes[place]
}

// What these nodes reach, themselves included, in order. `reached` is for its use, of the graph's size. The work goes by what
// is reached, and by the logarithm of the graph.
pub(crate) fn reached_from<T: Ord + Copy>(
    alloc: Global,
    graph: &Graph<T>,
    reached: &mut NumberSet,
    from: &[T],
) -> Result<Vec<T>, Memory>
    requires tells { (x y : T) → eq_by_cmp T.cmp x y ≡ true → x ≡ y }
    requires graph { (arrows : List (T × T)) × IsGraph T.cmp arrows graph.now.nodes.items graph.now.arrows.items }
    requires nodes { All (λ x. has (eq_by_cmp T.cmp) graph.now.nodes.items x ≡ true) from.now }
    requires size { reached.old.size ≡ length graph.now.nodes.items }
    ensures size { reached.new.size ≡ reached.old.size }
    ensures reached { IfOk result (λ list. (arrows : List (T × T)) → IsGraph T.cmp arrows graph.now.nodes.items graph.now.arrows.items
        → IsListOf T.cmp (closure (eq_by_cmp T.cmp) arrows from.now) list.items) }
{
    let starts = number_nodes(alloc, graph.nodes.as_slice(), from)?;
    reached.clear();
    reached.add_all(starts.as_slice())?;
    walk(graph.arrows.as_slice(), reached)?;
    let places = ordered(alloc, reached.as_slice())?;
    nodes_at(alloc, graph.nodes.as_slice(), places.as_slice())
}
