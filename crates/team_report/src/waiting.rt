//! The held links that wait for a parent.
ghost use Rattle.std.specs.Prelude.{◌≡◌, not, IfOk, OnOk, filter};
ghost use Rattle.std.specs.List.Sorted.{IsPermutation, IsSorted};
ghost use Rattle.link_graph.specs.Positions.{HasEntries, linked};
ghost use Rattle.team_report.specs.Entries.{entered, entry_cmp};
ghost use Rattle.team_report.specs.LogText.{is_connected, waiting_links};

use replica::Graph;
use std::alloc::Global;
use team_model::Link;
use tg_text::{LinkName, Memory};

/// The links that wait, each by its name and its place among the held links, in ascending order of names.
pub(crate) fn find_waiting(alloc: Global, graph: &Graph) -> Result<Vec<(LinkName, usize)>, Memory>
    ensures entries { IfOk result (λ entries. HasEntries graph.now.links entries.items) }
    ensures links { IfOk result (λ entries. linked graph.now.links entries.items ≡ waiting_links graph.now.links) }
{
    // A law: it does nothing at run time.
    graph.is_held();
    let mut entries = unsorted_waiting(alloc, graph)?;
    sort_entries(&mut entries)?;
    Ok(entries)
}

fn sort_entries(entries: &mut Vec<(LinkName, usize)>) -> Result<(), Memory>
    ensures sorted { OnOk result (IsSorted entry_cmp entries.new.items) }
    ensures same { OnOk result (IsPermutation entries.old.items entries.new.items) }
{
    entries.sort()?;
    Ok(())
}

// The links that wait, in the order in which they were taken.
fn unsorted_waiting(alloc: Global, graph: &Graph) -> Result<Vec<(LinkName, usize)>, Memory>
    ensures entries { IfOk result (λ entries. HasEntries graph.now.links entries.items) }
    ensures links { IfOk result (λ entries. linked graph.now.links entries.items ≡ filter (λ x. not (is_connected graph.now.links x)) graph.now.links) }
{
    let links = graph.links();
    let mut entries = Vec::new(alloc);
    for (place, link) in links.iter().enumerate() {
        enter(graph, link, place, &mut entries)?;
    }
    Ok(entries)
}

// Enters the link at a place, if it waits.
fn enter(
    graph: &Graph,
    link: &Link,
    place: usize,
    entries: &mut Vec<(LinkName, usize)>,
) -> Result<(), Memory>
    ensures { OnOk result (entries.new.items ≡ entered graph.now.links link.now place entries.old.items) }
{
    if !is_connected(graph, link) {
        entries.push((link.name, place))?;
    }
    Ok(())
}

fn is_connected(graph: &Graph, link: &Link) -> bool
    ensures { result ≡ is_connected graph.now.links link.now }
{
    // A law: it does nothing at run time.
    graph.is_held();
    graph.position(&link.name).is_some()
}
