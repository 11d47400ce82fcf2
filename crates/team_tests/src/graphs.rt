//! Graphs and replicas of the same links in any order.
use crate::undoing::take_and_undo;
use link_graph::{Graph, TakeFault, Took};
use link_text::{finish, name_of};
use replica::Replica;
use std::alloc::Global;
use std::test::Fail;
use team_files::{file_text, read_graph};
use team_samples::{Draws, History, all_but, make_history, shuffled};
use tg_outside::{Silent, Steps};
use tg_text::{Bytes, LinkName, Memory};

// How many links the history has.
const LINKS: usize = 14;

// Whether a text that isn't held is taken, and held from then on.
fn is_taken(graph: &mut Graph, text: &[u8]) -> bool {
    let (before, name) = (graph.connected(), name_of(text));
    if graph.holds(&name) {
        return false;
    }
    let is_placed = match graph.take(text) {
        Ok(Took::New { .. }) => graph.position(&name) == Some(before),
        Ok(Took::Waiting) => graph.position(&name).is_none() && graph.connected() == before,
        _ => false,
    };
    is_placed && graph.text_of(&name) == Some(text) && graph.take(text) == Ok(Took::Again)
}

// The links of a history, taken in the order of these places; `None` where one isn't taken.
fn graph_of(alloc: Global, history: &History, order: &[usize]) -> Option<Graph> {
    let mut graph = Graph::new(alloc, history.team);
    for place in order {
        let text = history.texts.get(*place)?;
        if !is_taken(&mut graph, text.as_slice()) {
            return None;
        }
    }
    Some(graph)
}

// The names of the connected links in their order.
fn ordered(alloc: Global, graph: &Graph) -> Result<Vec<LinkName>, Memory> {
    let mut names = Vec::new(alloc);
    for position in graph.order() {
        if *position < graph.connected() {
            names.push(graph.link_at(*position).name)?;
        }
    }
    Ok(names)
}

// Whether two graphs with as many links show the same.
fn are_same(alloc: Global, graph: &Graph, other: &Graph) -> Result<bool, Memory> {
    let counts = graph.held() == other.held() && graph.connected() == other.connected();
    let files = file_text(alloc, graph)?.as_slice() == file_text(alloc, other)?.as_slice();
    let names = ordered(alloc, graph)?.as_slice() == ordered(alloc, other)?.as_slice();
    Ok(counts && files && names && graph.heads() == other.heads())
}

// The history's links, forwards, and its graph of them.
fn forwards(alloc: Global) -> Option<(History, Graph)> {
    let history = make_history(alloc, 3, LINKS as u64).ok()?;
    let order = all_but(alloc, LINKS, LINKS).ok()?;
    let graph = graph_of(alloc, &history, order.as_slice())?;
    Some((history, graph))
}

// Whether the links in another order are the same graph.
fn is_same_shuffled(alloc: Global, history: &History, graph: &Graph, state: u64) -> Option<bool> {
    let order = all_but(alloc, LINKS, LINKS).ok()?;
    let order = shuffled(alloc, &mut Draws { state }, order.as_slice()).ok()?;
    let other = graph_of(alloc, history, order.as_slice())?;
    are_same(alloc, graph, &other).ok()
}

// Forwards and in five other orders.
#[test]
fn links_in_any_order_are_one_graph(rt: HostRuntime) -> Result<(), Fail> {
    let alloc = rt.alloc();
    let (history, graph) = forwards(alloc).ok_or("not taken")?;
    assert!(rt; graph.connected() == LINKS as u32);
    for state in 0..5 {
        assert!(rt; is_same_shuffled(alloc, &history, &graph, state) == Some(true));
    }
    Ok(())
}

// Whether a graph is that which is read from its file.
fn is_same_read(alloc: Global, graph: &Graph) -> Option<bool> {
    let file = file_text(alloc, graph).ok()?;
    let read = read_graph(alloc, file.as_slice()).ok()?;
    let is_same = are_same(alloc, graph, &read).ok()?;
    Some(is_same && file.len() as u64 == graph.file_bytes())
}

// A graph that is read from the file, in the order of names.
#[test]
fn the_file_of_a_graph_is_that_graph(rt: HostRuntime) -> Result<(), Fail> {
    let (_history, graph) = forwards(rt.alloc()).ok_or("not taken")?;
    assert!(rt; is_same_read(rt.alloc(), &graph) == Some(true));
    Ok(())
}

// Whether a graph takes the texts of these positions of another.
fn are_passed_on(graph: &mut Graph, other: &Graph, positions: &[u32]) -> bool {
    for position in positions {
        if *position >= other.connected() || !is_taken(graph, other.text_at(*position)) {
            return false;
        }
    }
    true
}

// Whether a graph of the first three links is the same once it was given what it lacks.
fn is_same_passed_on(alloc: Global, history: &History, graph: &Graph) -> Option<bool> {
    let mut other = graph_of(alloc, history, &[0, 1, 2])?;
    let lacking = graph.below(graph.heads(), other.heads()).ok()?;
    let are_passed = are_passed_on(&mut other, graph, lacking.as_slice());
    let is_same = are_same(alloc, graph, &other).ok()?;
    Some(are_passed && is_same && lacking.len() == LINKS - 3)
}

// What is below the heads of one graph and not below those of another is what the other lacks, parents first.
#[test]
fn links_below_heads_are_passed_on(rt: HostRuntime) -> Result<(), Fail> {
    let (history, graph) = forwards(rt.alloc()).ok_or("not taken")?;
    assert!(rt; is_same_passed_on(rt.alloc(), &history, &graph) == Some(true));
    Ok(())
}

// Whether the links of these positions are below some names and not below others.
fn are_below(graph: &Graph, names: &[LinkName], others: &[LinkName], positions: &[u32]) -> bool {
    match graph.below(names, others) {
        Ok(below) => below.as_slice() == positions,
        Err(_) => false,
    }
}

// All links are below the heads, and none where the same names are left out or no name is connected.
#[test]
fn links_are_below_names(rt: HostRuntime) -> Result<(), Fail> {
    let (history, graph) = forwards(rt.alloc()).ok_or("not taken")?;
    let (heads, root, far) = (graph.heads(), [history.team], [LinkName([7; 32])]);
    assert!(rt; are_below(&graph, heads, &[], graph.order()));
    assert!(rt; are_below(&graph, heads, heads, &[]));
    assert!(rt; are_below(&graph, &root, &far, &[0]) && are_below(&graph, &far, &[], &[]));
    Ok(())
}

// Whether a text is taken and let go, which leaves what is held, and is then taken to stay.
fn goes_and_stays(graph: &mut Graph, text: &[u8]) -> bool {
    let (held, heads) = (graph.held(), graph.heads().len());
    let is_undone = take_and_undo(graph, text) && !graph.holds(&name_of(text));
    is_undone && graph.held() == held && graph.heads().len() == heads && is_taken(graph, text)
}

// How many links are connected in the end, where each of a history is let go once before it stays, in the order of these places.
fn undone_in(alloc: Global, history: &History, order: &[usize]) -> Option<u32> {
    let mut graph = Graph::new(alloc, history.team);
    for place in order {
        if !goes_and_stays(&mut graph, history.texts.get(*place)?.as_slice()) {
            return None;
        }
    }
    Some(graph.connected())
}

// Forwards, and with the root last.
#[test]
fn a_graph_without_its_last_link(rt: HostRuntime) -> Result<(), Fail> {
    let history = make_history(rt.alloc(), 5, 9)?;
    for order in [[0, 1, 2, 3, 4, 5, 6, 7, 8], [1, 2, 3, 4, 5, 6, 7, 8, 0]] {
        assert_eq!(rt; undone_in(rt.alloc(), &history, &order), Some(9));
    }
    Ok(())
}

// A link of the history, with a signature of three bytes.
fn unsigned(alloc: Global, text: &Bytes) -> Result<Bytes, Memory> {
    // the line of a signature of 2,348 bytes
    let body = text.as_slice().split_at(text.len().saturating_sub(3138)).0;
    finish(alloc, body, &[0, 1, 2])
}

fn graph_refuses(graph: &mut Graph, text: &[u8], fault: TakeFault) -> bool {
    graph.take(text) == Err(fault)
}

fn replica_refuses(alloc: Global, replica: &mut Replica, text: &[u8], fault: TakeFault) -> bool {
    replica.insert(alloc, text, &mut Steps::new(Silent)) == Err(fault)
}

// Whether nothing is held.
fn are_empty(graph: &Graph, replica: &Replica) -> bool {
    graph.held() == 0
        && graph.file_bytes() == 77
        && replica.graph().held() == 0
        && replica.state().is_empty()
}

// What is refused leaves a graph and a replica as they were.
#[test]
fn texts_are_refused(rt: HostRuntime) -> Result<(), Fail> {
    let alloc = rt.alloc();
    let (history, far) = (make_history(alloc, 1, 2)?, make_history(alloc, 2, 1)?);
    let far_root = far.texts.first().ok_or("no root")?;
    let child = unsigned(alloc, history.texts.get(1).ok_or("no link")?)?;
    let long = vec![in alloc; b'a'; 1_048_577]?;
    let mut graph = Graph::new(alloc, history.team);
    let mut replica = Replica::new(alloc, history.team)?;
    for (text, fault) in [
        (far_root.as_slice(), TakeFault::OtherTeam),
        (child.as_slice(), TakeFault::BadSignature),
        (b"team-link 2\n".as_slice(), TakeFault::BadText),
        (long.as_slice(), TakeFault::TooLong),
    ] {
        assert!(rt; graph_refuses(&mut graph, text, fault));
        assert!(rt; replica_refuses(alloc, &mut replica, text, fault));
    }
    assert!(rt; are_empty(&graph, &replica));
    Ok(())
}
