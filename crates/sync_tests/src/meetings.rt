//! Two ends that see each other.
use crate::deliveries::graph_without;
use head_sync::{Session, SyncFault, meet};
use link_graph::Graph;
use std::alloc::Global;
use std::test::Fail;
use team_files::file_text;
use team_samples::{History, make_history};
use tg_outside::{Silent, Steps};
use tg_text::{Bytes, Items, LinkName, Memory};

// The graph of the first links of a history.
fn first_links(alloc: Global, history: &History, count: usize) -> Graph {
    let mut graph = Graph::new(alloc, history.team);
    for (i, text) in history.texts.as_slice().iter().enumerate() {
        if i < count {
            let _ = graph.take(text.as_slice());
        }
    }
    graph
}

fn is_same_file(alloc: Global, one: &Graph, two: &Graph) -> Result<bool, Memory> {
    Ok(file_text(alloc, one)?.as_slice() == file_text(alloc, two)?.as_slice())
}

// How many messages two ends pass, and whether both then hold the same and neither refused a link.
fn meets(alloc: Global, one: &mut Graph, two: &mut Graph) -> Option<(u64, bool)> {
    let met = meet(alloc, one, two, &mut Steps::new(Silent)).ok()?;
    let is_same = is_same_file(alloc, one, two).ok()?;
    let are_taken = met.refused_by_first == 0 && met.refused_by_second == 0;
    Some((met.messages, is_same && are_taken))
}

// Two ends with the same links greet, and are done.
#[test]
fn equal_ends_pass_four_messages(rt: HostRuntime) -> Result<(), Fail> {
    let alloc = rt.alloc();
    let history = make_history(alloc, 2, 6)?;
    let mut one = first_links(alloc, &history, 6);
    let mut two = first_links(alloc, &history, 6);
    assert!(rt; meets(alloc, &mut one, &mut two) == Some((4, true)) && one.held() == 6);
    Ok(())
}

// Each has links that the other lacks: both greet, ask, give and are done.
#[test]
fn both_get_what_they_lack(rt: HostRuntime) -> Result<(), Fail> {
    let alloc = rt.alloc();
    let history = make_history(alloc, 3, 12)?;
    let mut one = graph_without(alloc, &history, 8);
    let mut two = graph_without(alloc, &history, 9);
    assert!(rt; meets(alloc, &mut one, &mut two) == Some((8, true)) && one.held() == 12);
    Ok(())
}

// What an end sends when it took a message.
fn sent(end: &mut Session, graph: &mut Graph, message: &[u8]) -> Option<Items<Bytes>> {
    end.take(graph, message, &mut Steps::new(Silent)).ok()
}

// Whether an end refuses a message by this fault.
fn refuses(end: &mut Session, graph: &mut Graph, message: &[u8], fault: SyncFault) -> bool {
    end.take(graph, message, &mut Steps::new(Silent)) == Err(fault)
}

// Whether an end answers a message by one.
fn answers_once(end: &mut Session, graph: &mut Graph, message: &[u8]) -> bool {
    match sent(end, graph, message) {
        Some(sent) => sent.len() == 1,
        None => false,
    }
}

// The one message that was sent.
fn only(sent: Items<Bytes>) -> Option<Bytes> {
    let mut messages = sent.into_vec();
    let message = messages.pop()?;
    if messages.is_empty() {
        Some(message)
    } else {
        None
    }
}

// The second end, which asks the first for its links, and what the first gives once it is greeted.
fn give(alloc: Global, one: &mut Graph, two: &mut Graph) -> Option<(Session, Items<Bytes>)> {
    let (mut first, hello) = Session::start(alloc, one).ok()?;
    let (mut second, greeting) = Session::start(alloc, two).ok()?;
    let asked = only(sent(&mut second, two, hello.as_slice())?)?;
    if !refuses(&mut first, one, asked.as_slice(), SyncFault::OutOfTurn) {
        return None;
    }
    let _done = sent(&mut first, one, greeting.as_slice())?;
    let given = sent(&mut first, one, asked.as_slice())?;
    Some((second, given))
}

// Whether the end takes the message and then holds so many links, and whether it answers.
fn takes(end: &mut Session, graph: &mut Graph, message: &Bytes, held: u32, answers: bool) -> bool {
    match sent(end, graph, message.as_slice()) {
        Some(sent) => graph.held() == held && sent.is_empty() != answers,
        None => false,
    }
}

// Whether the messages are three, and give 64, 64 and 2 links to an end with one.
fn takes_all(end: &mut Session, graph: &mut Graph, given: &[Bytes]) -> bool {
    match given {
        [early, later, last] => {
            takes(end, graph, early, 65, false)
                && takes(end, graph, later, 129, false)
                && takes(end, graph, last, 131, true)
        }
        _ => false,
    }
}

// An end with the root alone gets 130 further links in three messages.
#[test]
fn as_many_links_as_fit(rt: HostRuntime) -> Result<(), Fail> {
    let alloc = rt.alloc();
    let history = make_history(alloc, 4, 131)?;
    let mut one = first_links(alloc, &history, 131);
    let mut two = first_links(alloc, &history, 1);
    let (mut end, given) = give(alloc, &mut one, &mut two).ok_or("nothing given")?;
    assert!(rt; takes_all(&mut end, &mut two, given.as_slice()));
    Ok(())
}

// Bytes that are no message, a message to another team, and one out of turn leave all as it is.
#[test]
fn refused_messages_change_nothing(rt: HostRuntime) -> Result<(), Fail> {
    let alloc = rt.alloc();
    let mut graph = Graph::new(alloc, LinkName([7; 32]));
    let (_, other) = Session::start(alloc, &Graph::new(alloc, LinkName([8; 32])))?;
    let (mut end, hello) = Session::start(alloc, &graph)?;
    let (other, hello) = (other.as_slice(), hello.as_slice());
    assert!(rt; hello.starts_with(b"team-sync 1 hello\nteam "));
    assert!(rt;
        refuses(
            &mut end,
            &mut graph,
            b"team-sync 1 hullo\n",
            SyncFault::BadMessage
        )
    );
    assert!(rt; refuses(&mut end, &mut graph, other, SyncFault::OtherTeam));
    assert!(rt; answers_once(&mut end, &mut graph, hello));
    assert!(rt; refuses(&mut end, &mut graph, hello, SyncFault::OutOfTurn));
    Ok(())
}
