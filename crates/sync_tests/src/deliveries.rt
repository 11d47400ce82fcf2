//! Messages are delivered by a list: some are lost, some come again, some come late.
use head_sync::{Session, SyncFault};
use link_graph::Graph;
use link_intake::{ItemResult, give_bundle};
use std::alloc::Global;
use std::test::Fail;
use team_files::file_text;
use team_samples::{Draws, History, make_history};
use tg_outside::{Silent, Steps};
use tg_text::{Bytes, Memory, strip_front};

// How many links the history has.
const LINKS: u64 = 10;

// One end: what it holds, and what it would hold if it had been given the frames of each Give that it took, and nothing else.
#[derive(Drop)]
struct End {
    graph: Graph,
    fold: Graph,
    session: Session,
    sent: Vec<Bytes>,
    refused: u32,
}

// The graph of the links of a history, without each fifth from a place on: so some links wait.
pub fn graph_without(alloc: Global, history: &History, from: usize) -> Graph {
    let mut graph = Graph::new(alloc, history.team);
    for (i, text) in history.texts.as_slice().iter().enumerate() {
        if i < from || i % 5 != from % 5 {
            let _ = graph.take(text.as_slice());
        }
    }
    graph
}

fn start(alloc: Global, history: &History, from: usize) -> Result<End, Memory> {
    let graph = graph_without(alloc, history, from);
    let (session, hello) = Session::start(alloc, &graph)?;
    let mut sent = Vec::new(alloc);
    sent.push(hello)?;
    Ok(End {
        fold: graph_without(alloc, history, from),
        graph,
        session,
        sent,
        refused: 0,
    })
}

// The frames of a message that gives links.
fn frames_of(message: &[u8]) -> Option<&[u8]> {
    let rest = strip_front(message, b"team-sync 1 give\n")?;
    let (_, rest) = rest.split_at_checked(70)?;
    match strip_front(rest, b"more yes\n") {
        Some(frames) => Some(frames),
        None => strip_front(rest, b"more no\n"),
    }
}

// Delivers a message to an end, which takes it or not.
fn deliver(alloc: Global, end: &mut End, message: &[u8]) -> Result<(), Memory> {
    let mut steps = Steps::new(Silent);
    match end.session.take(&mut end.graph, message, &mut steps) {
        Ok(sent) => {
            for text in sent.into_vec() {
                end.sent.push(text)?;
            }
            fold(alloc, end, message)
        }
        Err(SyncFault::Memory) => Err(Memory),
        Err(_) => Ok(()),
    }
}

// Gives the frames of a message that was taken, if it has any, to the other graph of the end.
fn fold(alloc: Global, end: &mut End, message: &[u8]) -> Result<(), Memory> {
    if let Some(frames) = frames_of(message) {
        for became in give_bundle(alloc, &mut end.fold, frames)?.as_slice() {
            if let ItemResult::Refused(_) = became {
                end.refused = end.refused.saturating_add(1);
            }
        }
    }
    Ok(())
}

// Whether the end holds what it would hold by its frames, and has counted those that were refused.
fn is_fold(alloc: Global, end: &End) -> Result<bool, Memory> {
    let held = file_text(alloc, &end.graph)?;
    let folded = file_text(alloc, &end.fold)?;
    Ok(held.as_slice() == folded.as_slice() && end.session.refused() == end.refused)
}

// Delivers one of the messages that the other end sent so far, and whether the end then holds its fold.
fn deliver_one(
    alloc: Global,
    end: &mut End,
    other: &End,
    draws: &mut Draws,
) -> Result<bool, Memory> {
    if let Some(message) = other.sent.get(draws.below(other.sent.len())) {
        deliver(alloc, end, message.as_slice())?;
    }
    is_fold(alloc, end)
}

// Both ends have said and heard that they are done, with the same heads.
fn are_done(one: &End, two: &End) -> bool {
    let (first, second) = (one.session.ends(), two.session.ends());
    match (&first.sent, &first.heard, &second.sent, &second.heard) {
        (Some(a), Some(b), Some(c), Some(d)) => {
            a.as_slice() == b.as_slice()
                && c.as_slice() == d.as_slice()
                && a.as_slice() == c.as_slice()
        }
        _ => false,
    }
}

// Whether each of 48 deliveries, drawn from this state, leaves its end with the fold of what it was offered.
fn hold_their_folds(
    alloc: Global,
    one: &mut End,
    two: &mut End,
    state: u64,
) -> Result<bool, Memory> {
    let mut draws = Draws { state };
    for _ in 0..48 {
        let is_held = if draws.below(2) == 0 {
            deliver_one(alloc, one, two, &mut draws)?
        } else {
            deliver_one(alloc, two, one, &mut draws)?
        };
        if !is_held {
            return Ok(false);
        }
    }
    Ok(true)
}

// Whatever messages come, in whatever order and number, each end holds the fold of what it was offered. In these two runs both get
// done, and then with the same links.
#[test]
fn ends_hold_what_they_were_offered(rt: HostRuntime) -> Result<(), Fail> {
    let alloc = rt.alloc();
    let history = make_history(alloc, 5, LINKS)?;
    for state in 0..2 {
        let mut one = start(alloc, &history, 3)?;
        let mut two = start(alloc, &history, 7)?;
        assert!(rt; hold_their_folds(alloc, &mut one, &mut two, state)?);
        assert!(rt; are_done(&one, &two) && one.graph.heads() == two.graph.heads());
        assert!(rt; one.graph.connected() == two.graph.connected());
    }
    Ok(())
}
