//! Greetings that end well, and the texts that they pass.
use crate::device::{Crew, Ends, is_over, sent};
use handshake::{GreetState, Next};
use std::alloc::Global;
use std::test::Fail;

// Each end takes the proof of the other: whether it has accepted the other then, and has heard from it that it is accepted itself.
fn end_well(alloc: Global, crew: &Crew, ends: &mut Ends) -> Option<bool> {
    let (ann, bo) = (crew.ann.device(), crew.bo.device());
    let by_ann = ends.prove_ann(alloc, crew, 0)?;
    let by_bo = ends.prove_bo(alloc, crew, 5)?;
    let proving = ends.are(GreetState::Proving(bo), GreetState::Proving(ann));
    let from_two = sent(alloc, &mut ends.two, &crew.state, by_ann.as_slice())?;
    let accepted = ends.are(GreetState::Proving(bo), GreetState::Accepted(ann));
    let from_one = sent(alloc, &mut ends.one, &crew.state, by_bo.as_slice())?;
    let first = is_over(alloc, &mut ends.one, &crew.state, from_two.as_slice());
    let second = is_over(alloc, &mut ends.two, &crew.state, from_one.as_slice());
    let ended = ends.are(GreetState::Ended(bo), GreetState::Ended(ann));
    Some(proving && accepted && first && second && ended)
}

// Two listed devices accept each other: six messages pass.
#[test]
fn two_members_accept_each_other(rt: HostRuntime) -> Result<(), Fail> {
    let alloc = rt.alloc();
    let crew = Crew::make(alloc).ok_or("no crew")?;
    let mut ends = Ends::start(alloc, &crew, 3).ok_or("no ends")?;
    assert!(rt; ends.are(GreetState::Claimed, GreetState::Claimed));
    assert!(rt; end_well(alloc, &crew, &mut ends) == Some(true));
    Ok(())
}

// Whether a text begins and ends with these.
fn stands_between(text: &[u8], head: &[u8], tail: &[u8]) -> bool {
    text.starts_with(head) && text.ends_with(tail)
}

// Whether ann's claim begins and ends as in the documents.
fn is_claim(alloc: Global, claim: &[u8]) -> Result<bool, Fail> {
    let sevens = "07".repeat(alloc, 32)?;
    let threes = "03".repeat(alloc, 32)?;
    let head = format!(in alloc; "team-greet 1 claim\nteam {sevens}\nuser ann\nkey AAAABQAAAAM")?;
    let tail = format!(in alloc; "\nnonce {threes}\n")?;
    Ok(stands_between(claim, head.as_bytes(), tail.as_bytes()))
}

// Whether what is signed for ann begins as in the documents, and has five lines.
fn is_signed(alloc: Global, text: &[u8]) -> Result<bool, Fail> {
    let sevens = "07".repeat(alloc, 32)?;
    let threes = "03".repeat(alloc, 32)?;
    let head = format!(in alloc; "team-greeting 1\nteam {sevens}\nnonce {threes}\nfrom ")?;
    Ok(stands_between(text, head.as_bytes(), b"\n") && text.len() == 16 + 70 + 71 + 70 + 68)
}

#[test]
fn texts_stand_as_in_the_documents(rt: HostRuntime) -> Result<(), Fail> {
    let alloc = rt.alloc();
    let crew = Crew::make(alloc).ok_or("no crew")?;
    let mut ends = Ends::start(alloc, &crew, 3).ok_or("no ends")?;
    assert!(rt; is_claim(alloc, ends.first.as_slice())?);
    match ends.two.take(alloc, &crew.state, ends.first.as_slice()) {
        Ok(Next::Sign(text)) => assert!(rt; is_signed(alloc, text.as_slice())?),
        _ => return Err("nothing to sign")?,
    }
    Ok(())
}
