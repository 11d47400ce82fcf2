//! Messages that are refused. Each ends the greeting.
use crate::device::{Crew, Ends, is_over, sent, team};
use handshake::{GreetFault, GreetState, Greeting, refuse_text};
use std::alloc::Global;
use std::test::Fail;
use team_state::TeamState;
use tg_text::{Bytes, LinkName};

// The message is refused by this fault, and the greeting with it.
fn is_refused(
    alloc: Global,
    end: &mut Greeting,
    state: &TeamState,
    message: &[u8],
    fault: GreetFault,
) -> bool {
    let refused = matches!(end.take(alloc, state, message), Err(found) if found == fault);
    refused && end.state() == GreetState::Refused
}

// The welcome of bo's end to ann's, and bo's proof.
fn welcome_and_proof(alloc: Global, crew: &Crew) -> Option<(Bytes, Bytes)> {
    let mut ends = Ends::start(alloc, crew, 3)?;
    let by_bo = ends.prove_bo(alloc, crew, 0)?;
    let by_ann = ends.prove_ann(alloc, crew, 0)?;
    let welcome = sent(alloc, &mut ends.two, &crew.state, by_ann.as_slice())?;
    Some((welcome, by_bo))
}

// Whether a message is out of turn at an end.
fn is_out_of_turn(alloc: Global, end: &mut Greeting, state: &TeamState, message: &Bytes) -> bool {
    is_refused(alloc, end, state, message.as_slice(), GreetFault::OutOfTurn)
}

// A welcome comes out of turn to an end that has accepted none. A proof that comes afterwards is out of turn too.
#[test]
fn a_welcome_to_an_end_that_only_claims(rt: HostRuntime) -> Result<(), Fail> {
    let alloc = rt.alloc();
    let crew = Crew::make(alloc).ok_or("no crew")?;
    let (welcome, proof) = welcome_and_proof(alloc, &crew).ok_or("no welcome")?;
    let (mut end, _) = crew.ann.start(alloc, 3).ok_or("no end")?;
    assert!(rt; is_out_of_turn(alloc, &mut end, &crew.state, &welcome));
    assert!(rt; is_out_of_turn(alloc, &mut end, &crew.state, &proof));
    Ok(())
}

// Whether ann's end, which claims with the nonce of bytes 5 and has proved itself, refuses what bo proved over that of bytes 3.
fn is_replay_refused(alloc: Global, crew: &Crew) -> Option<bool> {
    let mut before = Ends::start(alloc, crew, 3)?;
    let replayed = before.prove_bo(alloc, crew, 0)?;
    let mut ends = Ends::start(alloc, crew, 5)?;
    let _proof = ends.prove_ann(alloc, crew, 1)?;
    let (end, message) = (&mut ends.one, replayed.as_slice());
    Some(is_refused(alloc, end, &crew.state, message, GreetFault::BadProof))
}

// A proof that was made for another greeting of the same two devices isn't over this one's nonce.
#[test]
fn a_proof_over_another_nonce(rt: HostRuntime) -> Result<(), Fail> {
    let alloc = rt.alloc();
    let crew = Crew::make(alloc).ok_or("no crew")?;
    assert!(rt; is_replay_refused(alloc, &crew) == Some(true));
    Ok(())
}

// Whether ann's end, which has proved itself, refuses bo's proof once his device isn't listed any more.
fn is_unlisted_refused(alloc: Global, mut crew: Crew) -> Option<bool> {
    let mut ends = Ends::start(alloc, &crew, 3)?;
    let by_bo = ends.prove_bo(alloc, &crew, 0)?;
    let _proof = ends.prove_ann(alloc, &crew, 0)?;
    let device = crew.bo.device();
    crew.state.unlist_device(&device).ok()?;
    let (end, message) = (&mut ends.one, by_bo.as_slice());
    Some(is_refused(alloc, end, &crew.state, message, GreetFault::UnknownDevice))
}

// A device that was unlisted between its claim and its proof isn't accepted.
#[test]
fn a_device_that_is_listed_no_more(rt: HostRuntime) -> Result<(), Fail> {
    let alloc = rt.alloc();
    let crew = Crew::make(alloc).ok_or("no crew")?;
    assert!(rt; is_unlisted_refused(alloc, crew) == Some(true));
    Ok(())
}

// Whether ann's end refuses its own claim without the last byte.
fn is_cut_refused(alloc: Global, crew: &Crew) -> Option<bool> {
    let (mut end, claim) = crew.ann.start(alloc, 3)?;
    let cut = claim.as_slice().split_at(claim.len().saturating_sub(1)).0;
    Some(is_refused(alloc, &mut end, &crew.state, cut, GreetFault::BadMessage))
}

// Whether ann's end refuses a message of another team.
fn is_other_refused(alloc: Global, crew: &Crew) -> Option<bool> {
    let (mut end, _claim) = crew.ann.start(alloc, 3)?;
    let other = refuse_text(alloc, &LinkName([8; 32]), GreetFault::BadProof).ok()?;
    let message = other.as_slice();
    Some(is_refused(alloc, &mut end, &crew.state, message, GreetFault::OtherTeam))
}

// Whether a refusal ends ann's greeting without a fault, and is out of turn when it comes again.
fn is_refusal_heard(alloc: Global, crew: &Crew) -> Option<bool> {
    let (mut end, _claim) = crew.ann.start(alloc, 3)?;
    let refusal = refuse_text(alloc, &team(), GreetFault::BadProof).ok()?;
    let is_heard = is_over(alloc, &mut end, &crew.state, refusal.as_slice())
        && end.state() == GreetState::Refused;
    Some(is_heard && is_out_of_turn(alloc, &mut end, &crew.state, &refusal))
}

// Bytes that are no message, and a message of another team, end a greeting too. A refusal that is heard ends it without a fault.
#[test]
fn what_is_no_message_of_the_team(rt: HostRuntime) -> Result<(), Fail> {
    let alloc = rt.alloc();
    let crew = Crew::make(alloc).ok_or("no crew")?;
    assert!(rt; is_cut_refused(alloc, &crew) == Some(true));
    assert!(rt; is_other_refused(alloc, &crew) == Some(true));
    assert!(rt; is_refusal_heard(alloc, &crew) == Some(true));
    Ok(())
}
