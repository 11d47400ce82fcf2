//! Histories of removals, as the product and the slow program judge them.
use crate::verdicts::{Outcome, outcome_of};
use crate::web::{Web, make_web};
use replica::{Replica, TeamState, Verdict};
use std::alloc::Global;
use std::test::Fail;
use team_samples::{Draws, History, all_but, backwards, make_removals, shuffled};
use tg_outside::{Silent, Steps};
use tg_text::{Bytes, Memory};

// How many links a history has, and which of them is left out, so that those after it wait.
const LINKS: usize = 60;

const LEFT_OUT: usize = 30;

// How many links there are of each verdict.
#[derive(Clone, Copy, Debug, PartialEq, Eq)]
struct Tally {
    counts: u32,
    unlawful: u32,
    struck: u32,
    outranked: u32,
    refused: u32,
    waiting: u32,
}

fn tally_of(verdicts: &[Verdict]) -> Tally {
    let mut tally = Tally {
        counts: 0,
        unlawful: 0,
        struck: 0,
        outranked: 0,
        refused: 0,
        waiting: 0,
    };
    for verdict in verdicts {
        match verdict {
            Verdict::Counts => tally.counts = one_more(tally.counts),
            Verdict::Unlawful(_) => tally.unlawful = one_more(tally.unlawful),
            Verdict::Struck(_) => tally.struck = one_more(tally.struck),
            Verdict::Outranked(_) => tally.outranked = one_more(tally.outranked),
            Verdict::Refused(_) => tally.refused = one_more(tally.refused),
            Verdict::Waiting => tally.waiting = one_more(tally.waiting),
        }
    }
    tally
}

fn one_more(count: u32) -> u32 {
    count.saturating_add(1)
}

// The replica of a history's links that came in this order; `None` where one isn't taken, or for want of memory.
fn replica_of(alloc: Global, history: &History, order: &[usize]) -> Option<Replica> {
    let mut replica = Replica::new(alloc, history.team).ok()?;
    for place in order {
        let text = history.texts.get(*place)?;
        replica
            .insert(alloc, text.as_slice(), &mut Steps::new(Silent))
            .ok()?;
    }
    Some(replica)
}

// The texts of a history at these places.
fn texts_at<'a>(
    alloc: Global,
    history: &'a History,
    order: &[usize],
) -> Result<Vec<&'a Bytes>, Memory> {
    let mut texts = Vec::new(alloc);
    for place in order {
        if let Some(text) = history.texts.get(*place) {
            texts.push(text)?;
        }
    }
    Ok(texts)
}

// Whether a replica says of each link what the slow program says.
fn has_verdicts(replica: &Replica, web: &Web, outcome: &Outcome) -> bool {
    for (place, link) in web.links.iter().enumerate() {
        if replica.verdict(&link.name) != outcome.verdicts.get(place).copied() {
            return false;
        }
    }
    replica.view().verdicts.len() == replica.graph().connected() as usize
}

// Whether a replica's resolved list is that of the slow program.
fn has_resolved(replica: &Replica, web: &Web, outcome: &Outcome) -> bool {
    let resolved = replica.view().resolved.as_slice();
    for (at, place) in outcome.resolved.iter().enumerate() {
        let position = web
            .links
            .get(*place)
            .and_then(|link| replica.graph().position(&link.name));
        if position.is_none() || resolved.get(at).copied() != position {
            return false;
        }
    }
    resolved.len() == outcome.resolved.len()
}

// Whether a state is the team of the slow program.
fn is_team(state: &TeamState, outcome: &Outcome) -> bool {
    let team = &outcome.team;
    for member in state.members() {
        let has_roles = member
            .roles
            .as_slice()
            .iter()
            .all(|role| team.has_role(&member.user, role));
        if !has_roles || !team.members.contains(&member.user) {
            return false;
        }
    }
    state.members().len() == team.members.len() && state.title() == team.title.as_ref()
}

// Whether the links in this order have the outcome of the slow program.
fn agrees(alloc: Global, history: &History, order: &[usize], web: &Web, outcome: &Outcome) -> bool {
    match replica_of(alloc, history, order) {
        Some(replica) => {
            has_verdicts(&replica, web, outcome)
                && has_resolved(&replica, web, outcome)
                && is_team(replica.state(), outcome)
        }
        None => false,
    }
}

// The verdicts of a history, by the slow program, and whether the product agrees forwards, backwards and shuffled.
fn judge_history(alloc: Global, number: u64) -> Result<(Tally, bool), Fail> {
    let history = make_removals(alloc, number, LINKS)?;
    let order = all_but(alloc, LINKS, LEFT_OUT)?;
    let texts = texts_at(alloc, &history, &order)?;
    let web = make_web(alloc, &texts)?;
    let outcome = outcome_of(alloc, &web)?;
    let last_first = backwards(alloc, &order)?;
    let mixed = shuffled(alloc, &mut Draws { state: number }, &order)?;
    let is_same = agrees(alloc, &history, &order, &web, &outcome)
        && agrees(alloc, &history, &last_first, &web, &outcome)
        && agrees(alloc, &history, &mixed, &web, &outcome);
    Ok((tally_of(&outcome.verdicts), is_same))
}

// Each number is a history. How many of its links there are of each verdict was computed by a third program.
#[test]
fn a_first_history_has_the_verdicts_of_the_rules(rt: HostRuntime) -> Result<(), Fail> {
    let (tally, is_same) = judge_history(rt.alloc(), 13)?;
    let wanted = Tally {
        counts: 25,
        unlawful: 16,
        struck: 13,
        outranked: 3,
        refused: 1,
        waiting: 1,
    };
    assert!(rt; is_same && tally == wanted, "{tally:?}");
    Ok(())
}

#[test]
fn a_second_history_has_the_verdicts_of_the_rules(rt: HostRuntime) -> Result<(), Fail> {
    let (tally, is_same) = judge_history(rt.alloc(), 26)?;
    let wanted = Tally {
        counts: 20,
        unlawful: 15,
        struck: 15,
        outranked: 3,
        refused: 3,
        waiting: 3,
    };
    assert!(rt; is_same && tally == wanted, "{tally:?}");
    Ok(())
}

#[test]
fn a_third_history_has_the_verdicts_of_the_rules(rt: HostRuntime) -> Result<(), Fail> {
    let (tally, is_same) = judge_history(rt.alloc(), 28)?;
    let wanted = Tally {
        counts: 19,
        unlawful: 21,
        struck: 10,
        outranked: 3,
        refused: 4,
        waiting: 2,
    };
    assert!(rt; is_same && tally == wanted, "{tally:?}");
    Ok(())
}
