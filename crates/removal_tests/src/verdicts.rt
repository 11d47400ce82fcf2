//! The team of a set of links, and what became of each link.
use crate::settling::{Decision, settle};
use crate::table::{Team, apply, refusal};
use crate::web::{Web, has_parents, is_marked, mark, order_of, strikes};
use replica::{Reason, Verdict};
use std::alloc::Global;
use tg_text::{LinkName, Memory};

/// What a set of links comes to, each at its place: the resolved list, the team, and what became of each link.
#[derive(Drop)]
pub struct Outcome {
    pub resolved: Vec<usize>,
    pub team: Team,
    pub verdicts: Vec<Verdict>,
}

// The lawful links of a set in their order, of which no standing removal strikes any, and with what is decided of the removals.
#[derive(Drop)]
struct Settled {
    order: Vec<usize>,
    decisions: Vec<Option<Decision>>,
    resolved: Vec<usize>,
}

// The links that have all their ancestors.
fn connected(alloc: Global, web: &Web) -> Result<Vec<bool>, Memory> {
    let mut marks = vec![in alloc; false; web.links.len()]?;
    for place in 0..web.links.len() {
        let has_parents = has_parents(&web.parents, place, &marks);
        mark(&mut marks, place, has_parents);
    }
    Ok(marks)
}

fn decision_at(decisions: &[Option<Decision>], place: usize) -> Option<Decision> {
    match decisions.get(place) {
        Some(decision) => *decision,
        None => None,
    }
}

// The first standing removal of the order that strikes a link.
fn first_striker(
    web: &Web,
    order: &[usize],
    decisions: &[Option<Decision>],
    struck: usize,
) -> Option<usize> {
    for place in order {
        let stands = matches!(decision_at(decisions, *place), Some(Decision::Stands));
        if stands && strikes(web, *place, struck) {
            return Some(*place);
        }
    }
    None
}

// Settles a set of links that has their parents, of which those are lawful that are marked so.
fn settle_set(alloc: Global, web: &Web, set: &[bool], lawful: &[bool]) -> Result<Settled, Memory> {
    let mut inside = vec![in alloc; false; set.len()]?;
    for place in 0..set.len() {
        mark(
            &mut inside,
            place,
            is_marked(set, place) && is_marked(lawful, place),
        );
    }
    let order = order_of(alloc, web, set)?;
    let decisions = settle(alloc, web, &inside)?;
    let mut resolved = Vec::new(alloc);
    for place in &order {
        let stays = match decision_at(&decisions, *place) {
            Some(Decision::Stands) => true,
            Some(_) => false,
            None => first_striker(web, &order, &decisions, *place).is_none(),
        };
        if stays && is_marked(&inside, *place) {
            resolved.push(*place)?;
        }
    }
    Ok(Settled {
        order,
        decisions,
        resolved,
    })
}

// Does what the link of a place does, unless it is refused, and answers why it is.
fn turn(web: &Web, team: &mut Team, place: usize) -> Result<Option<Reason>, Memory> {
    let Some(link) = web.links.get(place) else {
        return Ok(None);
    };
    let reason = refusal(team, &link.entry);
    if reason.is_none() {
        apply(team, &link.entry)?;
    }
    Ok(reason)
}

// The team of a resolved list.
fn fold(alloc: Global, web: &Web, resolved: &[usize]) -> Result<Team, Memory> {
    let mut team = Team::new(alloc);
    for place in resolved {
        let _ = turn(web, &mut team, *place)?;
    }
    Ok(team)
}

// Why each link is unlawful, if it is: each is judged in the team of its past, of whose links it is known.
fn judge(alloc: Global, web: &Web) -> Result<(Vec<bool>, Vec<Option<Reason>>), Memory> {
    let mut lawful = vec![in alloc; false; web.links.len()]?;
    let mut reasons = Vec::new(alloc);
    for (place, link) in web.links.iter().enumerate() {
        let Some(past) = web.pasts.get(place) else {
            continue;
        };
        let settled = settle_set(alloc, web, past, &lawful)?;
        let team = fold(alloc, web, &settled.resolved)?;
        let reason = refusal(&team, &link.entry);
        mark(&mut lawful, place, reason.is_none());
        reasons.push(reason)?;
    }
    Ok((lawful, reasons))
}

// The name of the link of a place. There is one.
fn name_at(web: &Web, place: usize) -> LinkName {
    match web.links.get(place) {
        Some(link) => link.name,
        None => LinkName([0; 32]),
    }
}

// What became of a link before its turn comes; `Counts` where it does.
fn before_turn(
    web: &Web,
    settled: &Settled,
    connected: &[bool],
    reason: Option<Reason>,
    place: usize,
) -> Verdict {
    if !is_marked(connected, place) {
        return Verdict::Waiting;
    }
    if let Some(reason) = reason {
        return Verdict::Unlawful(reason);
    }
    match decision_at(&settled.decisions, place) {
        Some(Decision::Stands) => Verdict::Counts,
        Some(Decision::Struck(by)) => Verdict::Struck(name_at(web, by)),
        Some(Decision::Lost(by)) => Verdict::Outranked(name_at(web, by)),
        None => match first_striker(web, &settled.order, &settled.decisions, place) {
            Some(by) => Verdict::Struck(name_at(web, by)),
            None => Verdict::Counts,
        },
    }
}

/// What the links come to.
pub fn outcome_of(alloc: Global, web: &Web) -> Result<Outcome, Memory> {
    let connected = connected(alloc, web)?;
    let (lawful, reasons) = judge(alloc, web)?;
    let settled = settle_set(alloc, web, &connected, &lawful)?;
    let mut verdicts = Vec::new(alloc);
    for (place, reason) in reasons.iter().enumerate() {
        verdicts.push(before_turn(web, &settled, &connected, *reason, place))?;
    }
    let mut team = Team::new(alloc);
    for place in &settled.resolved {
        if let Some(reason) = turn(web, &mut team, *place)? {
            if let Some(verdict) = verdicts.get_mut(*place) {
                *verdict = Verdict::Refused(reason);
            }
        }
    }
    let Settled { resolved, .. } = settled;
    Ok(Outcome {
        resolved,
        team,
        verdicts,
    })
}
