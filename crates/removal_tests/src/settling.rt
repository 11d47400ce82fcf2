//! Which removals of a set stand.
use crate::web::{Web, brought_user, is_marked, mark, strikes};
use acts::Act;
use std::alloc::Global;
use tg_text::{LinkName, Memory, UserName};

/// What is decided of a removal: whether it stands, or else at whose turn it left, and whether that one strikes it.
#[derive(Clone, Copy)]
pub enum Decision {
    Stands,
    Struck(usize),
    Lost(usize),
}

/// How senior a removal is: the place of the link that brought its user in first, as height and name, and its own.
type Rank = (u32, LinkName, u32, LinkName);

// Whether the link of a place removes or takes away.
fn is_striker(web: &Web, place: usize) -> bool {
    match web.links.get(place) {
        Some(link) => matches!(
            &link.entry.act,
            Act::RemoveMember { .. } | Act::TakeRole { .. } | Act::RemoveDevice { .. }
        ),
        None => false,
    }
}

// The least height and name among the lawful links that bring a user in.
fn seniority(web: &Web, lawful: &[bool], user: &UserName) -> Option<(u32, LinkName)> {
    let mut least: Option<(u32, LinkName)> = None;
    for (place, link) in web.links.iter().enumerate() {
        if is_marked(lawful, place) && brought_user(&link.entry) == Some(*user) {
            let height = web.heights.get(place).copied().unwrap_or(0);
            least = Some(lesser(least, height, link.name));
        }
    }
    least
}

fn lesser(held: Option<(u32, LinkName)>, height: u32, name: LinkName) -> (u32, LinkName) {
    match held {
        Some(least) if least.cmp(&(height, name)).is_lt() => least,
        _ => (height, name),
    }
}

fn rank_of(web: &Web, lawful: &[bool], place: usize) -> Option<Rank> {
    let link = web.links.get(place)?;
    let (since, by) = seniority(web, lawful, &link.entry.user)?;
    Some((since, by, web.heights.get(place).copied()?, link.name))
}

// The most senior of the links that are left.
fn most_senior(web: &Web, lawful: &[bool], left: &[bool]) -> Option<usize> {
    let mut least: Option<(Rank, usize)> = None;
    for place in 0..left.len() {
        if is_marked(left, place) {
            if let Some(rank) = rank_of(web, lawful, place) {
                if is_less(&rank, &least) {
                    least = Some((rank, place));
                }
            }
        }
    }
    least.map(|found| found.1)
}

fn is_less(rank: &Rank, least: &Option<(Rank, usize)>) -> bool {
    match least {
        Some((held, _)) => rank.cmp(held).is_lt(),
        None => true,
    }
}

/// What is decided of the removals among some lawful links, by place: the most senior one stands, those leave with it that it
/// strikes or that strike it, and so on with those that are left.
pub fn settle(alloc: Global, web: &Web, lawful: &[bool]) -> Result<Vec<Option<Decision>>, Memory> {
    let mut decisions = vec![in alloc; None; lawful.len()]?;
    let mut left = vec![in alloc; false; lawful.len()]?;
    for place in 0..lawful.len() {
        mark(
            &mut left,
            place,
            is_marked(lawful, place) && is_striker(web, place),
        );
    }
    for _ in 0..lawful.len() {
        if let Some(turn) = most_senior(web, lawful, &left) {
            take_turn(web, turn, &mut left, &mut decisions);
        }
    }
    Ok(decisions)
}

// The removal of a place stands, and it and those that it strikes or that strike it aren't left.
fn take_turn(web: &Web, turn: usize, left: &mut [bool], decisions: &mut [Option<Decision>]) {
    for (place, decision) in decisions.iter_mut().enumerate() {
        if is_marked(left, place) {
            if place == turn {
                *decision = Some(Decision::Stands);
            } else if strikes(web, turn, place) {
                *decision = Some(Decision::Struck(turn));
            } else if strikes(web, place, turn) {
                *decision = Some(Decision::Lost(turn));
            }
            mark(left, place, decision.is_none());
        }
    }
}
