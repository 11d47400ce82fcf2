use crate::fault::SampleFault;
use crate::history::{Draws, History, add_entry, head_of, newcomer, root_body, title};
use crate::keys::sign;
use acts::device_of;
use link_text::name_of;
use lms_tree::Tree;
use std::alloc::Global;
use tg_text::{Bytes, LinkName, Memory, write_base64, write_hex};

// The place of the last link of the opening, after which all five are admins.
const LAST_OPENING: usize = 12;

/// A history of so many links by five admins, at least the root, who remove each other, each other's devices and roles. Sixteen keys
/// sign; ann, bo, cy, dee and eve have every fifth of these.
///
/// Ann founds the team and adds bo, and both add others, of whom two are as senior but for their links' names. Three have a
/// second device. After this opening each link has one to three parents, often old ones, and its act is drawn: in three of five cases
/// it removes or takes away. A leaf signs more than one link. Another number gives another history.
pub fn make_removals(alloc: Global, number: u64, count: usize) -> Result<History, SampleFault> {
    let keys = make_keys(alloc)?;
    let founder = keys.first().ok_or(SampleFault::NoKey)?;
    let body = root_body(alloc, founder, number)?;
    let root = sign(alloc, founder, 0, body.as_slice())?;
    let mut history = History {
        team: name_of(root.as_slice()),
        texts: Vec::new(alloc),
        names: Vec::new(alloc),
    };
    history.add(root)?;
    let mut draws = Draws { state: number };
    for n in 1..count {
        let plan = if n <= LAST_OPENING {
            open(alloc, &keys, &history.names, n)?
        } else {
            draw(alloc, &keys, &history.names, &mut draws, n)?
        };
        let text = write(alloc, &keys, &history.team, &plan, n)?;
        history.add(text)?;
    }
    Ok(history)
}

fn make_keys(alloc: Global) -> Result<Vec<Tree>, SampleFault> {
    let mut keys = Vec::new(alloc);
    for n in 0..16 {
        keys.push(Tree::make(alloc, 5, 2, &[n; 16], &[0x80 | n; 32])?)?;
    }
    Ok(keys)
}

// The user whose key stands at this place.
fn user_of(place: usize) -> &'static [u8] {
    match place % 5 {
        0 => b"ann",
        1 => b"bo",
        2 => b"cy",
        3 => b"dee",
        _ => b"eve",
    }
}

// What a link is to be: the place of the key by which it is written, its parents and its act.
#[derive(Drop)]
struct Plan {
    by: usize,
    parents: Vec<LinkName>,
    act: Bytes,
}

// The text of the link of a number, as it is planned.
fn write(
    alloc: Global,
    keys: &[Tree],
    team: &LinkName,
    plan: &Plan,
    n: usize,
) -> Result<Bytes, SampleFault> {
    let key = keys.get(plan.by).ok_or(SampleFault::NoKey)?;
    let mut body = head_of(alloc, team, &plan.parents)?;
    add_entry(&mut body, user_of(plan.by), key, n as u64, &plan.act)?;
    sign(alloc, key, (n % 32) as u32, body.as_slice())
}

// The names of links at some places, ascending, each once.
fn names_at(alloc: Global, names: &[LinkName], places: &[usize]) -> Result<Vec<LinkName>, Memory> {
    let mut found = Vec::new(alloc);
    for place in places {
        if let Some(name) = names.get(*place) {
            if !found.contains(name) {
                found.push(*name)?;
            }
        }
    }
    found.sort()?;
    Ok(found)
}

// A link of the opening. Each is after the one before, but for two that stand beside each other.
fn open(alloc: Global, keys: &[Tree], names: &[LinkName], n: usize) -> Result<Plan, SampleFault> {
    let parents = match n {
        4 => names_at(alloc, names, &[2])?,
        5 => names_at(alloc, names, &[3, 4])?,
        _ => names_at(alloc, names, &[n.saturating_sub(1)])?,
    };
    let (by, act) = match n {
        1 => (0, add_user(alloc, keys, 1)?),
        2 => (0, Bytes::from_slice(alloc, b"give_role bo admin")?),
        3 => (1, add_user(alloc, keys, 2)?),
        4 => (0, add_user(alloc, keys, 3)?),
        5 => (0, add_user(alloc, keys, 4)?),
        6 => (0, Bytes::from_slice(alloc, b"give_role cy admin")?),
        7 => (1, Bytes::from_slice(alloc, b"give_role dee admin")?),
        8 => (2, Bytes::from_slice(alloc, b"give_role eve admin")?),
        9 => (3, Bytes::from_slice(alloc, b"add_role deck")?),
        10 => (0, add_device(alloc, keys, 5)?),
        11 => (1, add_device(alloc, keys, 6)?),
        _ => (2, add_device(alloc, keys, 7)?),
    };
    Ok(Plan { by, parents, act })
}

// What adds the user of a key with it.
fn add_user(alloc: Global, keys: &[Tree], place: usize) -> Result<Bytes, SampleFault> {
    let key = keys.get(place).ok_or(SampleFault::NoKey)?;
    Ok(newcomer(alloc, user_of(place), key)?)
}

// What adds the device of a key.
fn add_device(alloc: Global, keys: &[Tree], place: usize) -> Result<Bytes, SampleFault> {
    let key = keys.get(place).ok_or(SampleFault::NoKey)?;
    let mut act = Bytes::from_slice(alloc, b"add_device ")?;
    write_base64(&mut act, key.public().as_slice())?;
    act.append(b" ")?;
    write_hex(&mut act, &[0x77; 32])?;
    Ok(act)
}

// A link after the opening, by a first key, or now and then by another of the same user's.
fn draw(
    alloc: Global,
    keys: &[Tree],
    names: &[LinkName],
    draws: &mut Draws,
    n: usize,
) -> Result<Plan, SampleFault> {
    let user = draws.below(5);
    let by = match draws.below(12) {
        0 | 1 => user.saturating_add(5),
        2 => user.saturating_add(10),
        _ => user,
    };
    let parents = draw_parents(alloc, names, draws)?;
    let act = draw_act(alloc, keys, draws, user, n)?;
    Ok(Plan { by, parents, act })
}

// In half of the cases one of the first links after the opening or its last, and otherwise up to three of the later ones.
fn draw_parents(
    alloc: Global,
    names: &[LinkName],
    draws: &mut Draws,
) -> Result<Vec<LinkName>, Memory> {
    let old = draw_place(draws, 6);
    let later = names.len().saturating_sub(LAST_OPENING);
    let places = [
        draw_place(draws, later),
        draw_place(draws, later),
        draw_place(draws, later),
    ];
    match draws.below(8) {
        0..=3 => names_at(alloc, names, &[old.min(names.len().saturating_sub(1))]),
        4 | 5 => names_at(alloc, names, &places[..1]),
        6 => names_at(alloc, names, &places[..2]),
        _ => names_at(alloc, names, &places),
    }
}

// One of so many places from that of the opening's last link on.
fn draw_place(draws: &mut Draws, count: usize) -> usize {
    draws.below(count).saturating_add(LAST_OPENING)
}

// The act of a link by a user, mostly on another one.
fn draw_act(
    alloc: Global,
    keys: &[Tree],
    draws: &mut Draws,
    user: usize,
    n: usize,
) -> Result<Bytes, SampleFault> {
    let other = user.saturating_add(draws.below(5)).saturating_add(1) % 5;
    match draws.below(15) {
        0..=3 => Ok(on_user(alloc, b"remove_member ", other, b"")?),
        4 | 5 => Ok(on_user(alloc, b"take_role ", other, b" admin")?),
        6 => Ok(on_user(alloc, b"take_role ", other, b" deck")?),
        7 => remove_device(alloc, keys, other),
        8 => remove_device(alloc, keys, other.saturating_add(5)),
        9 => Ok(on_user(alloc, b"give_role ", other, b" deck")?),
        10 => Ok(on_user(alloc, b"give_role ", other, b" admin")?),
        11 => add_device(alloc, keys, user.saturating_add(10)),
        12 => add_user(alloc, keys, other.saturating_add(10)),
        13 => Ok(Bytes::from_slice(alloc, b"join")?),
        _ => Ok(title(alloc, n as u64)?),
    }
}

// An act on a user: the word before the name, and what stands after it.
fn on_user(alloc: Global, word: &[u8], user: usize, rest: &[u8]) -> Result<Bytes, Memory> {
    let mut act = Bytes::from_slice(alloc, word)?;
    act.append(user_of(user))?;
    act.append(rest)?;
    Ok(act)
}

// What removes the device of a key from its user.
fn remove_device(alloc: Global, keys: &[Tree], place: usize) -> Result<Bytes, SampleFault> {
    let key = keys.get(place).ok_or(SampleFault::NoKey)?;
    let mut act = on_user(alloc, b"remove_device ", place, b" ")?;
    write_hex(&mut act, &device_of(&key.public()).0)?;
    Ok(act)
}
