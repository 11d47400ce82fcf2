//! Links with their ancestors, order and strikes, each found by going over all links.
use acts::{Act, Entry, device_of};
use link_text::{Link, read_link};
use std::alloc::Global;
use std::test::Fail;
use tg_text::{Bytes, DeviceId, LinkName, Memory, RoleName, UserName};

/// Links, each after its parents. By place: its parents, its ancestors, its height, and which links it strikes where both are lawful.
/// A parent that is absent stands at the place after the last.
#[derive(Drop)]
pub struct Web {
    pub links: Vec<Link>,
    pub parents: Vec<Vec<usize>>,
    pub pasts: Vec<Vec<bool>>,
    pub heights: Vec<u32>,
    pub strikes: Vec<Vec<bool>>,
}

/// Whether a place is marked. None is past the last.
pub fn is_marked(marks: &[bool], place: usize) -> bool {
    match marks.get(place) {
        Some(marked) => *marked,
        None => false,
    }
}

/// Marks a place, or clears it.
pub fn mark(marks: &mut [bool], place: usize, marked: bool) {
    if let Some(held) = marks.get_mut(place) {
        *held = marked;
    }
}

/// The links of these texts with all that is found of them.
pub fn make_web(alloc: Global, texts: &[&Bytes]) -> Result<Web, Fail> {
    let mut links = Vec::new(alloc);
    for text in texts {
        links.push(read_link(alloc, text.as_slice()).ok().ok_or("no link")?)?;
    }
    Ok(web_of(alloc, links)?)
}

fn web_of(alloc: Global, links: Vec<Link>) -> Result<Web, Memory> {
    let parents = parents_of(alloc, &links)?;
    let pasts = pasts_of(alloc, &parents)?;
    let heights = heights_of(alloc, &parents)?;
    let strikes = strikes_of(alloc, &links, &pasts)?;
    Ok(Web {
        links,
        parents,
        pasts,
        heights,
        strikes,
    })
}

fn parents_of(alloc: Global, links: &[Link]) -> Result<Vec<Vec<usize>>, Memory> {
    let mut parents = Vec::new(alloc);
    for link in links {
        parents.push(places_of(alloc, links, link.prev.as_slice())?)?;
    }
    Ok(parents)
}

fn places_of(alloc: Global, links: &[Link], names: &[LinkName]) -> Result<Vec<usize>, Memory> {
    let mut places = Vec::new(alloc);
    for name in names {
        let place = links.iter().position(|link| link.name == *name);
        places.push(place.unwrap_or(links.len()))?;
    }
    Ok(places)
}

fn pasts_of(alloc: Global, parents: &[Vec<usize>]) -> Result<Vec<Vec<bool>>, Memory> {
    let mut pasts = Vec::new(alloc);
    for place in 0..parents.len() {
        pasts.push(past_of(alloc, parents, place)?)?;
    }
    Ok(pasts)
}

// The ancestors of a link: its parents, theirs, and so on.
fn past_of(alloc: Global, parents: &[Vec<usize>], of: usize) -> Result<Vec<bool>, Memory> {
    let mut marks = vec![in alloc; false; parents.len()]?;
    for place in (0..parents.len()).rev() {
        if place == of || is_marked(&marks, place) {
            mark_parents(parents, place, &mut marks);
        }
    }
    Ok(marks)
}

fn mark_parents(parents: &[Vec<usize>], of: usize, marks: &mut [bool]) {
    if let Some(places) = parents.get(of) {
        for place in places {
            mark(marks, *place, true);
        }
    }
}

fn heights_of(alloc: Global, parents: &[Vec<usize>]) -> Result<Vec<u32>, Memory> {
    let mut heights = Vec::new(alloc);
    for places in parents {
        let height = height_over(&heights, places);
        heights.push(height)?;
    }
    Ok(heights)
}

// One more than the greatest height of some parents; 0 where there are none.
fn height_over(heights: &[u32], parents: &[usize]) -> u32 {
    let mut height = 0u32;
    for place in parents {
        let below = heights.get(*place).copied().unwrap_or(0);
        height = height.max(below.saturating_add(1));
    }
    height
}

/// Whether all parents of a link are marked.
pub fn has_parents(parents: &[Vec<usize>], of: usize, marks: &[bool]) -> bool {
    match parents.get(of) {
        Some(places) => places.iter().all(|place| is_marked(marks, *place)),
        None => false,
    }
}

/// The order of a set of links that has their parents: the next one is always that of the least name among those whose parents all
/// stand before.
pub fn order_of(alloc: Global, web: &Web, set: &[bool]) -> Result<Vec<usize>, Memory> {
    let mut placed = vec![in alloc; false; set.len()]?;
    let mut order = Vec::new(alloc);
    for _ in 0..set.len() {
        if let Some(place) = next_of(web, set, &placed) {
            mark(&mut placed, place, true);
            order.push(place)?;
        }
    }
    Ok(order)
}

fn next_of(web: &Web, set: &[bool], placed: &[bool]) -> Option<usize> {
    let mut least: Option<(LinkName, usize)> = None;
    for (place, link) in web.links.iter().enumerate() {
        let may_come = is_marked(set, place)
            && !is_marked(placed, place)
            && has_parents(&web.parents, place, placed);
        if may_come && is_less(&link.name, &least) {
            least = Some((link.name, place));
        }
    }
    least.map(|found| found.1)
}

fn is_less(name: &LinkName, least: &Option<(LinkName, usize)>) -> bool {
    match least {
        Some((held, _)) => name.cmp(held).is_lt(),
        None => true,
    }
}

// Whether one link is in the past of another.
fn is_before(pasts: &[Vec<bool>], one: usize, other: usize) -> bool {
    match pasts.get(other) {
        Some(past) => is_marked(past, one),
        None => false,
    }
}

fn strikes_of(
    alloc: Global,
    links: &[Link],
    pasts: &[Vec<bool>],
) -> Result<Vec<Vec<bool>>, Memory> {
    let mut strikes = Vec::new(alloc);
    for (place, link) in links.iter().enumerate() {
        strikes.push(struck_by(alloc, links, pasts, place, &link.entry)?)?;
    }
    Ok(strikes)
}

// Which links a link strikes, where both are lawful: of those that are neither before nor after it.
fn struck_by(
    alloc: Global,
    links: &[Link],
    pasts: &[Vec<bool>],
    striker: usize,
    entry: &Entry,
) -> Result<Vec<bool>, Memory> {
    let mut marks = vec![in alloc; false; links.len()]?;
    for (place, link) in links.iter().enumerate() {
        let apart = place != striker
            && !is_before(pasts, place, striker)
            && !is_before(pasts, striker, place);
        mark(&mut marks, place, apart && hits(entry, &link.entry));
    }
    Ok(marks)
}

/// Whether a link strikes another, where both are lawful.
pub fn strikes(web: &Web, one: usize, other: usize) -> bool {
    match web.strikes.get(one) {
        Some(marks) => is_marked(marks, other),
        None => false,
    }
}

// The four cases of a strike, apart from when both were written.
fn hits(x: &Entry, y: &Entry) -> bool {
    match &x.act {
        Act::RemoveMember { user } => y.user == *user || brought_user(y) == Some(*user),
        Act::TakeRole { user, role } => {
            let is_use = *role == RoleName::admin() && y.user == *user && needs_admin(y);
            is_use || gives(&y.act, user, role)
        }
        Act::RemoveDevice { hex, .. } => y.device == *hex || brought_device(y) == Some(*hex),
        _ => false,
    }
}

/// The user whom a link brings in.
pub fn brought_user(entry: &Entry) -> Option<UserName> {
    match &entry.act {
        Act::Found { .. } => Some(entry.user),
        Act::AddMember { user, .. } => Some(*user),
        _ => None,
    }
}

fn brought_device(entry: &Entry) -> Option<DeviceId> {
    match &entry.act {
        Act::Found { .. } => Some(entry.device),
        Act::AddMember { key, .. } | Act::AddDevice { key, .. } => Some(device_of(key)),
        _ => None,
    }
}

fn needs_admin(entry: &Entry) -> bool {
    match &entry.act {
        Act::AddMember { .. } | Act::AddRole { .. } | Act::GiveRole { .. } | Act::Title { .. } => {
            true
        }
        Act::RemoveMember { user } => *user != entry.user,
        Act::TakeRole { user, .. } => *user != entry.user,
        Act::RemoveDevice { user, .. } => *user != entry.user,
        _ => false,
    }
}

fn gives(act: &Act, to: &UserName, given: &RoleName) -> bool {
    match act {
        Act::GiveRole { user, role } => user == to && role == given,
        _ => false,
    }
}
