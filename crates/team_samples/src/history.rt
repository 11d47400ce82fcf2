use crate::fault::SampleFault;
use crate::keys::{other_key, own_key, sign};
use link_text::name_of;
use lms_tree::Tree;
use std::alloc::Global;
use tg_text::{Bytes, LinkName, Memory, write_base64, write_decimal, write_hex};

/// Numbers that look random, the same for the same state.
#[derive(Clone, Copy, Debug)]
pub struct Draws {
    pub state: u64,
}

impl Draws {
    /// The next number, below the limit; 0 where the limit is 0.
    pub fn below(&mut self, limit: usize) -> usize {
        self.state = self
            .state
            .wrapping_mul(6364136223846793005)
            .wrapping_add(1442695040888963407);
        if limit == 0 {
            0
        } else {
            (self.state >> 33) as usize % limit
        }
    }
}

/// A history: the texts of its links, the root first, and their names.
#[derive(Debug, Drop)]
pub struct History {
    pub team: LinkName,
    pub texts: Vec<Bytes>,
    pub names: Vec<LinkName>,
}

impl History {
    // Adds a link after those that are there.
    pub(crate) fn add(&mut self, text: Bytes) -> Result<(), Memory> {
        self.names.push(name_of(text.as_slice()))?;
        self.texts.push(text)?;
        Ok(())
    }
}

/// A history of so many links by two keys, at least the root. Every link but the root has one to three parents among those before
/// it. Ann founds the team, and the link after that adds bo; of the others three in seven are by bo, and one is by somebody who isn't on
/// the team. Those with three parents join, and the others have acts of all kinds that a link may have, whether lawful or not. A
/// leaf signs more than one link. Another number gives another history.
pub fn make_history(alloc: Global, number: u64, count: u64) -> Result<History, SampleFault> {
    let authors = Authors {
        ann: own_key(alloc)?,
        bo: other_key(alloc)?,
    };
    let body = root_body(alloc, &authors.ann, number)?;
    let first = sign(alloc, &authors.ann, 0, body.as_slice())?;
    let mut history = History {
        team: name_of(first.as_slice()),
        texts: Vec::new(alloc),
        names: Vec::new(alloc),
    };
    history.add(first)?;
    let mut draws = Draws { state: number };
    for n in 1..count {
        let parents = draw_parents(alloc, &mut draws, history.names.as_slice())?;
        let drawn = draws.below(10);
        let act = authors.act(alloc, n, parents.len(), drawn)?;
        let text = authors.write(alloc, &history.team, parents.as_slice(), n, &act)?;
        history.add(text)?;
    }
    Ok(history)
}

// Ann's key and bo's. The latter signs too for somebody who isn't on the team.
#[derive(Drop)]
struct Authors {
    ann: Tree,
    bo: Tree,
}

impl Authors {
    // The user and the key of the link of this number.
    fn author(&self, n: u64) -> (&'static [u8], &Tree) {
        match n % 7 {
            2 | 4 | 6 => (&b"bo"[..], &self.bo),
            3 => (&b"zed"[..], &self.bo),
            _ => (&b"ann"[..], &self.ann),
        }
    }

    // The text of the link of this number.
    fn write(
        &self,
        alloc: Global,
        team: &LinkName,
        parents: &[LinkName],
        n: u64,
        act: &Bytes,
    ) -> Result<Bytes, SampleFault> {
        let (user, key) = self.author(n);
        let mut body = head_of(alloc, team, parents)?;
        add_entry(&mut body, user, key, n, act)?;
        sign(alloc, key, (n % 32) as u32, body.as_slice())
    }

    // The act of the link of this number, with so many parents: the one that is drawn, but for the first, and for joins.
    fn act(&self, alloc: Global, n: u64, parents: usize, drawn: usize) -> Result<Bytes, Memory> {
        if n == 1 {
            return newcomer(alloc, b"bo", &self.bo);
        }
        if parents == 3 {
            return Bytes::from_slice(alloc, b"join");
        }
        match drawn {
            0 => newcomer(alloc, b"bo", &self.bo),
            1 => new_device(alloc, n),
            2 | 3 => Bytes::from_slice(alloc, b"add_role deck"),
            4 => Bytes::from_slice(alloc, b"remove_role deck"),
            5 => Bytes::from_slice(alloc, b"give_role bo deck"),
            6 => Bytes::from_slice(alloc, b"give_role bo admin"),
            7 => Bytes::from_slice(alloc, b"rotate role:deck"),
            8 => Bytes::from_slice(alloc, b"seal"),
            _ => title(alloc, n),
        }
    }
}

// What adds a user with this key.
pub(crate) fn newcomer(alloc: Global, user: &[u8], key: &Tree) -> Result<Bytes, Memory> {
    let mut act = Bytes::from_slice(alloc, b"add_member ")?;
    act.append(user)?;
    act.append(b" ")?;
    write_base64(&mut act, key.public().as_slice())?;
    act.append(b" ")?;
    write_hex(&mut act, &[0x66; 32])?;
    Ok(act)
}

// What adds a device of the author's, one of five.
fn new_device(alloc: Global, n: u64) -> Result<Bytes, Memory> {
    let mut key = [(n % 5) as u8; 56];
    key[..8].copy_from_slice(&[0, 0, 0, 5, 0, 0, 0, 3]);
    let mut act = Bytes::from_slice(alloc, b"add_device ")?;
    write_base64(&mut act, &key)?;
    act.append(b" ")?;
    write_hex(&mut act, &[0x77; 32])?;
    Ok(act)
}

pub(crate) fn title(alloc: Global, n: u64) -> Result<Bytes, Memory> {
    let mut act = Bytes::from_slice(alloc, b"title Title ")?;
    write_decimal(&mut act, n)?;
    Ok(act)
}

// The body of the root, by which ann founds the team.
pub(crate) fn root_body(alloc: Global, key: &Tree, time: u64) -> Result<Bytes, Memory> {
    let mut text = Bytes::from_slice(alloc, b"team-link 1\nteam -\nuser ann\nkey ")?;
    write_base64(&mut text, key.public().as_slice())?;
    text.append(b"\ntime ")?;
    write_decimal(&mut text, time)?;
    text.append(
        b"\nact found deb0e38ced1e41de6f92e70e80c418d2d356afaaa99e26f5939dbc7d3ef4772a Reef crew\n",
    )?;
    Ok(text)
}

// One to three of the links before, ascending by name.
fn draw_parents(
    alloc: Global,
    draws: &mut Draws,
    names: &[LinkName],
) -> Result<Vec<LinkName>, Memory> {
    let mut parents = Vec::new(alloc);
    for _ in 0..draws.below(3).min(2) + 1 {
        if let Some(name) = names.get(draws.below(names.len())) {
            if !parents.contains(name) {
                parents.push(*name)?;
            }
        }
    }
    parents.sort()?;
    Ok(parents)
}

// The lines that stand before the author.
pub(crate) fn head_of(
    alloc: Global,
    team: &LinkName,
    parents: &[LinkName],
) -> Result<Bytes, Memory> {
    let mut text = Bytes::from_slice(alloc, b"team-link 1\nteam ")?;
    write_hex(&mut text, team.as_slice())?;
    text.append(b"\n")?;
    for parent in parents {
        text.append(b"prev ")?;
        write_hex(&mut text, parent.as_slice())?;
        text.append(b"\n")?;
    }
    Ok(text)
}

// Adds the lines from the author to the act.
pub(crate) fn add_entry(
    body: &mut Bytes,
    user: &[u8],
    key: &Tree,
    time: u64,
    act: &Bytes,
) -> Result<(), Memory> {
    body.append(b"user ")?;
    body.append(user)?;
    body.append(b"\nkey ")?;
    write_base64(body, key.public().as_slice())?;
    body.append(b"\ntime ")?;
    write_decimal(body, time)?;
    body.append(b"\nact ")?;
    body.append(act.as_slice())?;
    body.append(b"\n")
}

/// The places below a count, but for one that is left out, in ascending order.
pub fn all_but(alloc: Global, count: usize, left_out: usize) -> Result<Vec<usize>, Memory> {
    let mut order = Vec::new(alloc);
    for place in 0..count {
        if place != left_out {
            order.push(place)?;
        }
    }
    Ok(order)
}

/// The same places from the last to the first.
pub fn backwards(alloc: Global, order: &[usize]) -> Result<Vec<usize>, Memory> {
    Ok(order.iter().rev().copied().collect(alloc)?)
}

/// The same places in another order: each next one is put at a drawn place.
pub fn shuffled(alloc: Global, draws: &mut Draws, order: &[usize]) -> Result<Vec<usize>, Memory> {
    let mut mixed = Vec::new(alloc);
    for &place in order {
        let at = draws.below(mixed.len() + 1).min(mixed.len());
        mixed.insert(at, place)?;
    }
    Ok(mixed)
}
