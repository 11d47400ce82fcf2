ghost use Rattle.std.specs.Prelude.{◌≡◌, ◌≤◌, length, IfOk};
ghost use Rattle.std.specs.List.{AllByRecursion};
ghost use Rattle.tg_text.specs.Spelling.{IsHash, IsPublicKey};
ghost use Rattle.acts.specs.ActText.{IsActInRange, spell_act};
ghost use Rattle.lms_keep.specs.KeyText.{IsKeyState};
ghost use Rattle.link_graph.specs.Taking.{HasSpace};
ghost use Rattle.replica.specs.Below.{AreConnected};
ghost use Rattle.team_model.specs.ActTable.{is_found};
ghost use Rattle.team_author.specs.Planning.{IsPlanned, draft_of, entry_of, is_full, most_act_bytes, parents_of, planned};
ghost use Rattle.team_author.specs.Drafting.{HasRoom, IsDraft};

use crate::copying::copy_act;
use crate::plan_fault::PlanFault;
use acts::{Act, Entry, device_of};
use link_graph::Graph;
use link_text::Draft;
use lms_keep::KeyState;
use replica::Replica;
use std::alloc::Global;
use team_reducer::permits;
use tg_text::{Items, KeyLines, LinkName, MOST_FILE_BYTES, MOST_LINKS, Memory, PublicKey};

// How many parents a link has at most.
const MOST_PARENTS: usize = 64;

// How many bytes the frame of the greatest link has.
const GREATEST_FRAME: u64 = 1_048_589;

/// Plans the link of an act by a key, without key lines. Its parents are the heads, or the 64 least of them, and the act has to be
/// permitted in the team of these with their pasts.
///
/// `key` is the author's public key, which takes many hashes to find and so is handed in.
pub fn plan_plain(
    alloc: Global,
    replica: &Replica,
    author: &KeyState,
    key: &PublicKey,
    act: &Act,
    time: u64,
) -> Result<Draft, PlanFault>
    requires author { IsKeyState author.now }
    requires key { IsPublicKey key.now }
    requires act { IsActInRange act.now }
    requires short { length (spell_act act.now) ≤ most_act_bytes }
    ensures plan { IsPlanned (planned replica.now author.now key.now act.now time) result }
    ensures draft { IfOk result (λ draft. IsDraft draft) }
    ensures room { IfOk result (λ _. HasRoom replica.now) }
{
    // A law: it does nothing at run time.
    replica.graph().is_held();
    if is_full(replica.graph()) {
        return Err(PlanFault::Full);
    }
    let parents = copy_names(alloc, first_heads(replica.graph()))?;
    let state = replica.team_of(alloc, parents.as_slice())?;
    let entry = entry_of(alloc, author, key, act, time)?;
    permits(&state, &entry)?;
    Ok(draft_of(alloc, replica, key, parents, entry))
}

// Whether there may be no room for one more link.
fn is_full(graph: &Graph) -> bool
    ensures { result ≡ is_full graph.now }
{
    // A law: it does nothing at run time.
    graph.is_held();
    graph.held() as usize >= MOST_LINKS || graph.file_bytes() + GREATEST_FRAME > MOST_FILE_BYTES
}

// The heads, or the least of them.
fn first_heads(graph: &Graph) -> &[LinkName]
    ensures parents { result.now ≡ parents_of graph.now.links }
    ensures connected { AreConnected graph.now.links result.now }
{
    let heads = graph.heads();
    if heads.len() < MOST_PARENTS {
        heads
    } else {
        heads.split_at(MOST_PARENTS).0
    }
}

// The names in a list of its own.
fn copy_names(alloc: Global, names: &[LinkName]) -> Result<Items<LinkName>, Memory>
    ensures same { IfOk result (λ copied. copied ≡ names.now) }
    ensures names { IfOk result (λ copied. AllByRecursion IsHash copied) }
{
    let mut copied = Items::new(alloc);
    for name in names {
        // Its clause says that the name is one.
        let _name = name.as_slice();
        copied.push(*name)?;
    }
    Ok(copied)
}

// The act with its author and its time, without key lines.
fn entry_of(
    alloc: Global,
    author: &KeyState,
    key: &PublicKey,
    act: &Act,
    time: u64,
) -> Result<Entry, Memory>
    requires { IsActInRange act.now }
    ensures { IfOk result (λ entry. entry ≡ entry_of author.now key.now act.now time) }
{
    Ok(Entry {
        user: author.user,
        device: device_of(key),
        time,
        act: copy_act(alloc, act)?,
        lines: KeyLines {
            news: Items::new(alloc),
            boxes: Items::new(alloc),
        },
    })
}

// The link before it is signed. One that founds a team names neither the team nor parents.
fn draft_of(
    alloc: Global,
    replica: &Replica,
    key: &PublicKey,
    parents: Items<LinkName>,
    entry: Entry,
) -> Draft
    requires { parents ≡ parents_of replica.now.links }
    ensures { result ≡ draft_of replica.now key.now entry }
{
    let founds = matches!(entry.act, Act::Found { .. });
    if founds {
        Draft {
            team: None,
            prev: Items::new(alloc),
            key: *key,
            entry,
        }
    } else {
        Draft {
            team: Some(replica.team()),
            prev: parents,
            key: *key,
            entry,
        }
    }
}
