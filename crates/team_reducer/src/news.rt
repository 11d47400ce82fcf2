//! The `new` lines of an entry: which fit in the state after the act's own effect.
ghost use Rattle.std.specs.Prelude.{◌≡◌, ◌&&◌, ◌||◌, ◌==◌, map, IfOk};
ghost use Rattle.std.specs.List.{list_any};
ghost use Rattle.std.specs.List.Sorted.{IsStrictlySortedBy};
ghost use Rattle.team_sets.specs.Closure.{has};
ghost use Rattle.tg_text.specs.Order.{key_cmp};
ghost use Rattle.key_reach.specs.Keys as words;
ghost use Rattle.key_reach.specs.Lists.{IsListOf};
ghost use Rattle.team_model.specs.KeyLines as lines;
ghost use Rattle.team_model.specs.KeyTables.{key_table};
ghost use Rattle.team_model.specs.Strikes.{brings_user};

use acts::{Act, Entry};
use key_reach::{KeyTable, entitled, is_device, is_member};
use std::alloc::Global;
use team_model::LAST_GENERATION;
use team_state::TeamState;
use tg_text::{KeyId, Memory, Scope, UserName};

/// The lines that fit, of each scope the first. `tainted` are the tainted keys of the state.
pub(crate) fn taken_news(
    alloc: Global,
    state: &TeamState,
    tainted: &[KeyId],
    entry: &Entry,
    news: &[KeyId],
) -> Result<Vec<KeyId>, Memory>
    requires { IsListOf key_cmp (words.tainted (key_table state.now)) tainted.now }
    ensures { IfOk result (λ taken. taken.items ≡ lines.taken_news state.now entry.now news.now) }
{
    let mut taken = Vec::new(alloc);
    for key in news {
        if new_fits(state, tainted, entry, key) && !is_taken(taken.as_slice(), &key.scope) {
            taken.push(*key)?;
        }
    }
    Ok(taken)
}

fn is_taken(taken: &[KeyId], scope: &Scope) -> bool
    ensures { result ≡ has words.same_scope (map (λ k. k.scope) taken.now) scope.now }
{
    has_key_of(taken, scope)
}

fn has_key_of(keys: &[KeyId], scope: &Scope) -> bool
    ensures { result ≡ list_any (λ k. words.same_scope scope.now k.scope) keys.now }
{
    keys.iter().any(|key| is_same_scope(scope, &key.scope))
}

fn is_same_scope(scope: &Scope, other: &Scope) -> bool
    ensures { result ≡ words.same_scope scope.now other.now }
{
    scope.cmp(other).is_eq()
}

// Whether a line fits, but for earlier lines of its scope.
fn new_fits(state: &TeamState, tainted: &[KeyId], entry: &Entry, key: &KeyId) -> bool
    requires { IsListOf key_cmp (words.tainted (key_table state.now)) tainted.now }
    ensures { result ≡ lines.new_fits state.now entry.now key.now }
{
    state.live(&key.scope) && !is_device(&key.scope) && is_due(state, tainted, entry, key)
}

// Whether the key is its scope's next one, the author may bring it, and the scope wants one or is the one that is rotated.
fn is_due(state: &TeamState, tainted: &[KeyId], entry: &Entry, key: &KeyId) -> bool
    requires { IsListOf key_cmp (words.tainted (key_table state.now)) tainted.now }
    ensures { result ≡ ((key.now.generation == lines.next_generation state.now key.now.scope) && (lines.has_next state.now key.now.scope
        && (lines.may_rekey state.now entry.now key.now.scope && (lines.wants_key state.now key.now.scope || lines.is_rotated entry.now.act key.now.scope)))) }
{
    is_next(state, key)
        && may_rekey(state, entry, &key.scope)
        && (wants_key(state, tainted, &key.scope) || is_rotated(&entry.act, &key.scope))
}

fn is_next(state: &TeamState, key: &KeyId) -> bool
    ensures { result ≡ ((key.now.generation == lines.next_generation state.now key.now.scope) && lines.has_next state.now key.now.scope) }
{
    let next = state.next_generation(&key.scope);
    u32::from(key.generation) == next && next <= u32::from(LAST_GENERATION)
}

/// Whether the author may bring a next key of a scope: an admin each, a device those of the scopes to which it is entitled, and
/// whoever brings a user in that user's.
pub fn may_rekey(state: &TeamState, entry: &Entry, scope: &Scope) -> bool
    ensures { result ≡ lines.may_rekey state.now entry.now scope.now }
{
    state.is_admin(&entry.user) || entitled(state, &entry.device, scope) || is_brought(entry, scope)
}

// Whether the scope is that of a user whom the entry brings in.
fn is_brought(entry: &Entry, scope: &Scope) -> bool
    ensures { result ≡ lines.is_brought entry.now scope.now }
{
    match scope {
        Scope::User(user) => brings_user(entry, user),
        _ => false,
    }
}

fn brings_user(entry: &Entry, user: &UserName) -> bool
    ensures { result ≡ brings_user entry.now user.now }
{
    match &entry.act {
        Act::Found { .. } => entry.user == *user,
        Act::AddMember { user: other, .. } => *other == *user,
        Act::AdmitMember { user: other, .. } => *other == *user,
        _ => false,
    }
}

/// Whether a scope never had a key, or has a tainted one. `tainted` are the tainted keys of the state.
pub fn wants_key(state: &TeamState, tainted: &[KeyId], scope: &Scope) -> bool
    requires { IsListOf key_cmp (words.tainted (key_table state.now)) tainted.now }
    ensures { result ≡ lines.wants_key state.now scope.now }
{
    match state.current_key(scope) {
        Some(key) => is_among(tainted, key),
        None => true,
    }
}

/// Whether a key is one of a list in ascending order.
pub(crate) fn is_among(keys: &[KeyId], key: &KeyId) -> bool
    requires { IsStrictlySortedBy key_cmp keys.now }
    ensures { result ≡ has words.same_key keys.now key.now }
{
    is_member(keys, key)
}

/// Whether an act rotates the scope.
pub fn is_rotated(act: &Act, scope: &Scope) -> bool
    ensures { result ≡ lines.is_rotated act.now scope.now }
{
    match act {
        Act::Rotate { scope: other } => is_same_scope(other, scope),
        _ => false,
    }
}
