ghost use Rattle.std.specs.Prelude.{◌≡◌, not, filter, IfOk};
ghost use Rattle.std.specs.List.Sorted.{IsStrictlySortedBy};
ghost use Rattle.team_sets.specs.Closure.{has};
ghost use Rattle.tg_text.specs.Order.{key_cmp, scope_cmp};
ghost use Rattle.key_reach.specs.Laws.{IsOrdered};
ghost use Rattle.key_reach.specs.Keys as words;

use crate::lists::{is_known, is_known_scope, ordered_keys};
use crate::table::KeyTable;
use std::alloc::Global;
use tg_text::{KeyId, Memory, Scope};

/// The current keys of the live scopes, in order.
pub fn current_keys<V: KeyTable>(alloc: Global, view: &V) -> Result<Vec<KeyId>, Memory>
    ensures keys { IfOk result (λ keys. keys.items ≡ words.current_keys (V.table view.now)) }
    ensures ordered { IfOk result (λ _. IsOrdered (V.table view.now)) }
{
    let known = ordered_keys(alloc, view.currents())?;
    live_keys(alloc, view.scopes(), known.as_slice())
}

// The keys of these scopes, which ascend, among these keys.
fn live_keys(alloc: Global, scopes: &[Scope], keys: &[KeyId]) -> Result<Vec<KeyId>, Memory>
    requires { IsStrictlySortedBy scope_cmp scopes.now }
    ensures { IfOk result (λ live. live.items ≡ filter (λ k. has words.same_scope scopes.now k.scope) keys.now) }
{
    let mut live = Vec::new(alloc);
    for key in keys {
        if is_of_scopes(scopes, key) {
            live.push(*key)?;
        }
    }
    Ok(live)
}

fn is_of_scopes(scopes: &[Scope], key: &KeyId) -> bool
    requires { IsStrictlySortedBy scope_cmp scopes.now }
    ensures { result ≡ has words.same_scope scopes.now key.now.scope }
{
    is_known_scope(scopes, &key.scope)
}

// Whether two scopes are one.
pub(crate) fn is_same_scope(scope: &Scope, other: &Scope) -> bool
    ensures { result ≡ words.same_scope scope.now other.now }
{
    scope.cmp(other).is_eq()
}

// These keys without those of an ordered list.
pub(crate) fn without(
    alloc: Global,
    keys: &[KeyId],
    tainted: &[KeyId],
) -> Result<Vec<KeyId>, Memory>
    requires { IsStrictlySortedBy key_cmp tainted.now }
    ensures { IfOk result (λ clean. clean.items ≡ filter (λ k. not (has words.same_key tainted.now k)) keys.now) }
{
    let mut clean = Vec::new(alloc);
    for key in keys {
        if is_clean(tainted, key) {
            clean.push(*key)?;
        }
    }
    Ok(clean)
}

// Whether a key isn't in an ordered list.
fn is_clean(tainted: &[KeyId], key: &KeyId) -> bool
    requires { IsStrictlySortedBy key_cmp tainted.now }
    ensures { result ≡ not (has words.same_key tainted.now key.now) }
{
    !is_known(tainted, key)
}
