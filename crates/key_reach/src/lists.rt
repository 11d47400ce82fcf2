ghost use Rattle.std.specs.Prelude.{◌≡◌, ◌<◌, true, length, map, IfOk, slice_get, Some};
ghost use Rattle.std.specs.List.Sorted.{IsStrictlySortedBy};
ghost use Rattle.std.specs.Ordering.{eq_by_cmp};
ghost use Rattle.team_sets.specs.Closure.{has};
ghost use Rattle.tg_text.specs.Order.{key_cmp, scope_cmp};
ghost use Rattle.key_reach.specs.Lists.{IsListOf, pair_cmp};

use std::alloc::Global;
use tg_text::{KeyId, Memory, Scope};

/// The members of a list in ascending order, each once.
pub fn ordered<T: Ord + Copy>(alloc: Global, members: &[T]) -> Result<Vec<T>, Memory>
    ensures { IfOk result (λ list. IsListOf T.cmp members.now list.items) }
{
    let mut list = Vec::from_slice(alloc, members)?;
    list.sort()?;
    list.dedup();
    Ok(list)
}

/// Whether a value is one of a list in ascending order.
pub fn is_member<T: Ord>(list: &[T], value: &T) -> bool
    requires { IsStrictlySortedBy T.cmp list.now }
    ensures { result ≡ has (eq_by_cmp T.cmp) list.now value.now }
{
    list.binary_search(value).is_ok()
}

// Where a value stands in a list in ascending order.
pub(crate) fn place<T: Ord>(list: &[T], value: &T) -> usize
    requires tells { (x y : T) → eq_by_cmp T.cmp x y ≡ true → x ≡ y }
    requires ascends { IsStrictlySortedBy T.cmp list.now }
    ensures { has (eq_by_cmp T.cmp) list.now value.now ≡ true → (result < length list.now) × (slice_get list.now result ≡ Some value.now) }
{
    match list.binary_search(value) {
        Ok(place) => place,
        Err(place) => place,
    }
}

// Keys in ascending order, each once.
pub(crate) fn ordered_keys(alloc: Global, keys: &[KeyId]) -> Result<Vec<KeyId>, Memory>
    ensures { IfOk result (λ list. IsListOf key_cmp keys.now list.items) }
{
    ordered(alloc, keys)
}

// Whether a key is one of a list in ascending order.
pub(crate) fn is_known(list: &[KeyId], key: &KeyId) -> bool
    requires { IsStrictlySortedBy key_cmp list.now }
    ensures { result ≡ has (eq_by_cmp key_cmp) list.now key.now }
{
    is_member(list, key)
}

// The scopes of these keys in ascending order, each once.
pub(crate) fn scopes_of(alloc: Global, keys: &[KeyId]) -> Result<Vec<Scope>, Memory>
    ensures { IfOk result (λ list. IsListOf scope_cmp (map (λ k. k.scope) keys.now) list.items) }
{
    let mut scopes = Vec::new(alloc);
    for key in keys {
        scopes.push(key.scope)?;
    }
    ordered_scopes(alloc, scopes.as_slice())
}

fn ordered_scopes(alloc: Global, scopes: &[Scope]) -> Result<Vec<Scope>, Memory>
    ensures { IfOk result (λ list. IsListOf scope_cmp scopes.now list.items) }
{
    ordered(alloc, scopes)
}

// Whether a scope is one of a list in ascending order.
pub(crate) fn is_known_scope(list: &[Scope], scope: &Scope) -> bool
    requires { IsStrictlySortedBy scope_cmp list.now }
    ensures { result ≡ has (eq_by_cmp scope_cmp) list.now scope.now }
{
    is_member(list, scope)
}

// Pairs of keys in ascending order, each once.
pub(crate) fn ordered_pairs(
    alloc: Global,
    pairs: &[(KeyId, KeyId)],
) -> Result<Vec<(KeyId, KeyId)>, Memory>
    ensures { IfOk result (λ list. IsListOf pair_cmp pairs.now list.items) }
{
    ordered(alloc, pairs)
}

// Whether a pair of keys is one of a list in ascending order.
pub(crate) fn is_known_pair(list: &[(KeyId, KeyId)], pair: &(KeyId, KeyId)) -> bool
    requires { IsStrictlySortedBy pair_cmp list.now }
    ensures { result ≡ has (eq_by_cmp pair_cmp) list.now pair.now }
{
    is_member(list, pair)
}
