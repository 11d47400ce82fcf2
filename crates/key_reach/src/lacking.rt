ghost use Rattle.std.specs.Prelude.{◌≡◌, not, ◌&&◌, ◌++◌, map, filter, IfOk};
ghost use Rattle.std.specs.List.Sorted.{IsStrictlySortedBy};
ghost use Rattle.key_reach.specs.Keys as words;
ghost use Rattle.key_reach.specs.Laws.{IsOrdered};
ghost use Rattle.key_reach.specs.Lists.{IsListOf, pair_cmp};

use crate::current::{current_keys, without};
use crate::lists::{is_known_pair, ordered_pairs};
use crate::reaching::tainted;
use crate::scope_graphs::leads;
use crate::table::KeyTable;
use std::alloc::Global;
use tg_text::{BoxLine, KeyId, Memory, Scope};

/// The boxes that are to be made and aren't held: pairs of a recipient and a content, in order.
pub fn lacks<V: KeyTable>(alloc: Global, view: &V) -> Result<Vec<(KeyId, KeyId)>, Memory>
    ensures lacking { IfOk result (λ pairs. pairs.items ≡ words.lacks (V.table view.now)) }
    ensures ascend { IfOk result (λ pairs. IsStrictlySortedBy pair_cmp pairs.items) }
{
    let clean = clean_keys(alloc, view)?;
    list_lacks(alloc, view, clean.as_slice())
}

fn list_lacks<V: KeyTable>(
    alloc: Global,
    view: &V,
    clean: &[KeyId],
) -> Result<Vec<(KeyId, KeyId)>, Memory>
    requires { clean.now ≡ words.clean (V.table view.now) }
    ensures { IfOk result (λ pairs. pairs.items ≡ words.lacks (V.table view.now)) }
{
    let boxed = boxed_pairs(alloc, view.boxes())?;
    let mut pairs = Vec::new(alloc);
    for to in clean {
        push_lacks(&mut pairs, view, clean, boxed.as_slice(), to)?;
    }
    Ok(pairs)
}

// The current keys of live scopes that aren't tainted, in order.
fn clean_keys<V: KeyTable>(alloc: Global, view: &V) -> Result<Vec<KeyId>, Memory>
    ensures clean { IfOk result (λ keys. keys.items ≡ words.clean (V.table view.now)) }
    ensures ordered { IfOk result (λ _. IsOrdered (V.table view.now)) }
{
    let keys = current_keys(alloc, view)?;
    let tainted = tainted(alloc, view)?;
    without(alloc, keys.as_slice(), tainted.as_slice())
}

// The recipients of the boxes with the contents, in order.
fn boxed_pairs(alloc: Global, boxes: &[BoxLine]) -> Result<Vec<(KeyId, KeyId)>, Memory>
    ensures { IfOk result (λ pairs. IsListOf pair_cmp (words.box_arrows boxes.now) pairs.items) }
{
    let mut pairs = Vec::new(alloc);
    for line in boxes {
        pairs.push((line.to, line.of))?;
    }
    ordered_pairs(alloc, pairs.as_slice())
}

// What of these keys is to be sealed to one of them, and isn't.
fn push_lacks<V: KeyTable>(
    pairs: &mut Vec<(KeyId, KeyId)>,
    view: &V,
    clean: &[KeyId],
    boxed: &[(KeyId, KeyId)],
    to: &KeyId,
) -> Result<(), Memory>
    requires { IsListOf pair_cmp (words.box_arrows (V.table view.now).boxes) boxed.now }
    ensures { IfOk result (λ _. pairs.new.items ≡ pairs.old.items ++ words.lacks_to (V.table view.now) clean.now to.now) }
{
    for of in clean {
        if lacks_box(view, boxed, to, of) {
            pairs.push((*to, *of))?;
        }
    }
    Ok(())
}

fn lacks_box<V: KeyTable>(view: &V, boxed: &[(KeyId, KeyId)], to: &KeyId, of: &KeyId) -> bool
    requires { IsListOf pair_cmp (words.box_arrows (V.table view.now).boxes) boxed.now }
    ensures { result ≡ words.lacks_box (V.table view.now) to.now of.now }
{
    is_planned(view, to, of) && !is_known_pair(boxed, &(*to, *of))
}

fn is_planned<V: KeyTable>(view: &V, to: &KeyId, of: &KeyId) -> bool
    ensures { result ≡ words.plans (V.table view.now) to.now of.now }
{
    leads(view, &to.scope, &of.scope) && !(is_role(&to.scope) && is_team(&of.scope))
}

fn is_role(scope: &Scope) -> bool
    ensures { result ≡ words.is_role scope.now }
{
    matches!(scope, Scope::Role(_))
}

fn is_team(scope: &Scope) -> bool
    ensures { result ≡ words.is_team scope.now }
{
    matches!(scope, Scope::Team)
}
