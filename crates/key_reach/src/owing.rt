ghost use Rattle.std.specs.Prelude.{◌≡◌, ◌++◌, map, IfOk};
ghost use Rattle.std.specs.List.Sorted.{IsStrictlySortedBy};
ghost use Rattle.tg_text.specs.Order.{key_cmp, scope_cmp};
ghost use Rattle.key_reach.specs.Debts as words;
ghost use Rattle.key_reach.specs.Keys.{current_keys, is_tainted, tainted};
ghost use Rattle.key_reach.specs.Laws.{IsOrdered};
ghost use Rattle.key_reach.specs.Lists.{IsListOf};

use crate::current::current_keys;
use crate::debt::Debt;
use crate::lists::{is_known, is_known_scope, scopes_of};
use crate::reaching::tainted;
use crate::table::KeyTable;
use crate::unreached::push_unreached;
use std::alloc::Global;
use tg_text::{KeyId, Memory, Scope};

/// What the team owes: first the live scopes without a key, then the tainted keys, then the keys that a device doesn't reach;
/// each kind in order.
pub fn debts<V: KeyTable>(alloc: Global, view: &V) -> Result<Vec<Debt>, Memory>
    ensures owed { IfOk result (λ debts. debts.items ≡ words.debts (V.table view.now)) }
    ensures ascend { IfOk result (λ debts. IsStrictlySortedBy words.debt_cmp debts.items) }
{
    let keys = current_keys(alloc, view)?;
    list_debts(alloc, view, keys.as_slice())
}

fn list_debts<V: KeyTable>(alloc: Global, view: &V, keys: &[KeyId]) -> Result<Vec<Debt>, Memory>
    requires ordered { IsOrdered (V.table view.now) }
    requires keys { keys.now ≡ current_keys (V.table view.now) }
    ensures { IfOk result (λ debts. debts.items ≡ words.debts (V.table view.now)) }
{
    let mut debts = Vec::new(alloc);
    push_no_keys(alloc, &mut debts, view)?;
    push_tainted(alloc, &mut debts, view, keys)?;
    push_unreached(alloc, &mut debts, view, keys)?;
    Ok(debts)
}

fn push_no_keys<V: KeyTable>(alloc: Global, debts: &mut Vec<Debt>, view: &V) -> Result<(), Memory>
    ensures { IfOk result (λ _. debts.new.items ≡ debts.old.items ++ words.no_keys (V.table view.now)) }
{
    let known = scopes_of(alloc, view.currents())?;
    for scope in view.scopes() {
        if is_without_key(view, known.as_slice(), scope) {
            debts.push(Debt::NoKey(*scope))?;
        }
    }
    Ok(())
}

// Whether a scope never had a key, by the list of those that had one.
fn is_without_key<V: KeyTable>(_view: &V, known: &[Scope], scope: &Scope) -> bool
    requires { IsListOf scope_cmp (map (λ k. k.scope) (V.table _view.now).currents) known.now }
    ensures { result ≡ words.is_without_key (V.table _view.now) scope.now }
{
    !is_known_scope(known, scope)
}

fn push_tainted<V: KeyTable>(
    alloc: Global,
    debts: &mut Vec<Debt>,
    view: &V,
    keys: &[KeyId],
) -> Result<(), Memory>
    ensures { IfOk result (λ _. debts.new.items ≡ debts.old.items ++ words.tainted_of (V.table view.now) keys.now) }
{
    let tainted = tainted(alloc, view)?;
    for key in keys {
        if is_tainted(view, tainted.as_slice(), key) {
            debts.push(Debt::Tainted(*key))?;
        }
    }
    Ok(())
}

// Whether a key is tainted, by the list of those that are.
fn is_tainted<V: KeyTable>(_view: &V, list: &[KeyId], key: &KeyId) -> bool
    requires { IsListOf key_cmp (tainted (V.table _view.now)) list.now }
    ensures { result ≡ is_tainted (V.table _view.now) key.now }
{
    is_known(list, key)
}
