ghost use Rattle.std.specs.Prelude.{◌≡◌, ◌++◌, true, map, filter, flat_map, IfOk};
ghost use Rattle.std.specs.List.Sorted.{IsStrictlySortedBy};
ghost use Rattle.team_sets.specs.Closure.{has};
ghost use Rattle.tg_text.specs.Order.{key_cmp, scope_cmp};
ghost use Rattle.key_reach.specs.Backwards.{AreTurned, unreached_by};
ghost use Rattle.key_reach.specs.Debts as words;
ghost use Rattle.key_reach.specs.Keys.{current_keys, same_key};
ghost use Rattle.key_reach.specs.Laws.{IsOrdered};
ghost use Rattle.key_reach.specs.Lists.{IsListOf};

use crate::box_graphs::{keys_from, turned_box_graph};
use crate::debt::Debt;
use crate::graph::Graph;
use crate::lists::{is_known, is_known_scope, scopes_of};
use crate::numbers::NumberSet;
use crate::scope_graphs::{scopes_from, turned_scope_graph};
use crate::table::KeyTable;
use std::alloc::Global;
use tg_text::{KeyId, Memory, Scope};

// The graphs in which one goes back from a key: to the scopes that meet its scope, and to the keys that reach it.
#[derive(Drop)]
struct TurnedGraphs {
    scopes: Graph<Scope>,
    met: NumberSet,
    boxes: Graph<KeyId>,
    reached: NumberSet,
}

// Each of these keys with the devices that are entitled to it and don't reach it. One goes back from each key: few keys lead
// to it, while a device may reach many.
pub(crate) fn push_unreached<V: KeyTable>(
    alloc: Global,
    debts: &mut Vec<Debt>,
    view: &V,
    keys: &[KeyId],
) -> Result<(), Memory>
    requires ordered { IsOrdered (V.table view.now) }
    requires keys { keys.now ≡ current_keys (V.table view.now) }
    ensures { IfOk result (λ _. debts.new.items ≡ debts.old.items ++ flat_map (words.unreached_of (V.table view.now) (words.device_names (V.table view.now))) keys.now) }
{
    let mut graphs = turned_graphs(alloc, view, keys)?;
    for key in keys {
        push_unreached_of(alloc, debts, view, &mut graphs, keys, key)?;
    }
    Ok(())
}

fn turned_graphs<V: KeyTable>(
    alloc: Global,
    view: &V,
    keys: &[KeyId],
) -> Result<TurnedGraphs, Memory>
    requires { keys.now ≡ current_keys (V.table view.now) }
    ensures { IfOk result (λ graphs. AreTurned (V.table view.now) graphs) }
{
    let scopes = turned_scope_graph(alloc, view)?;
    let boxes = turned_box_graph(alloc, view.boxes(), keys)?;
    let met = NumberSet::new(alloc, scopes.nodes.as_slice().len())?;
    let reached = NumberSet::new(alloc, boxes.nodes.as_slice().len())?;
    Ok(TurnedGraphs {
        scopes,
        met,
        boxes,
        reached,
    })
}

// One key with the devices that are entitled to it and don't reach it.
fn push_unreached_of<V: KeyTable>(
    alloc: Global,
    debts: &mut Vec<Debt>,
    view: &V,
    graphs: &mut TurnedGraphs,
    keys: &[KeyId],
    key: &KeyId,
) -> Result<(), Memory>
    requires ordered { IsOrdered (V.table view.now) }
    requires keys { keys.now ≡ current_keys (V.table view.now) }
    requires key { has same_key keys.now key.now ≡ true }
    requires graphs { AreTurned (V.table view.now) graphs.old }
    ensures graphs { AreTurned (V.table view.now) graphs.new }
    ensures debts { IfOk result (λ _. debts.new.items ≡ debts.old.items ++ words.unreached_of (V.table view.now) (words.device_names (V.table view.now)) key.now) }
{
    let meeting = scopes_from(alloc, &graphs.scopes, &mut graphs.met, &[key.scope])?;
    let holders = keys_from(alloc, &graphs.boxes, &mut graphs.reached, &[*key])?;
    let holding = holding_scopes(alloc, keys, holders.as_slice())?;
    push_devices(debts, key, meeting.as_slice(), holding.as_slice())
}

// The scopes of those holders that are among these keys.
fn holding_scopes(alloc: Global, keys: &[KeyId], holders: &[KeyId]) -> Result<Vec<Scope>, Memory>
    requires { IsStrictlySortedBy key_cmp keys.now }
    ensures { IfOk result (λ scopes. IsListOf scope_cmp (map (λ k. k.scope) (filter (has same_key keys.now) holders.now)) scopes.items) }
{
    let known = known_among(alloc, keys, holders)?;
    scopes_of(alloc, known.as_slice())
}

// Those holders that are among these keys.
fn known_among(alloc: Global, keys: &[KeyId], holders: &[KeyId]) -> Result<Vec<KeyId>, Memory>
    requires { IsStrictlySortedBy key_cmp keys.now }
    ensures { IfOk result (λ known. known.items ≡ filter (has same_key keys.now) holders.now) }
{
    let mut known = Vec::new(alloc);
    for holder in holders {
        if is_among(keys, holder) {
            known.push(*holder)?;
        }
    }
    Ok(known)
}

fn is_among(keys: &[KeyId], key: &KeyId) -> bool
    requires { IsStrictlySortedBy key_cmp keys.now }
    ensures { result ≡ has same_key keys.now key.now }
{
    is_known(keys, key)
}

// The devices among the scopes that meet a key's, without those that hold it.
fn push_devices(
    debts: &mut Vec<Debt>,
    key: &KeyId,
    meeting: &[Scope],
    holding: &[Scope],
) -> Result<(), Memory>
    requires { IsStrictlySortedBy scope_cmp holding.now }
    ensures { IfOk result (λ _. debts.new.items ≡ debts.old.items ++ flat_map (unreached_by holding.now key.now) meeting.now) }
{
    for scope in meeting {
        push_device(debts, key, holding, scope)?;
    }
    Ok(())
}

fn push_device(
    debts: &mut Vec<Debt>,
    key: &KeyId,
    holding: &[Scope],
    scope: &Scope,
) -> Result<(), Memory>
    requires { IsStrictlySortedBy scope_cmp holding.now }
    ensures { IfOk result (λ _. debts.new.items ≡ debts.old.items ++ unreached_by holding.now key.now scope.now) }
{
    match scope {
        Scope::Device(device) => {
            if !is_known_scope(holding, scope) {
                debts.push(Debt::Unreached(*key, *device))?;
            }
            Ok(())
        }
        _ => Ok(()),
    }
}
