ghost use Rattle.std.specs.Prelude.{◌≡◌, not, ◌&&◌, ◌++◌, map, filter, IfOk};
ghost use Rattle.tg_text.specs.Order.{key_cmp};
ghost use Rattle.key_reach.specs.Lists.{IsListOf};
ghost use Rattle.key_reach.specs.Keys as words;

use crate::box_graphs::{box_graph, keys_from};
use crate::numbers::NumberSet;
use crate::table::KeyTable;
use std::alloc::Global;
use tg_text::{BoxLine, KeyId, Memory, Scope};

/// The keys that these keys reach, themselves included, in order: whoever holds their secrets can open them by the boxes.
pub fn reach(alloc: Global, boxes: &[BoxLine], from: &[KeyId]) -> Result<Vec<KeyId>, Memory>
    ensures { IfOk result (λ keys. IsListOf key_cmp (words.reach boxes.now from.now) keys.items) }
{
    if from.is_empty() {
        return Ok(Vec::new(alloc));
    }
    let graph = box_graph(alloc, boxes, from)?;
    let mut reached = NumberSet::new(alloc, graph.nodes.as_slice().len())?;
    keys_from(alloc, &graph, &mut reached, from)
}

/// The keys that someone may have who is not to have them, in order.
pub fn tainted<V: KeyTable>(alloc: Global, view: &V) -> Result<Vec<KeyId>, Memory>
    ensures { IfOk result (λ keys. IsListOf key_cmp (words.tainted (V.table view.now)) keys.items) }
{
    let leaked = leaked(alloc, view)?;
    reach(alloc, view.boxes(), leaked.as_slice())
}

// The keys of devices that were listed and aren't, and the contents of boxes that nobody may seal so now.
fn leaked<V: KeyTable>(alloc: Global, view: &V) -> Result<Vec<KeyId>, Memory>
    ensures { IfOk result (λ keys. keys.items ≡ words.leaked (V.table view.now)) }
{
    let mut leaked = Vec::new(alloc);
    push_unlisted(&mut leaked, view)?;
    push_unlawful(&mut leaked, view)?;
    Ok(leaked)
}

fn push_unlisted<V: KeyTable>(leaked: &mut Vec<KeyId>, view: &V) -> Result<(), Memory>
    ensures { IfOk result (λ _. leaked.new.items ≡ leaked.old.items ++ filter (λ k. words.is_device k.scope && not (words.is_live (V.table view.now) k.scope)) (V.table view.now).currents) }
{
    for key in view.currents() {
        if is_device(&key.scope) && !view.live(&key.scope) {
            leaked.push(*key)?;
        }
    }
    Ok(())
}

fn push_unlawful<V: KeyTable>(leaked: &mut Vec<KeyId>, view: &V) -> Result<(), Memory>
    ensures { IfOk result (λ _. leaked.new.items ≡ leaked.old.items ++ map (λ b. b.of) (filter (λ b. not ((V.table view.now).allowed b.to.scope b.of.scope)) (V.table view.now).boxes)) }
{
    for line in view.boxes() {
        if !view.allowed(&line.to.scope, &line.of.scope) {
            leaked.push(line.of)?;
        }
    }
    Ok(())
}

/// Whether a scope is a device's.
pub fn is_device(scope: &Scope) -> bool
    ensures { result ≡ words.is_device scope.now }
{
    matches!(scope, Scope::Device(_))
}
