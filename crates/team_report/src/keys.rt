//! The text of keys.
ghost use Rattle.std.specs.Prelude.{◌≡◌, ◌++◌, [], IfOk, OnOk, flat_map, map};
ghost use Rattle.std.specs.Ordering.{eq_by_cmp};
ghost use Rattle.key_reach.specs.Keys.{same_key};
ghost use Rattle.team_report.specs.KeysText.{key_line, keys_text, with_all, with_one};

use indexmap::IndexSet;
use lockboxes::Opened;
use std::alloc::Global;
use std::hash::Hash;
use tg_text::{Bytes, KeyId, Memory, write_key_id};

/// The text of keys: the id of each key that was opened, each once, where it stands first.
pub fn keys_text(alloc: Global, opened: &[Opened]) -> Result<Bytes, Memory>
    ensures { IfOk result (λ out. out ≡ keys_text opened.now) }
{
    let all = list_keys(alloc, opened)?;
    let keys = keys_once(alloc, all.as_slice())?;
    let mut out = Bytes::new(alloc);
    write_keys(&mut out, keys.as_slice())?;
    Ok(out)
}

fn list_keys(alloc: Global, opened: &[Opened]) -> Result<Vec<KeyId>, Memory>
    ensures { IfOk result (λ keys. keys.items ≡ map (λ o. o.key) opened.now) }
{
    let mut keys = Vec::new(alloc);
    for pair in opened {
        keys.push(pair.key)?;
    }
    Ok(keys)
}

fn keys_once(alloc: Global, keys: &[KeyId]) -> Result<Vec<KeyId>, Memory>
    ensures { IfOk result (λ list. list.items ≡ with_all same_key [] keys.now) }
{
    each_once(alloc, keys)
}

// The members of a list, each once, where it stands first.
fn each_once<T: Ord + Hash + Copy>(alloc: Global, members: &[T]) -> Result<Vec<T>, Memory>
    ensures { IfOk result (λ list. list.items ≡ with_all (eq_by_cmp T.cmp) [] members.now) }
{
    let mut list = IndexSet::new(alloc);
    for member in members {
        add(&mut list, *member)?;
    }
    Ok(Vec::from_slice(alloc, list.as_slice())?)
}

// Adds a value after the others, where it isn't among them.
fn add<T: Ord + Hash + Drop>(values: &mut IndexSet<T>, value: T) -> Result<(), Memory>
    ensures { OnOk result (values.new.keys ≡ with_one (eq_by_cmp T.cmp) values.old.keys value) }
{
    values.insert(value)?;
    Ok(())
}

fn write_keys(out: &mut Bytes, keys: &[KeyId]) -> Result<(), Memory>
    ensures { OnOk result (out.new ≡ out.old ++ flat_map key_line keys.now) }
{
    for key in keys {
        write_key(out, key)?;
    }
    Ok(())
}

fn write_key(out: &mut Bytes, key: &KeyId) -> Result<(), Memory>
    ensures { OnOk result (out.new ≡ out.old ++ key_line key.now) }
{
    write_key_id(out, key)?;
    out.append(b"\n")
}
