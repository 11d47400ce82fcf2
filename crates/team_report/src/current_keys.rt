ghost use Rattle.std.specs.Prelude.{◌≡◌, ◌++◌, not, IfOk, OnOk, filter, flat_map};
ghost use Rattle.key_reach.specs.Keys.{is_device};
ghost use Rattle.team_model.specs.ShowText.{current_key_line, current_key_lines};

use key_reach::{current_keys, is_device};
use replica::TeamState;
use std::alloc::Global;
use tg_text::{Bytes, KeyId, Memory, write_key_id};

/// A line for each live scope's current key, in the order of scopes. Devices' keys aren't shown.
pub(crate) fn write_current_keys(
    alloc: Global,
    out: &mut Bytes,
    state: &TeamState,
) -> Result<(), Memory>
    ensures { OnOk result (out.new ≡ out.old ++ current_key_lines state.now) }
{
    let keys = current_keys(alloc, state)?;
    let keys = without_devices(alloc, keys.as_slice())?;
    write_all(out, keys.as_slice())
}

fn without_devices(alloc: Global, keys: &[KeyId]) -> Result<Vec<KeyId>, Memory>
    ensures { IfOk result (λ kept. kept.items ≡ filter (λ k. not (is_device k.scope)) keys.now) }
{
    let mut kept = Vec::new(alloc);
    for key in keys {
        if !is_device(&key.scope) {
            kept.push(*key)?;
        }
    }
    Ok(kept)
}

fn write_all(out: &mut Bytes, keys: &[KeyId]) -> Result<(), Memory>
    ensures { OnOk result (out.new ≡ out.old ++ flat_map current_key_line keys.now) }
{
    for key in keys {
        write_key(out, key)?;
    }
    Ok(())
}

fn write_key(out: &mut Bytes, key: &KeyId) -> Result<(), Memory>
    ensures { OnOk result (out.new ≡ out.old ++ current_key_line key.now) }
{
    out.append(b"key ")?;
    write_key_id(out, key)?;
    out.append(b"\n")
}
