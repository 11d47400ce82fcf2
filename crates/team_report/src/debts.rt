ghost use Rattle.std.specs.Prelude.{◌≡◌, ◌++◌, OnOk, flat_map};
ghost use Rattle.key_reach.specs.declared.debt.Debt.TheVariants.{NoKey, Tainted, Unreached};
ghost use Rattle.team_model.specs.ShowText.{debt_line, debt_lines};

use key_reach::{Debt, debts};
use replica::TeamState;
use std::alloc::Global;
use tg_text::{Bytes, DeviceId, KeyId, Memory, Scope, write_hex, write_key_id, write_scope};

/// A line for each debt of the team, in their order.
pub(crate) fn write_debts(alloc: Global, out: &mut Bytes, state: &TeamState) -> Result<(), Memory>
    ensures { OnOk result (out.new ≡ out.old ++ debt_lines state.now) }
{
    let debts = debts(alloc, state)?;
    write_all(out, debts.as_slice())
}

fn write_all(out: &mut Bytes, debts: &[Debt]) -> Result<(), Memory>
    ensures { OnOk result (out.new ≡ out.old ++ flat_map debt_line debts.now) }
{
    for debt in debts {
        write_debt(out, debt)?;
    }
    Ok(())
}

fn write_debt(out: &mut Bytes, debt: &Debt) -> Result<(), Memory>
    ensures { OnOk result (out.new ≡ out.old ++ debt_line debt.now) }
{
    match debt {
        Debt::NoKey(scope) => write_no_key(out, scope),
        Debt::Tainted(key) => write_tainted(out, key),
        Debt::Unreached(key, device) => write_unreached(out, key, device),
    }
}

fn write_no_key(out: &mut Bytes, scope: &Scope) -> Result<(), Memory>
    ensures { OnOk result (out.new ≡ out.old ++ debt_line (NoKey scope.now)) }
{
    out.append(b"debt none ")?;
    write_scope(out, scope)?;
    out.append(b"\n")
}

fn write_tainted(out: &mut Bytes, key: &KeyId) -> Result<(), Memory>
    ensures { OnOk result (out.new ≡ out.old ++ debt_line (Tainted key.now)) }
{
    out.append(b"debt tainted ")?;
    write_key_id(out, key)?;
    out.append(b"\n")
}

fn write_unreached(out: &mut Bytes, key: &KeyId, device: &DeviceId) -> Result<(), Memory>
    ensures { OnOk result (out.new ≡ out.old ++ debt_line (Unreached key.now device.now)) }
{
    out.append(b"debt ")?;
    out.append(b"unreached ")?;
    write_key_id(out, key)?;
    out.append(b" ")?;
    write_hex(out, device.as_slice())?;
    out.append(b"\n")
}
