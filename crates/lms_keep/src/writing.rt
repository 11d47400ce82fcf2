//! The one line of a key file that has two fields after its word.
ghost use Rattle.std.specs.Prelude.{◌≡◌, ◌++◌, OnOk};
ghost use Rattle.lms_keep.specs.KeyText.{kinds_line};

use tg_text::{Bytes, Memory, write_decimal};

pub(crate) fn write_kinds(out: &mut Bytes, lms: u32, ots: u32) -> Result<(), Memory>
    ensures { OnOk result (out.new ≡ out.old ++ kinds_line lms ots) }
{
    out.append(b"kinds ")?;
    write_decimal(out, u64::from(lms))?;
    out.append(b" ")?;
    write_decimal(out, u64::from(ots))?;
    out.append(b"\n")
}
