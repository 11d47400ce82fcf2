//! The text of heads.
ghost use Rattle.std.specs.Prelude.{◌≡◌, ◌++◌, IfOk, OnOk, flat_map};
ghost use Rattle.team_report.specs.HeadsText.{head_line, heads_text};

use replica::Replica;
use std::alloc::Global;
use tg_text::{Bytes, LinkName, Memory, write_hex};

/// The text of heads: the name of each connected link that is no connected link's parent, in ascending order.
pub fn heads_text(alloc: Global, replica: &Replica) -> Result<Bytes, Memory>
    ensures { IfOk result (λ out. out ≡ heads_text replica.now.links) }
{
    let mut out = Bytes::new(alloc);
    write_heads(&mut out, replica.graph().heads())?;
    Ok(out)
}

fn write_heads(out: &mut Bytes, heads: &[LinkName]) -> Result<(), Memory>
    ensures { OnOk result (out.new ≡ out.old ++ flat_map head_line heads.now) }
{
    for name in heads {
        write_head(out, name)?;
    }
    Ok(())
}

fn write_head(out: &mut Bytes, name: &LinkName) -> Result<(), Memory>
    ensures { OnOk result (out.new ≡ out.old ++ head_line name.now) }
{
    write_hex(out, name.as_slice())?;
    out.append(b"\n")
}
