ghost use Rattle.std.specs.Prelude.{◌≡◌, IfOk};
ghost use Rattle.acts.specs.ActText.{IsActInRange};

use acts::Act;
use std::alloc::Global;
use tg_text::{Bytes, Memory};

/// A copy of an act, by its text: each act has one of its own, and is read from it.
pub(crate) fn copy_act(alloc: Global, act: &Act) -> Result<Act, Memory>
    requires { IsActInRange act.now }
    ensures { IfOk result (λ it. it ≡ act.now) }
{
    let mut text = Bytes::new(alloc);
    act.write(&mut text)?;
    match Act::read(alloc, text.as_slice())? {
        Some(copy) => Ok(copy),
        None => unreachable!(),
    }
}
