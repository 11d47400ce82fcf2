//! The turn of a leaf to sign, which comes once the key file bears the leaf after.
ghost use Rattle.std.specs.Prelude.{◌≡◌, ◌⊎◌, Some, Err, OnOk, IfOk, IfSome};
ghost use Rattle.std.specs.FinMap as map;
ghost use Rattle.tg_outside.specs.Causes.{HasCauseOrMemory};

use std::alloc::Global;
use tg_outside::{Fault, Files};

/// A leaf that may sign now. `advance` alone makes one, so that no leaf signs before its key file was replaced.
#[derive(Drop)]
pub(crate) struct Turn {
    leaf: u32,
}

impl Turn {
    /// The leaf, whose turn is over with this.
    pub(crate) fn take(self) -> u32
        ensures { result ≡ self.leaf }
    {
        self.leaf
    }
}

/// Puts the text that bears the leaf after in the place of the key file; then it is the leaf's turn.
pub(crate) fn advance<F: Files>(
    alloc: Global,
    files: &mut F,
    name: &str,
    text: &[u8],
    leaf: u32,
) -> Result<Turn, Fault>
    ensures leaf { IfOk result (λ turn. turn.leaf ≡ leaf) }
    ensures replaced { IfSome (F.files files.old) (λ m. OnOk result (F.files files.new ≡ Some (map.insert m name.now text.now))) }
    ensures either { IfSome (F.files files.old) (λ m. (F.files files.new ≡ F.files files.old) ⊎ (F.files files.new ≡ Some (map.insert m name.now text.now))) }
    ensures memory { result ≡ Err Fault.Memory → F.files files.new ≡ F.files files.old }
    ensures cause { HasCauseOrMemory (F.faults files.old) (F.faults files.new) result }
{
    match files.replace(alloc, name, text) {
        Ok(()) => Ok(Turn { leaf }),
        Err(fault) => Err(fault),
    }
}
