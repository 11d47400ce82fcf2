ghost use Rattle.std.specs.Prelude.{◌≡◌, IfOk, IfSome};
ghost use Rattle.lms_keep.specs.KeyText.{IsKeyState};
ghost use Rattle.outcomes.specs.Ending.{HasCauseOrStop};
ghost use Rattle.outcomes.specs.Refusing.{IsFound, RefusesWith};
ghost use Rattle.openers.specs.Key.{FindsKey};

use lms_keep::KeyState;
use outcomes::{FileWord, Stop, refuse_file};
use std::alloc::Global;
use tg_outside::Files;

/// Opens a key file. Whether a leaf is left isn't asked.
pub fn open_key<F: Files>(alloc: Global, files: &mut F, name: &str) -> Result<KeyState, Stop>
    ensures opened { IfSome (F.files files.old) (λ m. IsFound FindsKey m name.now result) }
    ensures range { IfOk result (λ s. IsKeyState s) }
    ensures same { F.files files.new ≡ F.files files.old }
    ensures refused { RefusesWith 3 result }
    ensures cause { HasCauseOrStop (F.faults files.old) (F.faults files.new) result }
{
    let Some(bytes) = files.read(alloc, name)? else {
        return Err(refuse_file(alloc, name, FileWord::NoFile));
    };
    match KeyState::read(bytes.as_slice()) {
        Some(state) => Ok(state),
        None => Err(refuse_file(alloc, name, FileWord::BadKeyFile)),
    }
}
