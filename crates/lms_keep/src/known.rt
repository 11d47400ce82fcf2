ghost use Rattle.std.specs.Prelude.{◌≡◌, Some, None, IfOk, IfSome, IsTrue};
ghost use Rattle.std.specs.FinMap as map;
ghost use Rattle.tg_outside.specs.Causes.{HasCauseOrMemory};
ghost use Rattle.lms_tree.specs.Verifying.{verifies};
ghost use Rattle.lms_keep.specs.KeyText.{IsKeyState, key_text};
ghost use Rattle.lms_keep.specs.Signing.{NoneCanSign, SignsFor};
ghost use Rattle.lms_keep.specs.declared.key_state.KeyState.{KeyState};

use crate::fault::SignFault;
use crate::signing::sign_next;
use std::alloc::Global;
use tg_outside::{Fault, Files};
use tg_text::{Bytes, PublicKey};

/// Signs with the key file as `sign_next` does, for a caller who read it before and knows its public key. It answers `None` where
/// the file bears another key now, or none that can sign. A file without a key that has a leaf left stays as it is.
pub fn sign_known<F: Files>(
    alloc: Global,
    files: &mut F,
    name: &str,
    key: &PublicKey,
    message: &[u8],
) -> Result<Option<Bytes>, Fault>
    ensures signs { (s : KeyState) → IsKeyState s → IfSome (F.files files.old) (λ m. map.get m name.now ≡ Some (key_text s)
        → SignsFor m name.now key.now s message.now (F.files files.new) result) }
    ensures stays { IfSome (F.files files.old) (λ m. NoneCanSign m name.now → (F.files files.new ≡ Some m) × IfOk result (λ found. found ≡ None)) }
    ensures verifies { IfOk result (λ found. IfSome found (λ signature. IsTrue (verifies key.now message.now signature))) }
    ensures cause { HasCauseOrMemory (F.faults files.old) (F.faults files.new) result }
{
    match sign_next(alloc, files, name, message) {
        Ok(signed) => {
            if signed.key == *key {
                Ok(Some(signed.signature))
            } else {
                Ok(None)
            }
        }
        Err(SignFault::ReadFault) => Err(Fault::Failed),
        Err(SignFault::WriteFault) => Err(Fault::Failed),
        Err(SignFault::Memory) => Err(Fault::Memory),
        Err(SignFault::NoFile) => Ok(None),
        Err(SignFault::BadKeyFile) => Ok(None),
        Err(SignFault::Spent) => Ok(None),
    }
}
