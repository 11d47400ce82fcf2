ghost use Rattle.std.specs.Prelude.{◌≡◌, take, IfOk, IsTrue};
ghost use Rattle.tg_outside.specs.Causes.{HasCause};
ghost use Rattle.tg_text.specs.Spelling.{is_user_name};
ghost use Rattle.lms_keep.specs.KeyText.{IsId, IsKeyState};
ghost use Rattle.lms_keep.specs.Making.{MakesKey};

use crate::key_state::KeyState;
use tg_outside::{Entropy, MakeFault};
use tg_text::UserName;

/// A new key of a user's, with 1,024 leaves of which none has signed. It draws three words: the first 16 bytes of the first
/// are the identifier I of RFC 8554, the second is the seed, and the third the sealing secret.
pub fn make_key<E: Entropy>(entropy: &mut E, user: UserName) -> Result<KeyState, MakeFault>
    ensures made { MakesKey (E.left entropy.old) (E.left entropy.new) user result }
    ensures range { IsTrue (is_user_name user) → IfOk result (λ s. IsKeyState s) }
    ensures cause { HasCause (E.faults entropy.old) (E.faults entropy.new) result }
{
    let Ok(first) = entropy.draw() else {
        return Err(MakeFault::EntropyFault);
    };
    let Ok(seed) = entropy.draw() else {
        return Err(MakeFault::EntropyFault);
    };
    let Ok(secret) = entropy.draw() else {
        return Err(MakeFault::EntropyFault);
    };
    Ok(KeyState {
        user,
        lms: 6,
        ots: 3,
        id: id_of(&first),
        seed,
        secret,
        next: 0,
    })
}

// The first half of a word.
fn id_of(word: &[u8; 32]) -> [u8; 16]
    ensures front { result ≡ take 16 word.now }
    ensures range { IsId result }
{
    let mut id = [0; 16];
    id.copy_from_slice(word.split_at(16).0);
    id
}
