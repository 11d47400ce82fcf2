ghost use Rattle.std.specs.Prelude.{◌≡◌, ◌↔◌, IsTrue, ℕ, List, Some, length};
ghost use Rattle.tg_text.specs.Reading.{Reads};
ghost use Rattle.tg_text.specs.Spelling.{AreBytes, IsPublicKey, is_public_key, spell_base64};

use crate::names::PublicKey;
use crate::numbers::number_at;
use base64::engine::general_purpose::STANDARD;

impl PublicKey {
    /// The key that a text spells in base64. Its first two numbers have to be types of RFC 8554 section 8.
    /// It takes no memory.
    pub fn read(text: &[u8]) -> Option<PublicKey>
        ensures { Reads IsPublicKey spell_base64 text.now result }
    {
        let key = PublicKey(parse_key(text)?);
        if is_public_key(&key) && is_spelled(key.as_slice(), text) {
            Some(key)
        } else {
            None
        }
    }
}

// 56 bytes in base64, in any form.
fn parse_key(text: &[u8]) -> Option<[u8; 56]>
    ensures { (x : List ℕ) → length x ≡ 56 → AreBytes x → text.now ≡ spell_base64 x → result ≡ Some x }
{
    let mut bytes = [0; 56];
    match STANDARD.decode_slice(text, &mut bytes) {
        Ok(_) => Some(bytes),
        Err(_) => None,
    }
}

// Whether a text is the base64 of the 56 bytes of a key.
fn is_spelled(key: &[u8], text: &[u8]) -> bool
    requires { length key.now ≡ 56 }
    ensures { IsTrue result ↔ (text.now ≡ spell_base64 key.now) }
{
    let mut again = [0; 76];
    STANDARD.encode_slice(key, &mut again).is_ok() && again.as_slice() == text
}

// Whether the types at its head are among those that a key may have.
fn is_public_key(key: &PublicKey) -> bool
    ensures { result ≡ is_public_key key.now }
{
    let lms = number_at(key.as_slice(), 0);
    let ots = number_at(key.as_slice(), 4);
    5 <= lms && lms <= 9 && 1 <= ots && ots <= 4
}
