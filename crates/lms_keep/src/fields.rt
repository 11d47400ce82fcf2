//! Readers of the fields that key files alone have.
ghost use Rattle.std.specs.Prelude.{◌≡◌, ◌≤◌, ℕ, List, Some};
ghost use Rattle.tg_text.specs.Reading.{Reads};
ghost use Rattle.tg_text.specs.Spelling.{spell_decimal, spell_hex};
ghost use Rattle.lms_keep.specs.KeyText.{AreKinds, IsId, kinds_field};

use tg_text::{read_decimal, split_once};

/// A number within bounds, in decimal digits.
pub(crate) fn read_within(text: &[u8], low: u32, high: u32) -> Option<u32>
    ensures { Reads (λ n. (low ≤ n) × (n ≤ high)) spell_decimal text.now result }
{
    let number = read_decimal(text)?;
    if u64::from(low) <= number && number <= u64::from(high) {
        Some(number as u32)
    } else {
        None
    }
}

/// The two type numbers of a key, with a space between them.
pub(crate) fn read_kinds(text: &[u8]) -> Option<(u32, u32)>
    ensures { Reads (λ kinds. AreKinds kinds.0 kinds.1) (λ kinds. kinds_field kinds.0 kinds.1) text.now result }
{
    let (lms, ots) = split_once(text, b' ')?;
    let lms = read_within(lms, 5, 7)?;
    let ots = read_within(ots, 1, 4)?;
    Some((lms, ots))
}

/// 16 bytes in lower-case hexadecimal digits.
pub(crate) fn read_id(text: &[u8]) -> Option<[u8; 16]>
    ensures { Reads IsId spell_hex text.now result }
{
    match parse_id(text) {
        Some(bytes) => {
            let mut again = [0; 32];
            if hex::encode_to_slice(&bytes, &mut again).is_ok() && again.as_slice() == text {
                Some(bytes)
            } else {
                None
            }
        }
        None => None,
    }
}

// 16 bytes in hexadecimal digits, in any form.
fn parse_id(text: &[u8]) -> Option<[u8; 16]>
    ensures { (x : List ℕ) → IsId x → text.now ≡ spell_hex x → result ≡ Some x }
{
    let mut bytes = [0; 16];
    match hex::decode_to_slice(text, &mut bytes) {
        Ok(()) => Some(bytes),
        Err(_) => None,
    }
}
