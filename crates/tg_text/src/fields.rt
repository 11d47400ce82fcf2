//! Readers of numbers and bytes. Each reads leniently, spells what it read again, and compares.
ghost use Rattle.std.specs.Prelude.{◌≡◌, ◌<◌, ◌^◌, ℕ, List, Some, IfOk};
ghost use Rattle.tg_text.specs.Reading.{Reads};
ghost use Rattle.tg_text.specs.Spelling.{AreBytes, IsHash, spell_decimal, spell_hex, spell_base64};

use crate::bytes::Bytes;
use crate::memory::Memory;
use base64::DecodeAllocError;
use base64::engine::general_purpose::STANDARD;
use itoa::Buffer;
use std::alloc::Global;
use std::str;

/// A number in decimal digits, without a sign or a leading zero. It takes no memory.
pub fn read_decimal(text: &[u8]) -> Option<u64>
    ensures { Reads (λ n. n < 2 ^ 64) spell_decimal text.now result }
{
    match parse_decimal(text) {
        Some(number) => {
            let mut buffer = Buffer::new();
            if buffer.format(number).as_bytes() == text {
                Some(number)
            } else {
                None
            }
        }
        None => None,
    }
}

// A number in decimal digits, in any form.
fn parse_decimal(text: &[u8]) -> Option<u64>
    ensures { (n : ℕ) → n < 2 ^ 64 → text.now ≡ spell_decimal n → result ≡ Some n }
{
    match str::from_utf8(text) {
        Ok(text) => text.parse::<u64>().ok(),
        Err(_) => None,
    }
}

/// 32 bytes in lower-case hexadecimal digits. It takes no memory.
pub fn read_hex32(text: &[u8]) -> Option<[u8; 32]>
    ensures { Reads IsHash spell_hex text.now result }
{
    match parse_hex32(text) {
        Some(bytes) => {
            let mut again = [0; 64];
            if hex::encode_to_slice(&bytes, &mut again).is_ok() && again.as_slice() == text {
                Some(bytes)
            } else {
                None
            }
        }
        None => None,
    }
}

// 32 bytes in hexadecimal digits, in any form.
fn parse_hex32(text: &[u8]) -> Option<[u8; 32]>
    ensures { (x : List ℕ) → IsHash x → text.now ≡ spell_hex x → result ≡ Some x }
{
    let mut bytes = [0; 32];
    match hex::decode_to_slice(text, &mut bytes) {
        Ok(()) => Some(bytes),
        Err(_) => None,
    }
}

/// Bytes in canonical base64: with padding, without breaks, the unused bits zero. The empty text is that of no bytes.
pub fn read_base64(alloc: Global, text: &[u8]) -> Result<Option<Bytes>, Memory>
    ensures { IfOk result (λ found. Reads AreBytes spell_base64 text.now found) }
{
    match STANDARD.decode(alloc, text) {
        Ok(bytes) => Ok(Some(Bytes::from_vec(bytes))),
        Err(DecodeAllocError::OutOfMemory) => Err(Memory),
        Err(DecodeAllocError::DecodeError(_)) => Ok(None),
    }
}
