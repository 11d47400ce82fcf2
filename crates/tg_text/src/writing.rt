//! Writers of numbers and bytes. Each appends in one pass, and takes back what it wrote where memory is short.
ghost use Rattle.std.specs.Prelude.{◌≡◌, ◌++◌, ◌∷◌, [], ◌≤◌, List, ℕ, length, OnOk, OnErr};
ghost use Rattle.tg_text.specs.Spelling.{spell_decimal, spell_hex, spell_base64};

use crate::bytes::Bytes;
use crate::memory::Memory;
use base64::engine::general_purpose::STANDARD;
use itoa::Buffer;

// How many bytes of base64 are spelled at a time, a multiple of 3, and how many digits they have.
const PIECE: usize = 768;

const DIGITS: usize = 1024;

/// Appends a number in decimal digits.
pub fn write_decimal(out: &mut Bytes, n: u64) -> Result<(), Memory>
    ensures ok { OnOk result (out.new ≡ out.old ++ spell_decimal n) }
    ensures err { OnErr result (out.new ≡ out.old) }
{
    let mut buffer = Buffer::new();
    out.append(buffer.format(n).as_bytes())
}

/// Appends bytes in lower-case hexadecimal digits.
pub fn write_hex(out: &mut Bytes, bytes: &[u8]) -> Result<(), Memory>
    ensures ok { OnOk result (out.new ≡ out.old ++ spell_hex bytes.now) }
    ensures err { OnErr result (out.new ≡ out.old) }
{
    let before = out.len();
    let written = extend_hex(out, bytes);
    out.keep_whole(before, written)
}

// As `write_hex`, but some of the digits stay where memory is short.
fn extend_hex(out: &mut Bytes, bytes: &[u8]) -> Result<(), Memory>
    ensures ok { OnOk result (out.new ≡ out.old ++ spell_hex bytes.now) }
    ensures err { OnErr result ((more : List ℕ) × (out.new ≡ out.old ++ more)) }
{
    for byte in bytes {
        append_byte(out, *byte)?;
    }
    Ok(())
}

// Appends the two digits of a byte.
fn append_byte(out: &mut Bytes, byte: u8) -> Result<(), Memory>
    ensures ok { OnOk result (out.new ≡ out.old ++ spell_hex (byte ∷ [])) }
    ensures err { OnErr result (out.new ≡ out.old) }
{
    let mut digits = [0; 2];
    match hex::encode_to_slice(&[byte], &mut digits) {
        Ok(()) => out.append(&digits),
        Err(_) => Err(Memory),
    }
}

/// Appends bytes in base64, with padding.
pub fn write_base64(out: &mut Bytes, bytes: &[u8]) -> Result<(), Memory>
    ensures ok { OnOk result (out.new ≡ out.old ++ spell_base64 bytes.now) }
    ensures err { OnErr result (out.new ≡ out.old) }
{
    let before = out.len();
    let written = extend_base64(out, bytes);
    out.keep_whole(before, written)
}

// As `write_base64`, but some of the text stays where memory is short.
fn extend_base64(out: &mut Bytes, bytes: &[u8]) -> Result<(), Memory>
    ensures ok { OnOk result (out.new ≡ out.old ++ spell_base64 bytes.now) }
    ensures err { OnErr result ((more : List ℕ) × (out.new ≡ out.old ++ more)) }
{
    let mut rest = bytes;
    while rest.len() > PIECE {
        let (piece, after) = rest.split_at(PIECE);
        append_piece(out, piece)?;
        rest = after;
    }
    append_piece(out, rest)
}

// Appends the base64 of a piece.
fn append_piece(out: &mut Bytes, piece: &[u8]) -> Result<(), Memory>
    requires { length piece.now ≤ 768 }
    ensures ok { OnOk result (out.new ≡ out.old ++ spell_base64 piece.now) }
    ensures err { OnErr result (out.new ≡ out.old) }
{
    let mut text = [0; DIGITS];
    match STANDARD.encode_slice(piece, &mut text) {
        Ok(len) => out.append(&text[..len]),
        Err(_) => Err(Memory),
    }
}
