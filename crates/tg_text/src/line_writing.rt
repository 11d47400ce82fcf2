//! Writers of lines that have a word and one field. Each appends its whole line, or nothing where memory is short.
ghost use Rattle.std.specs.Prelude.{◌≡◌, ◌++◌, ◌∷◌, [], List, ℕ, OnOk, OnErr};
ghost use Rattle.tg_text.specs.LineFields.{spell_field};
ghost use Rattle.tg_text.specs.Spelling.{line_of, spell_base64, spell_decimal, spell_hex};

use crate::bytes::Bytes;
use crate::memory::Memory;
use crate::writing::{write_base64, write_decimal, write_hex};

// What stands after the word.
#[derive(Clone, Copy, Debug)]
enum Field<'a> {
    Hex(&'a [u8]),
    Base64(&'a [u8]),
    Decimal(u64),
    Text(&'a [u8]),
}

/// Appends the line of a word and of bytes in lower-case hexadecimal digits.
pub fn write_hex_line(out: &mut Bytes, word: &[u8], bytes: &[u8]) -> Result<(), Memory>
    ensures ok { OnOk result (out.new ≡ out.old ++ line_of (word.now ∷ spell_hex bytes.now ∷ [])) }
    ensures err { OnErr result (out.new ≡ out.old) }
{
    write_line(out, word, Field::Hex(bytes))
}

/// Appends the line of a word and of bytes in base64.
pub fn write_base64_line(out: &mut Bytes, word: &[u8], bytes: &[u8]) -> Result<(), Memory>
    ensures ok { OnOk result (out.new ≡ out.old ++ line_of (word.now ∷ spell_base64 bytes.now ∷ [])) }
    ensures err { OnErr result (out.new ≡ out.old) }
{
    write_line(out, word, Field::Base64(bytes))
}

/// Appends the line of a word and of a number in decimal digits.
pub fn write_decimal_line(out: &mut Bytes, word: &[u8], number: u64) -> Result<(), Memory>
    ensures ok { OnOk result (out.new ≡ out.old ++ line_of (word.now ∷ spell_decimal number ∷ [])) }
    ensures err { OnErr result (out.new ≡ out.old) }
{
    write_line(out, word, Field::Decimal(number))
}

/// Appends the line of a word and of a text as it stands, which may have spaces.
pub fn write_text_line(out: &mut Bytes, word: &[u8], text: &[u8]) -> Result<(), Memory>
    ensures ok { OnOk result (out.new ≡ out.old ++ line_of (word.now ∷ text.now ∷ [])) }
    ensures err { OnErr result (out.new ≡ out.old) }
{
    write_line(out, word, Field::Text(text))
}

fn write_line(out: &mut Bytes, word: &[u8], field: Field) -> Result<(), Memory>
    ensures ok { OnOk result (out.new ≡ out.old ++ line_of (word.now ∷ spell_field field.entry ∷ [])) }
    ensures err { OnErr result (out.new ≡ out.old) }
{
    let before = out.len();
    let written = extend_line(out, word, field);
    out.keep_whole(before, written)
}

// As `write_line`, but some of the line stays where memory is short.
fn extend_line(out: &mut Bytes, word: &[u8], field: Field) -> Result<(), Memory>
    ensures ok { OnOk result (out.new ≡ out.old ++ line_of (word.now ∷ spell_field field.entry ∷ [])) }
    ensures err { OnErr result ((more : List ℕ) × (out.new ≡ out.old ++ more)) }
{
    out.append(word)?;
    out.append(b" ")?;
    write_field(out, field)?;
    out.append(b"\n")
}

fn write_field(out: &mut Bytes, field: Field) -> Result<(), Memory>
    ensures ok { OnOk result (out.new ≡ out.old ++ spell_field field.entry) }
    ensures err { OnErr result (out.new ≡ out.old) }
{
    match field {
        Field::Hex(bytes) => write_hex(out, bytes),
        Field::Base64(bytes) => write_base64(out, bytes),
        Field::Decimal(number) => write_decimal(out, number),
        Field::Text(text) => out.append(text),
    }
}
