//! The lines of a key file, one reader each. A reader takes its line off the front of the text, and leaves the rest.
ghost use Rattle.std.specs.Prelude.{◌≤◌, ◌∷◌, [], IsTrue};
ghost use Rattle.tg_text.specs.Reading.{Takes};
ghost use Rattle.tg_text.specs.Spelling.{IsHash, is_user_name, line_of, spell_hex};
ghost use Rattle.lms_keep.specs.KeyText.{AreKinds, IsId, user_line, kinds_line, id_line, next_line};

use crate::fields::{read_id, read_kinds, read_within};
use tg_text::{Lines, UserName, read_hex32};

pub(crate) fn next_user(lines: &mut Lines) -> Option<UserName>
    ensures { Takes (λ user. IsTrue (is_user_name user)) user_line lines.old lines.new result }
{
    let field = lines.take_field(b"user")?;
    UserName::read(field)
}

pub(crate) fn next_kinds(lines: &mut Lines) -> Option<(u32, u32)>
    ensures { Takes (λ kinds. AreKinds kinds.0 kinds.1) (λ kinds. kinds_line kinds.0 kinds.1) lines.old lines.new result }
{
    let field = lines.take_field(b"kinds")?;
    read_kinds(field)
}

pub(crate) fn next_id(lines: &mut Lines) -> Option<[u8; 16]>
    ensures { Takes IsId id_line lines.old lines.new result }
{
    let field = lines.take_field(b"id")?;
    read_id(field)
}

// The line of a word and 32 bytes.
pub(crate) fn next_hash(lines: &mut Lines, word: &[u8]) -> Option<[u8; 32]>
    ensures { Takes IsHash (λ hash. line_of (word.now ∷ spell_hex hash ∷ [])) lines.old lines.new result }
{
    let field = lines.take_field(word)?;
    read_hex32(field)
}

pub(crate) fn next_leaf(lines: &mut Lines, leaves: u32) -> Option<u32>
    ensures { Takes (λ n. (0 ≤ n) × (n ≤ leaves)) next_line lines.old lines.new result }
{
    let field = lines.take_field(b"next")?;
    read_within(field, 0, leaves)
}
