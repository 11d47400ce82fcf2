//! The lines of token files and proof files, one reader each. A reader takes its line off the front of the text, and leaves the rest.
ghost use Rattle.std.specs.Prelude.{◌≡◌, ◌∷◌, [], IfOk, IsTrue};
ghost use Rattle.tg_text.specs.Reading.{Reads, Takes};
ghost use Rattle.tg_text.specs.Spelling.{AreBytes, IsHash, IsPublicKey, is_user_name, line_of, spell_base64, spell_decimal, spell_hex};
ghost use Rattle.invitations.specs.FileLines.{team_line, kind_line, user_field, user_line, key_line, leaf_line, sign_line};
ghost use Rattle.invitations.specs.Parts.{IsKind, IsLeaf, IsUserIfAny, user_if_any_line};
ghost use Rattle.invitations.specs.TokenText.{IsInvitation};

use crate::kind::read_kind;
use acts::InviteKind;
use std::alloc::Global;
use tg_text::{
    Bytes, Lines, LinkName, Memory, PublicKey, UserName, number_at, read_base64, read_decimal,
    read_hex32,
};

// The line of a word and 32 bytes.
pub(crate) fn next_hash(lines: &mut Lines, word: &[u8]) -> Option<[u8; 32]>
    ensures { Takes IsHash (λ hash. line_of (word.now ∷ spell_hex hash ∷ [])) lines.old lines.new result }
{
    let field = lines.take_field(word)?;
    read_hex32(field)
}

pub(crate) fn next_team(lines: &mut Lines) -> Option<LinkName>
    ensures { Takes IsHash team_line lines.old lines.new result }
{
    let team = next_hash(lines, b"team")?;
    Some(LinkName(team))
}

pub(crate) fn next_kind(lines: &mut Lines) -> Option<InviteKind>
    ensures { Takes IsKind kind_line lines.old lines.new result }
{
    let field = lines.take_field(b"kind")?;
    read_kind(field)
}

pub(crate) fn next_user(lines: &mut Lines) -> Option<UserName>
    ensures { Takes (λ user. IsTrue (is_user_name user)) user_line lines.old lines.new result }
{
    let field = lines.take_field(b"user")?;
    UserName::read(field)
}

pub(crate) fn next_user_if_any(lines: &mut Lines) -> Option<Option<UserName>>
    ensures { Takes IsUserIfAny user_if_any_line lines.old lines.new result }
{
    let field = lines.take_field(b"user")?;
    read_user_if_any(field)
}

// A name, or a hyphen for none.
fn read_user_if_any(text: &[u8]) -> Option<Option<UserName>>
    ensures { Reads IsUserIfAny user_field text.now result }
{
    if text == b"-".as_slice() {
        return Some(None);
    }
    let user = UserName::read(text)?;
    Some(Some(user))
}

// The line of a word and a public key of any type.
pub(crate) fn next_key(lines: &mut Lines, word: &[u8]) -> Option<PublicKey>
    ensures { Takes IsPublicKey (λ key. line_of (word.now ∷ spell_base64 key ∷ [])) lines.old lines.new result }
{
    let field = lines.take_field(word)?;
    PublicKey::read(field)
}

pub(crate) fn next_invitation(lines: &mut Lines) -> Option<PublicKey>
    ensures { Takes IsInvitation key_line lines.old lines.new result }
{
    let field = lines.take_field(b"key")?;
    read_invitation(field)
}

// A public key of the types that an invitation has.
fn read_invitation(text: &[u8]) -> Option<PublicKey>
    ensures { Reads IsInvitation spell_base64 text.now result }
{
    let key = PublicKey::read(text)?;
    if number_at(key.as_slice(), 0) == 5 && number_at(key.as_slice(), 4) == 3 {
        Some(key)
    } else {
        None
    }
}

pub(crate) fn next_leaf(lines: &mut Lines) -> Option<u32>
    ensures { Takes IsLeaf leaf_line lines.old lines.new result }
{
    let field = lines.take_field(b"leaf")?;
    read_leaf(field)
}

fn read_leaf(text: &[u8]) -> Option<u32>
    ensures { Reads IsLeaf spell_decimal text.now result }
{
    let leaf = read_decimal(text)?;
    if leaf < 32 { Some(leaf as u32) } else { None }
}

pub(crate) fn next_signature(alloc: Global, lines: &mut Lines) -> Result<Option<Bytes>, Memory>
    ensures { IfOk result (λ found. Takes AreBytes sign_line lines.old lines.new found) }
{
    let Some(field) = lines.take_field(b"sign") else {
        return Ok(None);
    };
    read_base64(alloc, field)
}
