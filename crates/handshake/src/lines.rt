//! The lines of a message, one reader each. A reader takes its line off the front of the text, and leaves the rest.
ghost use Rattle.std.specs.Prelude.{◌≡◌, ◌∷◌, [], IsTrue, IfOk};
ghost use Rattle.tg_text.specs.Reading.{Reads, Takes};
ghost use Rattle.tg_text.specs.Spelling.{AreBytes, IsHash, IsPublicKey, is_user_name, line_of, spell_hex};
ghost use Rattle.handshake.specs.Messages.{IsNamed, fault_line, key_line, kind_line, kind_word, sign_line, spell_fault, user_line};

use crate::fault::GreetFault;
use crate::message::Kind;
use std::alloc::Global;
use tg_text::{Bytes, Lines, Memory, PublicKey, UserName, read_base64, read_hex32};

pub(crate) fn next_kind(lines: &mut Lines) -> Option<Kind>
    ensures { Takes (λ _. Unit {0}) kind_line lines.old lines.new result }
{
    let field = lines.take_field(b"team-greet 1")?;
    read_kind(field)
}

fn read_kind(text: &[u8]) -> Option<Kind>
    ensures { Reads (λ _. Unit {0}) kind_word text.now result }
{
    if text == b"claim".as_slice() {
        Some(Kind::Claim)
    } else if text == b"proof".as_slice() {
        Some(Kind::Proof)
    } else if text == b"welcome".as_slice() {
        Some(Kind::Welcome)
    } else if text == b"refuse".as_slice() {
        Some(Kind::Refuse)
    } else {
        None
    }
}

// The line of a word and 32 bytes.
pub(crate) fn next_hash(lines: &mut Lines, word: &[u8]) -> Option<[u8; 32]>
    ensures { Takes IsHash (λ hash. line_of (word.now ∷ spell_hex hash ∷ [])) lines.old lines.new result }
{
    let field = lines.take_field(word)?;
    read_hex32(field)
}

pub(crate) fn next_user(lines: &mut Lines) -> Option<UserName>
    ensures { Takes (λ user. IsTrue (is_user_name user)) user_line lines.old lines.new result }
{
    let field = lines.take_field(b"user")?;
    UserName::read(field)
}

pub(crate) fn next_key(lines: &mut Lines) -> Option<PublicKey>
    ensures { Takes IsPublicKey key_line lines.old lines.new result }
{
    let field = lines.take_field(b"key")?;
    PublicKey::read(field)
}

pub(crate) fn next_signature(alloc: Global, lines: &mut Lines) -> Result<Option<Bytes>, Memory>
    ensures { IfOk result (λ found. Takes AreBytes sign_line lines.old lines.new found) }
{
    match lines.take_field(b"sign") {
        Some(field) => read_base64(alloc, field),
        None => Ok(None),
    }
}

pub(crate) fn next_fault(lines: &mut Lines) -> Option<GreetFault>
    ensures { Takes IsNamed fault_line lines.old lines.new result }
{
    let field = lines.take_field(b"fault")?;
    read_fault(field)
}

fn read_fault(text: &[u8]) -> Option<GreetFault>
    ensures { Reads IsNamed spell_fault text.now result }
{
    if text == b"BadMessage".as_slice() {
        Some(GreetFault::BadMessage)
    } else if text == b"OtherTeam".as_slice() {
        Some(GreetFault::OtherTeam)
    } else if text == b"OutOfTurn".as_slice() {
        Some(GreetFault::OutOfTurn)
    } else if text == b"UnknownDevice".as_slice() {
        Some(GreetFault::UnknownDevice)
    } else if text == b"BadProof".as_slice() {
        Some(GreetFault::BadProof)
    } else {
        None
    }
}
