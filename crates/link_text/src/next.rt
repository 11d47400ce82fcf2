//! The lines of a link, one reader each. A reader takes its line off the front of the text, and leaves the rest.
ghost use Rattle.std.specs.Prelude.{◌≡◌, ◌≢◌, ◌<◌, ◌^◌, ◌++◌, ◌∷◌, ℕ, List, false, IsTrue, IfOk, IfErr, flat_map};
ghost use Rattle.std.specs.List.{AllByRecursion};
ghost use Rattle.tg_text.specs.Reading.{Reads};
ghost use Rattle.tg_text.specs.Spelling.{AreBytes, IsHash, IsPublicKey, has_newline, is_user_name};
ghost use Rattle.acts.specs.ActText.{IsActInRange};
ghost use Rattle.link_text.specs.LinkText.{IsTeam, team_field, team_line, prev_line, user_line, key_line, time_line, act_line, sign_line};
ghost use Rattle.link_text.specs.Takes.{HasNoParent, Takes, TakesAll};

use crate::fault::LineFault;
use acts::Act;
use std::alloc::Global;
use tg_text::{
    Bytes, Items, Lines, LinkName, PublicKey, UserName, read_base64, read_decimal, read_hex32,
};

// The field of the next line, which begins with the word. Another line is a fault.
fn next_field<'a>(lines: &mut Lines<'a>, word: &[u8]) -> Result<&'a [u8], LineFault>
    ensures ok { IfOk result (λ field. (has_newline field.now ≡ false) × (lines.old ≡ word.now ++ 32 ∷ (field.now ++ 10 ∷ lines.new))) }
    ensures err { IfErr result (λ _. (field rest : List ℕ) → lines.old ≢ word.now ++ 32 ∷ (field ++ 10 ∷ rest)) }
{
    lines.take_field(word).ok_or(LineFault::BadText)
}

pub(crate) fn next_team(lines: &mut Lines) -> Result<Option<LinkName>, LineFault>
    ensures { Takes IsTeam team_line lines.old lines.new result }
{
    let field = next_field(lines, b"team")?;
    read_team(field).ok_or(LineFault::BadText)
}

// The name of a team, or a hyphen where none is named.
fn read_team(field: &[u8]) -> Option<Option<LinkName>>
    ensures { Reads IsTeam team_field field.now result }
{
    if field == b"-".as_slice() {
        return Some(None);
    }
    let name = read_hex32(field)?;
    Some(Some(LinkName(name)))
}

// The lines of parents, up to the first line that is none.
pub(crate) fn next_parents(alloc: Global, lines: &mut Lines) -> Result<Items<LinkName>, LineFault>
    ensures { TakesAll (AllByRecursion IsHash) (flat_map prev_line) HasNoParent lines.old lines.new result }
{
    let mut parents = Items::new(alloc);
    'each: loop {
        match lines.take_field(b"prev") {
            Some(field) => {
                let name = read_hex32(field).ok_or(LineFault::BadText)?;
                parents.push(LinkName(name))?;
            }
            None => return Ok(parents),
        }
    }
}

pub(crate) fn next_user(lines: &mut Lines) -> Result<UserName, LineFault>
    ensures { Takes (λ user. IsTrue (is_user_name user)) user_line lines.old lines.new result }
{
    let field = next_field(lines, b"user")?;
    UserName::read(field).ok_or(LineFault::BadText)
}

pub(crate) fn next_key(lines: &mut Lines) -> Result<PublicKey, LineFault>
    ensures { Takes IsPublicKey key_line lines.old lines.new result }
{
    let field = next_field(lines, b"key")?;
    PublicKey::read(field).ok_or(LineFault::BadText)
}

pub(crate) fn next_time(lines: &mut Lines) -> Result<u64, LineFault>
    ensures { Takes (λ time. time < 2 ^ 64) time_line lines.old lines.new result }
{
    let field = next_field(lines, b"time")?;
    read_decimal(field).ok_or(LineFault::BadText)
}

pub(crate) fn next_act(alloc: Global, lines: &mut Lines) -> Result<Act, LineFault>
    ensures { Takes IsActInRange act_line lines.old lines.new result }
{
    let field = next_field(lines, b"act")?;
    Act::read(alloc, field)?.ok_or(LineFault::BadText)
}

pub(crate) fn next_signature(alloc: Global, lines: &mut Lines) -> Result<Bytes, LineFault>
    ensures { Takes AreBytes sign_line lines.old lines.new result }
{
    let field = next_field(lines, b"sign")?;
    read_base64(alloc, field)?.ok_or(LineFault::BadText)
}
