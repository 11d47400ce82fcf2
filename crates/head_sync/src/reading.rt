//! The text of a message is read line by line. Texts of links aren't copied.
ghost use Rattle.std.specs.Prelude.{◌≡◌, ◌↔◌, IsTrue, codes};
ghost use Rattle.std.specs.List.{AllByRecursion};
ghost use Rattle.tg_text.specs.Reading.{Reads, Takes};
ghost use Rattle.tg_text.specs.Spelling.{IsHash, spell_hex};
ghost use Rattle.link_text.specs.LinkText.{Ascends};
ghost use Rattle.head_sync.specs.Bodies.{IsAnyKind, IsAnyMore, ReadsMessage, ReadsWhole, TakesNames, content_of, lent, word_of};
ghost use Rattle.head_sync.specs.Messages.{AreGiven, AreNames, IsContent, content_text, frames_of, kind_line, kind_word, more_line, more_word, name_lines, team_line};

use crate::fault::ReadFault;
use crate::message::{Body, Kind, Message};
use std::alloc::Global;
use team_files::split_frame;
use tg_text::{Items, Lines, LinkName, read_hex32};

/// How many links a message gives at most.
pub(crate) const MOST_GIVEN_LINKS: usize = 64;

// The length of a text in a frame has at most nine digits.
const LENGTHS: usize = 1_000_000_000;

/// What bytes say that are a message.
pub(crate) fn read_message(alloc: Global, bytes: &[u8]) -> Result<Message<'_>, ReadFault>
    ensures { ReadsMessage bytes.now result }
{
    let mut lines = Lines::new(bytes);
    let kind = next_kind(&mut lines).ok_or(ReadFault::BadMessage)?;
    let team = next_team(&mut lines).ok_or(ReadFault::BadMessage)?;
    let body = read_body(alloc, kind, lines.rest())?;
    Ok(Message { team, body })
}

fn next_kind(lines: &mut Lines) -> Option<Kind>
    ensures { Takes IsAnyKind (λ k. kind_line (word_of k)) lines.old lines.new result }
{
    let field = lines.take_field(b"team-sync 1")?;
    read_kind(field)
}

fn read_kind(field: &[u8]) -> Option<Kind>
    ensures { Reads IsAnyKind word_of field.now result }
{
    if field == b"hello".as_slice() {
        Some(Kind::Hello)
    } else if field == b"ask".as_slice() {
        Some(Kind::Ask)
    } else if field == b"give".as_slice() {
        Some(Kind::Give)
    } else if field == b"done".as_slice() {
        Some(Kind::Done)
    } else {
        None
    }
}

fn next_team(lines: &mut Lines) -> Option<LinkName>
    ensures { Takes IsHash team_line lines.old lines.new result }
{
    let field = lines.take_field(b"team")?;
    read_name(field)
}

fn read_name(field: &[u8]) -> Option<LinkName>
    ensures { Reads IsHash (λ n. spell_hex n) field.now result }
{
    let name = read_hex32(field)?;
    Some(LinkName(name))
}

// What stands after the line of the team.
fn read_body(alloc: Global, kind: Kind, text: &[u8]) -> Result<Body<'_>, ReadFault>
    ensures { ReadsWhole content_of (λ c. (kind_word c ≡ word_of kind) × IsContent c) content_text text.now result }
{
    match kind {
        Kind::Hello => Ok(Body::Hello {
            heads: read_names(alloc, b"head", text)?,
        }),
        Kind::Ask => read_ask(alloc, text),
        Kind::Give => read_give(alloc, text),
        Kind::Done => Ok(Body::Done {
            heads: read_names(alloc, b"head", text)?,
        }),
    }
}

fn read_ask(alloc: Global, text: &[u8]) -> Result<Body<'_>, ReadFault>
    ensures { ReadsWhole content_of (λ c. (kind_word c ≡ codes "ask") × IsContent c) content_text text.now result }
{
    let mut lines = Lines::new(text);
    let names = next_names(alloc, b"name", &mut lines)?;
    let marks = read_names(alloc, b"mark", lines.rest())?;
    if names.is_empty() {
        return Err(ReadFault::BadMessage);
    }
    Ok(Body::Ask { names, marks })
}

fn read_give(alloc: Global, text: &[u8]) -> Result<Body<'_>, ReadFault>
    ensures { ReadsWhole content_of (λ c. (kind_word c ≡ codes "give") × IsContent c) content_text text.now result }
{
    let mut lines = Lines::new(text);
    let more = next_more(&mut lines).ok_or(ReadFault::BadMessage)?;
    let texts = read_texts(alloc, lines.rest())?;
    Ok(Body::Give { more, texts })
}

fn next_more(lines: &mut Lines) -> Option<bool>
    ensures { Takes IsAnyMore more_line lines.old lines.new result }
{
    let field = lines.take_field(b"more")?;
    read_more(field)
}

fn read_more(field: &[u8]) -> Option<bool>
    ensures { Reads IsAnyMore more_word field.now result }
{
    if field == b"yes".as_slice() {
        Some(true)
    } else if field == b"no".as_slice() {
        Some(false)
    } else {
        None
    }
}

// The names of lines of the word, which are all of the text.
fn read_names(alloc: Global, word: &[u8], text: &[u8]) -> Result<Items<LinkName>, ReadFault>
    ensures { ReadsWhole (λ names. names) AreNames (name_lines word.now) text.now result }
{
    let mut lines = Lines::new(text);
    let names = next_names(alloc, word, &mut lines)?;
    if !lines.rest().is_empty() {
        return Err(ReadFault::BadMessage);
    }
    Ok(names)
}

// The names of the lines of the word, which ascend.
fn next_names(alloc: Global, word: &[u8], lines: &mut Lines) -> Result<Items<LinkName>, ReadFault>
    ensures { TakesNames AreNames word.now lines.old lines.new result }
{
    let names = next_name_lines(alloc, word, lines)?;
    if !ascends(names.as_slice()) {
        return Err(ReadFault::BadMessage);
    }
    Ok(names)
}

// The names of the lines of the word, in any order.
fn next_name_lines(
    alloc: Global,
    word: &[u8],
    lines: &mut Lines,
) -> Result<Items<LinkName>, ReadFault>
    ensures { TakesNames (AllByRecursion IsHash) word.now lines.old lines.new result }
{
    let mut names = Items::new(alloc);
    'each: loop {
        match lines.take_field(word) {
            Some(field) => {
                let name = read_name(field).ok_or(ReadFault::BadMessage)?;
                names.push(name)?;
            }
            None => return Ok(names),
        }
    }
}

// Whether each name is before the next.
fn ascends(names: &[LinkName]) -> bool
    ensures { IsTrue result ↔ Ascends names.now }
{
    for i in 1..names.len() {
        let ascends = names[i - 1].cmp(&names[i]).is_lt();
        if !ascends {
            return false;
        }
    }
    true
}

// The texts of frames, which are all of the bytes.
fn read_texts(alloc: Global, bytes: &[u8]) -> Result<Items<&[u8]>, ReadFault>
    ensures { ReadsWhole lent AreGiven frames_of bytes.now result }
{
    let mut texts = Items::new(alloc);
    let mut rest = bytes;
    while !rest.is_empty() {
        let (text, after) = split_frame(rest).ok_or(ReadFault::BadMessage)?;
        if text.len() >= LENGTHS || texts.len() >= MOST_GIVEN_LINKS {
            return Err(ReadFault::BadMessage);
        }
        texts.push(text)?;
        rest = after;
    }
    Ok(texts)
}
