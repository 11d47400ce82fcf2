//! The lines of keys: those of new keys, and after them those of boxes. Each is taken off the front of the text.
ghost use Rattle.std.specs.Prelude.{◌≡◌, flat_map, IfOk};
ghost use Rattle.std.specs.List.{AllByRecursion};
ghost use Rattle.tg_text.specs.KeySpelling.{IsKeyId, spell_key_id};
ghost use Rattle.tg_text.specs.Reading.{Reads};
ghost use Rattle.tg_text.specs.Spelling.{spell_base64};
ghost use Rattle.acts.specs.Fields.{AreTwo, spell_two};
ghost use Rattle.link_text.specs.KeyRanges.{AreKeyLines, IsBoxLine, IsNewKey, IsSealed};
ghost use Rattle.link_text.specs.LinkText.{box_line, new_line, spell_box};
ghost use Rattle.link_text.specs.Takes.{Adds, HasNoBox, HasNoKeyLine, HasNoNew, TakesAll, key_lines};

use crate::fault::LineFault;
use std::alloc::Global;
use tg_text::{
    BoxLine, Bytes, Items, KeyId, KeyLines, Lines, Memory, Scope, read_base64, split_once,
};

// How many new keys a link brings at most.
const NEWS: usize = 64;

// How many boxes a link brings at most.
const BOXES: usize = 1024;

// How many sealed bytes a box has at most.
const SEALED_BYTES: usize = 256;

// The lines of keys, up to the first line that is none of them.
pub(crate) fn next_key_lines(alloc: Global, lines: &mut Lines) -> Result<KeyLines, LineFault>
    ensures { TakesAll AreKeyLines key_lines HasNoKeyLine lines.old lines.new result }
{
    let news = next_news(alloc, lines)?;
    if news.len() > NEWS {
        return Err(LineFault::BadText);
    }
    let boxes = next_boxes(alloc, lines)?;
    if boxes.len() > BOXES {
        return Err(LineFault::BadText);
    }
    Ok(KeyLines { news, boxes })
}

// The lines of new keys, however many there are.
fn next_news(alloc: Global, lines: &mut Lines) -> Result<Items<KeyId>, LineFault>
    ensures { TakesAll (AllByRecursion IsNewKey) (flat_map new_line) HasNoNew lines.old lines.new result }
{
    let mut news = Items::new(alloc);
    'each: loop {
        match lines.take_field(b"new") {
            Some(field) => push_new(&mut news, field)?,
            None => return Ok(news),
        }
    }
}

// One more of the new keys, which the field spells. The key of a device is none.
fn push_new(news: &mut Items<KeyId>, field: &[u8]) -> Result<(), LineFault>
    ensures { Adds IsNewKey spell_key_id field.now news.old news.new result }
{
    let key = KeyId::read(field).ok_or(LineFault::BadText)?;
    if let Scope::Device(_) = key.scope {
        return Err(LineFault::BadText);
    }
    news.push(key)?;
    Ok(())
}

// The lines of boxes, however many there are.
fn next_boxes(alloc: Global, lines: &mut Lines) -> Result<Items<BoxLine>, LineFault>
    ensures { TakesAll (AllByRecursion IsBoxLine) (flat_map box_line) HasNoBox lines.old lines.new result }
{
    let mut boxes = Items::new(alloc);
    'each: loop {
        match lines.take_field(b"box") {
            Some(field) => {
                let line = read_box(alloc, field)?.ok_or(LineFault::BadText)?;
                boxes.push(line)?;
            }
            None => return Ok(boxes),
        }
    }
}

fn read_box(alloc: Global, field: &[u8]) -> Result<Option<BoxLine>, Memory>
    ensures { IfOk result (λ found. Reads IsBoxLine spell_box field.now found) }
{
    match read_to(alloc, field)? {
        Some(parts) => Ok(Some(box_of(parts))),
        None => Ok(None),
    }
}

fn box_of(parts: (KeyId, (KeyId, Bytes))) -> BoxLine
    ensures { result ≡ record { to = parts.0; of = parts.1.0; bytes = parts.1.1 } }
{
    let (to, rest) = parts;
    let (of, bytes) = rest;
    BoxLine { to, of, bytes }
}

// The key that a box is sealed to, and what stands after it.
fn read_to(alloc: Global, field: &[u8]) -> Result<Option<(KeyId, (KeyId, Bytes))>, Memory>
    ensures { IfOk result (λ found. Reads (AreTwo IsKeyId (AreTwo IsKeyId IsSealed)) (spell_two spell_key_id (spell_two spell_key_id spell_base64)) field.now found) }
{
    let Some((to, rest)) = split_once(field, b' ') else {
        return Ok(None);
    };
    let rest = read_of(alloc, rest)?;
    Ok(KeyId::read(to).zip(rest))
}

// The key whose secret a box has, and the sealed bytes.
fn read_of(alloc: Global, field: &[u8]) -> Result<Option<(KeyId, Bytes)>, Memory>
    ensures { IfOk result (λ found. Reads (AreTwo IsKeyId IsSealed) (spell_two spell_key_id spell_base64) field.now found) }
{
    let Some((of, sealed)) = split_once(field, b' ') else {
        return Ok(None);
    };
    let sealed = read_sealed(alloc, sealed)?;
    Ok(KeyId::read(of).zip(sealed))
}

fn read_sealed(alloc: Global, field: &[u8]) -> Result<Option<Bytes>, Memory>
    ensures { IfOk result (λ found. Reads IsSealed spell_base64 field.now found) }
{
    let Some(sealed) = read_base64(alloc, field)? else {
        return Ok(None);
    };
    if 1 <= sealed.len() && sealed.len() <= SEALED_BYTES {
        Ok(Some(sealed))
    } else {
        Ok(None)
    }
}
