//! Whole items, one behind the other, and the unfinished one whose bytes are kept until more come.
ghost use Rattle.std.specs.Prelude.{◌≡◌, ◌<◌, ◌≤◌, ◌^◌, ◌++◌, ◌∷◌, [], List, ℕ, length, IfOk, OnErr, Ok};
ghost use Rattle.team_files.specs.Bundles.{IsFront, length_line};
ghost use Rattle.team_files.specs.Parts.{IsEnd, IsNext, IsRead, IsRunTo};
ghost use Rattle.team_files.specs.declared.item.Item.{Item};
ghost use Rattle.team_files.specs.declared.next.Next.TheVariants as next;

use crate::first::{First, first_of};
use crate::item::Item;
use std::alloc::Global;
use tg_text::{Bytes, Items, Memory, split_once};

/// The item that bytes begin with.
#[derive(Debug, Drop)]
pub enum Next<'a> {
    /// A whole item, and what stands behind it.
    Whole(Item, &'a [u8]),
    /// Less than an item.
    Open,
    /// No item begins so.
    Bad,
}

/// Where the whole items of a bundle's pieces end.
#[derive(Debug, Drop)]
pub enum End<'a> {
    /// The item whose bytes are kept is unfinished.
    Kept,
    /// The last bytes of the piece are those of an unfinished item.
    Front(&'a [u8]),
    /// No item begins there.
    Bad,
}

/// The item that bytes begin with. Its text is copied.
pub fn next_item(alloc: Global, bytes: &[u8]) -> Result<Next<'_>, Memory>
    ensures { IfOk result (λ item. IsNext bytes.now item) }
{
    match first_of(bytes) {
        First::Header(rest) => Ok(Next::Whole(Item::Header, rest)),
        First::Frame(length, rest) => next_text(alloc, length, rest),
        First::Open => Ok(Next::Open),
        First::Bad => Ok(Next::Bad),
    }
}

// The text of a frame, which stands in front of what follows the frame's first line.
fn next_text(alloc: Global, length: usize, bytes: &[u8]) -> Result<Next<'_>, Memory>
    ensures { length < 10 ^ 9 → IfOk result (λ item. IsNext (length_line length ++ bytes.now) item) }
{
    if length > bytes.len() {
        return Ok(Next::Open);
    }
    let (text, rest) = bytes.split_at(length);
    let text = Bytes::from_slice(alloc, text)?;
    Ok(Next::Whole(Item::Text(text), rest))
}

/// Adds the items of judged bytes, which follow the kept ones of an unfinished item. Where more bytes come than are
/// judged, `long` says so. Keeps the bytes of the item that is then unfinished, and answers whether a fault was added,
/// behind which nothing is kept.
pub fn read_piece(
    alloc: Global,
    kept: &mut Bytes,
    piece: &[u8],
    long: bool,
) -> Result<(Items<Item>, bool), Memory>
    requires { IsFront kept.old }
    ensures ok { IfOk result (λ read. IsRead (kept.old ++ piece.now) long read.0 kept.new read.1) }
    ensures err { OnErr result ((added : List ℕ) × (kept.new ≡ kept.old ++ added)) }
{
    let mut items = Items::new(alloc);
    let end = read_whole(alloc, &mut items, kept, piece)?;
    if let End::Bad = end {
        items.push(Item::BadFrame)?;
        *kept = Bytes::new(alloc);
        return Ok((items, true));
    }
    if long {
        items.push(Item::Long)?;
        *kept = Bytes::new(alloc);
        return Ok((items, true));
    }
    if let End::Front(rest) = end {
        *kept = Bytes::from_slice(alloc, rest)?;
    }
    Ok((items, false))
}

// Adds the whole items. The one whose bytes are kept comes first.
fn read_whole<'a>(
    alloc: Global,
    items: &mut Items<Item>,
    kept: &mut Bytes,
    piece: &'a [u8],
) -> Result<End<'a>, Memory>
    requires { IsFront kept.old }
    ensures ok { IfOk result (λ end. (added : List Item) × (items.new ≡ items.old ++ added) × IsEnd (kept.old ++ piece.now) kept.new added end) }
    ensures grows { (added : List ℕ) × (kept.new ≡ kept.old ++ added) }
{
    if kept.is_empty() {
        return read_items_of(alloc, items, piece);
    }
    match finish_item(alloc, kept, piece)? {
        Next::Whole(item, rest) => {
            items.push(item)?;
            read_items_of(alloc, items, rest)
        }
        Next::Open => Ok(End::Kept),
        Next::Bad => Ok(End::Bad),
    }
}

// Adds the whole items of bytes that begin where an item does.
fn read_items_of<'a>(
    alloc: Global,
    items: &mut Items<Item>,
    bytes: &'a [u8],
) -> Result<End<'a>, Memory>
    ensures { IfOk result (λ end. (added : List Item) × (items.new ≡ items.old ++ added) × IsRunTo bytes.now added end) }
{
    let mut rest = bytes;
    loop {
        match next_item(alloc, rest)? {
            Next::Whole(item, behind) => {
                items.push(item)?;
                rest = behind;
            }
            Next::Open => return Ok(End::Front(rest)),
            Next::Bad => return Ok(End::Bad),
        }
    }
}

// The unfinished item with the bytes that follow, and what stands behind it. What is kept grows by what the item lacks:
// first to the end of its first line, then to the end of its text.
fn finish_item<'a>(alloc: Global, kept: &mut Bytes, piece: &'a [u8]) -> Result<Next<'a>, Memory>
    requires { IsFront kept.old }
    ensures ok { IfOk result (λ item. IsNext (kept.old ++ piece.now) item) }
    ensures open { result ≡ Ok next.Open → kept.new ≡ kept.old ++ piece.now }
    ensures grows { (added : List ℕ) × (kept.new ≡ kept.old ++ added) }
{
    let before = kept.len();
    let mut rest = piece;
    while !rest.is_empty() {
        let (front, behind) = rest.split_at(lacking(kept.as_slice(), rest));
        kept.append(front)?;
        rest = behind;
        match next_item(alloc, kept.as_slice())? {
            Next::Whole(item, after) => {
                let taken = kept.len() - after.len() - before;
                return Ok(Next::Whole(item, piece.split_at(taken).1));
            }
            Next::Open => {}
            Next::Bad => return Ok(Next::Bad),
        }
    }
    Ok(Next::Open)
}

// How many of the bytes that follow the unfinished item lacks: those of its first line, or those of its text.
fn lacking(kept: &[u8], bytes: &[u8]) -> usize
    requires { 0 < length bytes.now }
    ensures some { 0 < result }
    ensures within { result ≤ length bytes.now }
{
    let lack = match first_of(kept) {
        First::Frame(length, rest) => length.saturating_sub(rest.len()),
        _ => match split_once(bytes, b'\n') {
            Some((line, _)) => line.len() + 1,
            None => bytes.len(),
        },
    };
    lack.clamp(1, bytes.len())
}
