ghost use Rattle.std.specs.Prelude.{◌≡◌, ◌<◌, ◌≤◌, ◌++◌, length, IfOk, OnOk, OnErr, []};
ghost use Rattle.team_files.specs.Bundles.{IsBundle};
ghost use Rattle.team_files.specs.Pieces.{Answers, IsComing, last_items, started};

use crate::item::Item;
use crate::next::read_piece;
use std::alloc::Global;
use std::marker::Model;
use tg_text::{Bytes, Items, MOST_FILE_BYTES, Memory};

/// Reads a bundle that comes in pieces. Its items depend on the bytes, and not on how they were cut.
///
/// The bytes of an item that isn't whole yet are kept.
#[derive(Debug, Drop)]
pub struct Bundle {
    alloc: Global,
    kept: Bytes,
    left: usize,
    over: bool,
}

impl Model for Bundle {
    ghost use Rattle.team_files.specs.Pieces.{Pending, IsUnfinished};

    ghost Value = { Pending };

    ghost view = { λ it. record { kept = it.kept; left = it.left; over = it.over } };

    ghost invariant = { λ it. IsUnfinished (record { kept = it.kept; left = it.left; over = it.over }) };
}

impl Bundle {
    /// Nothing has come.
    pub fn new(alloc: Global) -> Bundle
        ensures { result ≡ started }
    {
        Bundle {
            alloc,
            kept: Bytes::new(alloc),
            left: MOST_FILE_BYTES as usize,
            over: false,
        }
    }

    /// The items that the next bytes complete, or make a `BadFrame` or `Long`. After a fault there are none.
    ///
    /// After want of memory the bundle is as before.
    pub fn feed(&mut self, piece: &[u8]) -> Result<Items<Item>, Memory>
        ensures ok { IfOk result (λ items. Answers self.old piece.now items self.new) }
        ensures err { OnErr result (self.new ≡ self.old) }
    {
        if self.over {
            return Ok(Items::new(self.alloc));
        }
        let (judged, behind) = split_judged(piece, self.left);
        let before = self.kept.len();
        match read_piece(self.alloc, &mut self.kept, judged, !behind.is_empty()) {
            Ok((items, over)) => {
                self.left -= judged.len();
                self.over = over;
                Ok(items)
            }
            Err(memory) => {
                self.kept.truncate(before);
                Err(memory)
            }
        }
    }

    /// The item at the end of the input: `Cut`, where it ends inside one.
    pub fn end(self) -> Option<Item>
        ensures { IsComing self [] (last_items result) }
    {
        if self.over {
            return None;
        }
        if self.kept.is_empty() {
            None
        } else {
            Some(Item::Cut)
        }
    }
}

// The bytes that are judged, and those behind the limit.
fn split_judged(piece: &[u8], left: usize) -> (&[u8], &[u8])
    ensures whole { piece.now ≡ result.0.now ++ result.1.now }
    ensures within { length result.0.now ≤ left }
    ensures full { 0 < length result.1.now → length result.0.now ≡ left }
{
    if piece.len() <= left {
        return piece.split_at(piece.len());
    }
    piece.split_at(left)
}

/// The items of a bundle that is there as a whole.
pub fn read_items(alloc: Global, bytes: &[u8]) -> Result<Items<Item>, Memory>
    ensures { IfOk result (λ items. IsBundle bytes.now items) }
{
    let mut bundle = Bundle::new(alloc);
    let mut items = bundle.feed(bytes)?;
    add_last(&mut items, bundle.end())?;
    Ok(items)
}

// Adds the item at the end, if there is one.
fn add_last(items: &mut Items<Item>, last: Option<Item>) -> Result<(), Memory>
    ensures { OnOk result (items.new ≡ items.old ++ last_items last) }
{
    match last {
        Some(item) => items.push(item),
        None => Ok(()),
    }
}
