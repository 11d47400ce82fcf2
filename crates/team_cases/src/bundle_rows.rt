//! Cases about bundles.
ghost use Rattle.std.specs.Prelude.{◌<◌};

use std::alloc::Global;
use team_files::{Bundle, Item, read_items};
use team_samples::{SampleFault, read_pieces, read_word};
use tg_outside::Files;
use tg_text::{Items, Memory};

/// Whether a row `ITEM .. = PIECE ..` holds, in whatever parts the pieces come.
pub fn bundle_holds<F: Files>(alloc: Global, data: &mut F, row: &str) -> Result<bool, SampleFault> {
    let (words, pieces) = row.split_once('=').ok_or(SampleFault::BadWord)?;
    let wanted = items_of(alloc, words)?;
    let bytes = read_pieces(alloc, data, pieces)?;
    for size in 1..65 {
        if read_parts(alloc, bytes.as_slice(), size)? != wanted {
            return Ok(false);
        }
    }
    Ok(read_items(alloc, bytes.as_slice())? == wanted)
}

// The items that are spelled, each by a word.
fn items_of(alloc: Global, words: &str) -> Result<Items<Item>, SampleFault> {
    let mut items = Items::new(alloc);
    for word in words.split(' ') {
        match word {
            "" => {}
            "H" => items.push(Item::Header)?,
            "C" => items.push(Item::Cut)?,
            "B" => items.push(Item::BadFrame)?,
            "L" => items.push(Item::Long)?,
            _ => {
                let text = word.strip_prefix('T').ok_or(SampleFault::BadWord)?;
                items.push(Item::Text(read_word(alloc, text)?))?;
            }
        }
    }
    Ok(items)
}

// The items of bytes that come in parts of this size, each with an empty one after it.
fn read_parts(alloc: Global, bytes: &[u8], size: usize) -> Result<Items<Item>, Memory>
    requires { 0 < size }
{
    let mut bundle = Bundle::new(alloc);
    let mut items = Items::new(alloc);
    for part in bytes.chunks(size) {
        let answered = bundle.feed(part)?;
        add_all(&mut items, answered)?;
        let answered = bundle.feed(b"")?;
        add_all(&mut items, answered)?;
    }
    if let Some(item) = bundle.end() {
        items.push(item)?;
    }
    Ok(items)
}

fn add_all(items: &mut Items<Item>, more: Items<Item>) -> Result<(), Memory> {
    for item in more.into_vec() {
        items.push(item)?;
    }
    Ok(())
}
