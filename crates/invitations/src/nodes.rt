//! The lines of a token that stand more than once.
ghost use Rattle.std.specs.Prelude.{IfOk};
ghost use Rattle.tg_text.specs.Reading.{Takes};
ghost use Rattle.invitations.specs.FileLines.{hash_lines};
ghost use Rattle.invitations.specs.TokenText.{AreHashes};

use crate::lines::next_hash;
use std::alloc::Global;
use tg_text::{Items, Lines, Memory};

// A number of lines of a word and 32 bytes each.
pub(crate) fn next_hashes(
    alloc: Global,
    lines: &mut Lines,
    word: &[u8],
    many: usize,
) -> Result<Option<Items<[u8; 32]>>, Memory>
    ensures { IfOk result (λ found. Takes (AreHashes many) (hash_lines word.now) lines.old lines.new found) }
{
    let mut hashes = Items::new(alloc);
    for i in 0..many {
        match next_hash(lines, word) {
            Some(hash) => hashes.push(hash)?,
            None => return Ok(None),
        }
    }
    Ok(Some(hashes))
}
