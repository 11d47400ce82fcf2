//! Reads tables of cases about links, team files and bundles, and prints which don't hold.
//!
//! The words after the program's name are tables, files of `data/`. A line of a table is empty, a remark that begins with `#`, or
//! one of these. Words and pieces are those of `read_word` and `read_pieces` in `team_samples`; files of the data lie in `data/`.
//!
//!     base PIECE ..              the text that the next lines are edits of
//!     text VERDICT OLD => NEW    what is read of the base with the first OLD in it replaced: `ok`, `BadText` or `TooLong`. Both are
//!                                words that may have spaces inside. Without them the base is read as it is.
//!     link VERDICT OLD => NEW    the same, where its signature is asked too: then also `BadSignature`
//!     name HEX                   the base is read under this name
//!     signed KEY LEAF NAME HEX   the file NAME is a link that this leaf of the key `own`, `other` or `tall` signs, with this name
//!     file N PIECE ..            the pieces are a team file of N links, read as a view and as a graph
//!     file BadFile PIECE ..      they are none
//!     sum HEX PIECE ..           the SHA-256 of the pieces
//!     past NAME TITLE = USER ..  the base is a team file, and the team of the link NAME with its ancestors has this title and these
//!                                members alone
//!     bundle ITEM .. = PIECE ..  the items of the pieces, read whole and in parts of 1 to 64 bytes: `H` a header, `TWORD` a text,
//!                                `C` cut, `B` no frame, `L` too long
//!
//! What is read of a text is also written, and must be the text. The program prints of each table how many cases hold, and before
//! that the number of each line whose case doesn't.
#![tactic(auto)]

mod bundle_rows;
mod file_rows;
mod link_rows;
mod past_rows;
mod signed_rows;
mod table;

use std::{env, fs};
use table::Table;
use tg_outside::RealFiles;

fn main(rt: HostRuntime) -> Result<(), anyhow::Error> {
    let mut data = RealFiles::new(&rt);
    for name in env::args(&rt)?.skip(1) {
        let text = fs::read_to_string(&rt, name.as_str())?;
        let mut table = Table::new(rt.alloc());
        let mut number: u64 = 0;
        for line in text.as_str().lines() {
            number = number.saturating_add(1);
            if !table.holds(rt.alloc(), &mut data, line)? {
                println!(rt; "{name}: line {number} does not hold")?;
            }
        }
        println!(rt; "{name}: {} cases hold", table.held())?;
    }
    Ok(())
}
