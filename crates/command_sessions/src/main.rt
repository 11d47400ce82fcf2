//! Plays sessions of commands over files in memory, and prints where a run differs from what the session says.
//!
//! The words after the program's name are sessions, files of `data/`. What stands before the first line `= TITLE` is left
//! out; each such line begins a world of its own, without files, in which these lines stand. Words and pieces are those of
//! `read_word` and `read_pieces` in `team_samples`, and files of the data lie in `data/`.
//!
//!     moment N              the clock's seconds, in all of this world (else 0)
//!     draw HEX              a word to draw, after those of the lines `draw` before
//!     input PIECE ..        what the input gives
//!     most N                the output takes at most N bytes in a call
//!     fail KIND N ..        the calls of `files`, `draws`, `input` or `output` that fail, counted from 0; those of output in each run
//!     give NAME PIECE ..    a file is put there
//!     $ WORD ..             a run of these words; none after a `$` alone
//!     | LINE                a line that the run prints
//!     |- TEXT               what it prints of a line whose end is missing
//!     status N              what it ends with
//!     file NAME HEX         the SHA-256 of a file after the run
//!     file NAME gone        the file is absent
//!     holds NAME PIECE ..   the file has these bytes
//!
//! A run is followed by what it prints, its status, and what is said of files. A file that a run may change is asked for: none is
//! looked at by itself. A line of any other form stops the program. Of each session the program prints how many runs agree, and before that each run that differs.
//!
//! The links of the data are of a team whose links ann's key signs: types 5 and 3, the id of sixteen bytes 0x11, the seed of 32
//! bytes 0x22. `team_cases` signs them again. What is printed, and the names in it, were computed by another program; the files
//! `roles.team`, `devices.team` and `branches.team` were made by it too, and so were the links that are merged into the last. The
//! key files `*_small.key` are of types 5 and 3, so that they sign fast.
#![tactic(auto)]

mod expected;
mod line;
mod outset;
mod playing;
mod run;

use playing::play_session;
use std::{env, fs};
use tg_outside::RealFiles;

fn main(rt: HostRuntime) -> Result<(), anyhow::Error> {
    let mut data = RealFiles::new(&rt);
    for name in env::args(&rt)?.skip(1) {
        let text = fs::read_to_string(&rt, name.as_str())?;
        let played = play_session(rt.alloc(), &mut data, text.as_str())?;
        for line in &played.differing {
            println!(rt; "{name}: {line}")?;
        }
        println!(rt; "{name}: {} runs agree", played.agreed)?;
    }
    Ok(())
}
