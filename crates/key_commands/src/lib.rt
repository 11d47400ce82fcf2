//! The commands that make keys: `newkey`, and `make`, which founds a team with a new key.
//!
//! Each command is one file: its definition in `specs/`, its body and its call here. `specs/MakeLaws.antt` says what the file of a new
//! team is.
#![tactic(auto)]

mod laws;
mod make;
mod newkey;

pub use laws::{made_is_held, make_is_one, newkey_is_one};
pub use make::run_make;
pub use newkey::run_newkey;
