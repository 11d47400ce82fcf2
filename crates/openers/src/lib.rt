//! How commands open the files that they are given: each kind of file once, with its words of refusal.
//!
//! `specs/` says what is found of a file's bytes, in the words of `outcomes/specs/Refusing`: the file is refused, or holds something. Files of
//! any bytes, and files that must be absent, are opened by `outcomes`. The crates of commands stand on this one.
#![tactic(auto)]

mod key;
mod laws;
mod team;

pub use key::open_key;
pub use laws::{key_is_found_once, team_is_found_once};
pub use team::open_team;
