//! The commands that print what a file says: `show`, `log`, `heads`, `why` and `keys`.
//!
//! Each command is one file: its definition in `specs/`, its body and its call here. Nothing is changed by any of them.
#![tactic(auto)]

mod heads;
mod keys;
mod laws;
mod log;
mod show;
mod why;

pub use heads::run_heads;
pub use keys::run_keys;
pub use laws::{heads_is_one, keys_is_one, log_is_one, show_is_one, why_is_one};
pub use log::run_log;
pub use show::run_show;
pub use why::run_why;
