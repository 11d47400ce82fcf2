//! The commands that take links from others: `merge` from a bundle, `meet` by messages.
//!
//! Each command is one file: its definition in `specs/`, its body and its call here.
#![tactic(auto)]

mod laws;
mod meet;
mod merge;

pub use laws::{meet_is_one, merge_is_one};
pub use meet::run_meet;
pub use merge::run_merge;
