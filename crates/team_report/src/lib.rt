//! The texts that are printed of a team.
//!
//! Each is a function of a replica's links, a small function for each kind of line: `show_text` writes the text of
//! `team_model/specs/ShowText`, and `log_text`, `heads_text` and `why_text` those of `specs/LogText`, `HeadsText` and `WhyText`. `keys_text`
//! writes that of `specs/KeysText`, of the keys that a device opened. The commands of these names print them.
#![tactic(auto)]

mod act_words;
mod by_user;
mod current_keys;
mod debts;
mod heads;
mod keys;
mod laws;
mod log;
mod show;
mod tables;
mod verdict_words;
mod waiting;
mod why;

pub use heads::heads_text;
pub use keys::keys_text;
pub use laws::{opened_keys_are_exact, texts_are_of_set};
pub use log::log_text;
pub use show::show_text;
pub use verdict_words::reason_word;
pub use why::why_text;
