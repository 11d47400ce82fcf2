//! Key files, and signing with them so that each leaf of a key signs once.
//!
//! `specs/KeyText.antt` says what the text of a key file is: `KeyState::read` reads exactly these texts, and
//! `KeyState::write` writes them. `make_key` makes a key of words that are drawn (`specs/Making.antt`). `specs/Signing.antt` says what
//! `sign_next` answers and what it leaves of the file, which bears the next leaf before the one that signs is used;
//! `sign_known` is the same for who has read the file before.
#![tactic(auto)]

mod fault;
mod fields;
mod key_state;
mod known;
mod laws;
mod lines;
mod making;
mod signing;
mod turn;
mod writing;

pub use fault::SignFault;
pub use key_state::KeyState;
pub use known::sign_known;
pub use laws::{key_is_spelled_once, new_key_has_a_file};
pub use making::make_key;
pub use signing::{Signed, sign_next};
