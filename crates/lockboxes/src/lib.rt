//! Secrets that are sealed to a public key, and the keeper that the product has today, which hides nothing.
//!
//! `specs/Boxes.antt` says what a box is, `specs/Symbolic.antt` how the symbolic keeper seals and opens, and
//! `specs/Keeping.antt` which keys a device opens. Whoever plans boxes or opens keys stands on the trait alone.
#![tactic(auto)]

mod laws;
mod opened;
mod opening;
mod places;
mod sealer;
mod symbolic;

pub use laws::{opened_are_entitled, sealed_secrets_are_opened, symbolic_boxes_hold_their_secret};
pub use opened::Opened;
pub use opening::open_all;
pub use sealer::Sealer;
pub use symbolic::SymbolicKeeper;
