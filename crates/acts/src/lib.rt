//! Acts, and entries: an act with its author and its time.
//!
//! `specs/ActText.antt` says how an act is written and in which ranges its fields are, `specs/Admin.antt` which entries only
//! an admin may write, and `specs/ProofText.antt` what the proof of an admission signs. `link_text` reads acts as a part of
//! links, and `team_model` says what they do.
//!
//! Acts are read in two steps. `fields` reads the fields of one kind, and those that stand beside each other; `reading` reads
//! the word and makes the act of its fields. A new act costs a clause in each definition, a function of five lines in `reading`
//! and one in `writing`, and a form in `proofs/Forms.antt`, by which the function and the laws are proved.
#![tactic(auto)]

mod admin;
mod device;
mod entry;
mod fields;
mod kind;
mod laws;
mod proof_text;
mod reading;
mod writing;

pub use admin::needs_admin;
pub use device::device_of;
pub use entry::{Act, Entry, InviteKind};
pub use laws::{acts_are_spelled_once, proof_bodies_differ};
pub use proof_text::proof_body;
