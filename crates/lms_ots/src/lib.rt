//! The one-time signatures LM-OTS of RFC 8554 section 4, with SHA-256 and n = 32, in fixed arrays. No call takes memory.
//!
//! The contracts cite `specs/Ots.antt`, which has the key, the signature and the candidate as recursions on lists in the
//! letters of the standard. `lms_tree` stands on it; so does whoever wants one-time signatures alone:
//!
//! ```rust
//! use lms_ots::{OtsKind, fill_secrets, ots_candidate, ots_public, ots_random, ots_sign};
//!
//! let (kind, id, seed) = (OtsKind::W8, [1; 16], [2; 32]);
//! let mut secrets = [[0; 32]; 34];
//! fill_secrets(kind, &id, 0, &seed, &mut secrets);
//! let mut signature = [0; 1124];
//! ots_sign(kind, &id, 0, &secrets, &ots_random(&id, 0, &seed), b"hello", &mut signature);
//! let key = ots_candidate(kind, &id, 0, b"hello", &signature);
//! assert_eq!(rt; key, Some(ots_public(kind, &id, 0, &seed)));
//! ```
#![tactic(auto)]

mod chains;
mod digits;
mod kind;
mod rows;
mod signatures;

pub use chains::{chain, fill_secrets, front_of, ots_random, ots_secret};
pub use digits::{checksum, coef};
pub use kind::OtsKind;
pub use rows::worked_values;
pub use signatures::{array_at, ots_candidate, ots_public, ots_sign, public_of_secrets};
