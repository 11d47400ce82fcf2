//! Invitations: tokens, each of which signs with one leaf of the invitation's key, and the proofs that they sign.
//!
//! `specs/TokenText.antt` says what a token is and how its file is written, `specs/ProofFile.antt` the same of a proof, and
//! `specs/Making.antt` how `make_invite` makes an invitation of words that are drawn. A token holds the private elements of its leaf and
//! no seed, so whoever has it signs once, and for nobody else. `TokenFile::read` and `Proof::read` read exactly the texts of such values,
//! `prove` makes a proof that verifies, and `check_proof` says whether one does.
#![tactic(auto)]

mod inviting;
mod kind;
mod laws;
mod leaf;
mod lines;
mod nodes;
mod proof;
mod proof_lines;
mod proving;
mod token;
mod token_file;
mod token_lines;

pub use inviting::{Invite, make_invite};
pub use laws::made_tokens_are_tokens;
pub use proof::{Proof, check_proof};
pub use proving::prove;
pub use token::Token;
pub use token_file::{TokenFile, used_text};
