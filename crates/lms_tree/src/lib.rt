//! The trees LMS of RFC 8554 section 5, with SHA-256 and m = 32: making one, signing with its leaves, and verifying.
//!
//! `specs/Verifying.antt` has what verifies, and `specs/Signatures.antt` what a tree signs, in the letters of the standard.
//! What a tree signs verifies under its public key, as a clause of `Tree::sign`. It can be used alone:
//!
//! ```rust
//! use lms_tree::{Tree, verify};
//!
//! let tree = Tree::make(alloc, 5, 3, &[1; 16], &[2; 32])?;
//! let signature = tree.sign(alloc, 0, b"hello")?;
//! assert!(rt; verify(tree.public().as_slice(), b"hello", signature.as_slice()));
//! ```
#![tactic(auto)]

mod fault;
mod laws;
mod lms_kind;
mod nodes;
mod rows;
mod tree;
mod tree_key;
mod verifying;

pub use fault::TreeFault;
pub use laws::{joined_verifies, key_has_its_parts, path_leads_to_the_root};
pub use lms_kind::LmsKind;
pub use rows::worked_values;
pub use tree::Tree;
pub use tree_key::TreeKey;
pub use verifying::{root_over, verify};
