//! What becomes of the items of a bundle that are given to held links: each text is new, waits, is held already, or is refused.
//!
//! `specs/Giving.antt` says what becomes of each item, one after another, and `give_items` does it, over a graph and no file.
//! `specs/ResultsText.antt` says what is printed of it. `specs/UnionLaws.antt` says what giving comes to: the held set is the
//! union of the old one and the valid texts given, so two files to which the same valid texts were given are the same bytes. The
//! commands that take links from others stand on this crate.
#![tactic(auto)]

mod giving;
mod item_result;
mod laws;
mod printing;

pub use giving::{give_bundle, give_items, result_of};
pub use item_result::{ItemResult, Refusal};
pub use laws::{bundle_is_given_once, items_are_given_once, merge_is_union, merges_in_any_order};
pub use printing::{results_status, results_text};
