//! What tests and programs over cases share: texts with escapes, bytes put together of pieces, keys of stated seeds, links that
//! they sign, and histories of many links, with removals and without.
//!
//! Nothing of the product stands on this crate. Its functions promise nothing but that they are safe: what they make is compared
//! with values from outside.
#![tactic(auto)]

mod escapes;
mod fault;
mod history;
mod keys;
mod pieces;
mod removals;

pub use escapes::read_word;
pub use fault::SampleFault;
pub use history::{Draws, History, all_but, backwards, make_history, shuffled};
pub use keys::{other_key, own_key, sign, tall_key};
pub use pieces::read_pieces;
pub use removals::make_removals;
