//! What an author plans: the link of an act before it is signed.
//!
//! `specs/Planning.antt` says what is planned of held links, a key, an act and a time, or why nothing is. A draft is a well-formed link
//! but for its signature (`specs/Drafting.antt`). The commands that sign stand on this crate.
#![tactic(auto)]

mod copying;
mod plan_fault;
mod planning;

pub use plan_fault::PlanFault;
pub use planning::plan_plain;
