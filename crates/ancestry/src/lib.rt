//! Which links are before which, by position: positions are numbers from 0 in the order of adding, each after its parents.
//!
//! `specs/Positions.antt` sees positions as links, so what is promised is said in the words of `team_sets`. Of each position all
//! its ancestors are kept, in a list that ascends and is searched. So a question takes no memory, and a position as much as it has
//! ancestors.
#![tactic(auto)]

mod ancestry;
mod laws;
mod row;

pub use ancestry::Ancestry;
pub use laws::{renamed_stand_alike, worked_ancestry};
