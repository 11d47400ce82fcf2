//! Settlement of acts that strike each other, by rank alone: the most senior act stands, and it, what it strikes and what strikes
//! it leave; the rest is settled likewise.
//!
//! `team_sets` defines settlement over any acts with a rank and strikes. Here an act has an id, and its rank is the seniority of
//! its user and then its own place; `specs/Ranks.antt` says so. Settling takes time by the square of the acts, however many strikes
//! there are.
#![tactic(auto)]

mod laws;
mod ranking;
mod settling;
mod striker;

pub use laws::{
    rank_is_by_seniority, ranks_are_strict, stands_unless_taken_out, worked_settlement,
};
pub use settling::settle_all;
pub use striker::{Decision, Place, Striker};
