//! What is planned of an act, and what such a plan promises: definitions and laws, and no code that does anything.
//!
//! `specs/Plans.antt` says which new keys and which boxes are planned, and `specs/PlanLaws.antt` what holds of them: a planned act
//! leaves no debt, under the conditions that stand there, and none of its lines is left. The author of links plans by these definitions.
#![tactic(auto)]

mod laws;
mod rows;

pub use laws::{
    owed_is_among_debts, planned_lines_fit, plans_are_alike, plans_are_short, plans_owe_nothing,
};
pub use rows::{worked_plans, worked_repairs};
