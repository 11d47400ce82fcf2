//! What an act does to the state of a team: whether it is permitted, and its effect.
//!
//! `ActTable` of `team_model` says both, as a table with a row for each act; the functions here say it in the same words over the
//! tables of `team_state`. A new act costs a function in `rows` with the conditions of its row, one line each, an arm in `effects`
//! by the writes of `team_state`, and its case in the proof that every team keeps an admin with a device (`proofs/Sounding.antt`).
#![tactic(auto)]

mod applying;
mod boxes;
mod effects;
mod inviting;
mod known;
mod laws;
mod lining;
mod news;
mod permitting;
mod roles;
mod rows;

pub use applying::apply;
pub use laws::{rules_are_lawful, states_are_sound, teams_are_sound};
pub use news::{is_rotated, may_rekey, wants_key};
pub use permitting::permits;
pub use team_model::Reason;
pub use team_state::TeamState;
