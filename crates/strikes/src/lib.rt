//! Which entries strike which, and how senior users are.
//!
//! A removal strikes what was written beside it: a removed member's entries and those that bring him in, a removed device's
//! likewise, what gives a role that is taken, and what only an admin may write by one from whom `admin` is taken.
//! `specs/Strikes.antt` of `team_model` says so; this crate decides it for two entries. A user is as senior as the first link that
//! brought him in: `Seniority` keeps the least place of each.
#![tactic(auto)]

mod brought;
mod laws;
mod seniority;
mod striking;

pub use brought::{brings_device, brings_user};
pub use laws::{
    gives_back, noted_is_least, outranked_by_standing, resolved_unless_struck, seen_is_kept,
    senior_stands, struck_by_standing, unlawful_has_no_effect, worked_branches, worked_invitations,
    worked_removals, worked_strikes,
};
pub use seniority::Seniority;
pub use striking::{is_striking, strikes};
