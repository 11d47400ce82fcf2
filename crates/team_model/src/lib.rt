//! What a set of links means: the state of a team, the act table, which links are lawful, which stand, the team, and what
//! became of each link. The definitions stand in `specs/`; the types here are the plain values that they speak of, and each
//! function with an empty body has as its contract a law about them or a worked example.
//!
//! Read from below: `Judging` says what the team of a set is, over the order and the ancestry of `team_sets`, the table of
//! `ActTable` and the strikes of `Strikes`; `ShowText` says what is printed of it.
#![tactic(auto)]

mod key_line_laws;
mod laws;
mod limits;
mod terms;

pub use key_line_laws::{worked_box_lines, worked_new_lines, worked_removal_lines};
pub use laws::{
    counting_is_right, keyless_owe_each_key, lawful_stays, meaning_is_of_order, meaning_is_of_set,
    none_is_struck, rank_is_defined, standers_are_apart, team_is_fold, team_of_past,
    text_is_of_set, waiting_have_no_effect, worked_admissions, worked_arrival, worked_devices,
    worked_invitations, worked_members, worked_refusal, worked_removals, worked_roles, worked_show,
    worked_team,
};
pub use limits::{
    INVITATION_LEAVES, LAST_GENERATION, MOST_BOXES, MOST_DEVICES, MOST_DEVICES_EVER,
    MOST_INVITATIONS, MOST_MEMBERS, MOST_ROLES,
};
pub use terms::{Device, Invitation, Link, Member, Reason, Verdict};
