//! The state of a team: its title, and tables of members, roles, devices, invitations, keys and boxes.
//!
//! `State` of `team_model` is what contracts see of a state, and `Writes` there says what each write changes. Each table
//! ascends, so rows are found by binary search; copies of a state share their tables until one of them is written. What the
//! tables say of keys is shown through `KeyTable`.
#![tactic(auto)]

mod inviting;
mod keys;
mod kinds;
mod looking;
mod rows;
mod state;
mod table;
mod writing;

pub use inviting::opened_invitation;
pub use state::TeamState;
pub use team_model::{Device, Invitation, Member};
pub use writing::listed_device;
