//! The commands that write a link by a key: `plain`.
//!
//! What they share stands here once (`specs/Authoring.antt`): FILE and KEYFILE are opened, a spent key is refused, a link is planned, the key
//! file is replaced, the link is signed and held, the team file is replaced, and the link's name is printed. What is planned is the part of
//! the command, a `Planner`. Each command is one file: its definition in `specs/`, its planner, its body and its call here.
#![tactic(auto)]

mod authoring;
mod laws;
mod plain;
mod planner;
mod posting;
mod refusal;

pub use authoring::{author, sign_and_post};
pub use laws::{authored_is_taken, plain_is_one};
pub use plain::run_plain;
pub use planner::{Planned, Planner};
pub use refusal::{Refusal, refuse};
