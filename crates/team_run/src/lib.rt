//! The top call: it reads the words of a command line, and does the command that they are.
//!
//! `run` is over any files, entropy, clock, source, sink and sealer. `specs/Running.antt` says what it does: each command's own definition
//! stands in the crate that has the command. `specs/Serving.antt` says what a command needs of its files, and `specs/ManyRuns.antt` what many
//! runs make of a team's file. The program hands in the words and the real objects.
#![tactic(auto)]

mod laws;
mod running;

pub use author_commands::run_plain;
pub use exchange_commands::{run_meet, run_merge};
pub use key_commands::{run_make, run_newkey};
pub use laws::{
    make_begins_team, merge_is_done, plain_is_done, runs_in_any_order, runs_leave_union,
    served_end_well, show_after_runs, show_prints_team, teams_are_begun,
};
pub use report_commands::{run_heads, run_keys, run_log, run_show, run_why};
pub use running::{run, run_command};
