//! What a command does, as one value, and the calls that do it.
//!
//! An outcome is a status and a list of steps (`specs/Steps.antt`). A call says that from 0 to 4 all steps of its outcome are
//! done, and that in every case some first steps are done and no others (`Runs` in `specs/Ending.antt`). The body of a command
//! reads, changes files and answers an `Answer`; `conclude` prints it. Every command of the program stands on this crate.
#![tactic(auto)]

mod answer;
mod draw;
mod laws;
mod put;
mod refusing;
mod status;
mod stop;

pub use answer::{Answer, conclude};
pub use draw::draw_word;
pub use laws::{cut_after_first_part, cut_in_first_part, steps_of_two_parts};
pub use put::{Put, replace_all, replace_one};
pub use refusing::{FileWord, must_be_absent, open_bytes, refuse_file};
pub use status::{BAD_FILE, DONE, FAULT, ITEM_REFUSED, NO_MEMORY, REFUSED, USAGE};
pub use stop::Stop;
