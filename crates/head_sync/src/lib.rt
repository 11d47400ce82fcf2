//! Sync by heads: two ends of a team exchange what the other lacks, over messages.
#![tactic(auto)]

mod answering;
mod ends;
mod fault;
mod laws;
mod meeting;
mod message;
mod offering;
mod reading;
mod session;
mod writing;

pub use ends::Ends;
pub use fault::SyncFault;
pub use laws::{
    ends_agree, meeting_exchanges, meeting_is_one, meeting_unites, message_is_read_once,
};
pub use meeting::{Met, meet};
pub use session::Session;
