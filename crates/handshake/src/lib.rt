//! Greetings: two devices that claim to be members prove it to each other, each over the other's fresh nonce.
//!
//! `specs/Messages.antt` has the four messages and the text that a device signs, and `specs/Greetings.antt` what an end answers to each
//! message, and how far it is then. An end sends its claim (`Greeting::start`), takes the messages of the other end (`take`), and where it is
//! asked to sign, hands the signature in (`signed`). It makes no signature itself, and sends nothing.
//!
//! Two laws are over every list of calls (`specs/Histories.antt`). `none_is_accepted_unproved`: of a device that is accepted a claim was
//! taken and then a proof over this greeting's own nonce. `none_ends_unaccepted`: who has ended with a device had accepted it before.
#![tactic(auto)]

mod fault;
mod greeting;
mod laws;
mod lines;
mod message;
mod reacting;
mod reading;
mod stage;
mod writing;

pub use fault::GreetFault;
pub use greeting::Greeting;
pub use laws::{
    messages_are_spelled_once, none_ends_unaccepted, none_is_accepted_unproved, signed_texts_differ,
};
pub use message::Claim;
pub use stage::{GreetState, Next};
pub use writing::refuse_text;
