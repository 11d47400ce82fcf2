//! The words of a command line, and the command that they are.
//!
//! `specs/Words.antt` says which words are a command. A command holds its fields as values that were read: names of users and
//! titles are what their types say. An act is given by the words of its text (`specs/Acts.antt`), of which a title is one word. Every
//! command of the program takes a command of these.
#![tactic(auto)]

mod command;
mod field;
mod given;
mod laws;

pub use command::{Command, command_of};
pub use given::GivenAct;
pub use laws::words_are_one_command;
