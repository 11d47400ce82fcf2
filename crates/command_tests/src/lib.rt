//! Tests of commands that need code: long histories. Sessions of commands are data of `command_sessions`.
#![tactic(auto)]

#[cfg(test)]
mod histories;
