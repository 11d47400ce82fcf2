//! Tests of greetings: two ends that pass their messages, and the messages that are refused.
#![tactic(auto)]

#[cfg(test)]
mod device;
#[cfg(test)]
mod greetings;
#[cfg(test)]
mod refusals;
