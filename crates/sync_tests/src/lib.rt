//! Tests of exchanges between two ends: messages that are lost, repeated and reordered, and meetings.
#![tactic(auto)]

#[cfg(test)]
mod deliveries;
#[cfg(test)]
mod meetings;
