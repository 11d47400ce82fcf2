//! Which keys a key reaches through boxes, which keys are tainted, and what a team owes, over any tables of keys.
//!
//! Every contract cites `specs/Keys.antt` and `specs/Debts.antt`: `reach` is the least set closed under boxes, and each call
//! answers the ordered list of its set. Tables show themselves through `KeyTable`.
//!
//! Boxes are numbered and sorted once (`graph.rt`), and a walk (`walking.rt`) follows each from what it reaches once. Debts are
//! found by going back from each key, since few keys lead to it. `debts` and `lacks` ask the tables for the arrow of each pair
//! of live scopes and of clean keys, so they take time by the square of these.
#![tactic(auto)]

mod box_graphs;
mod current;
mod debt;
mod entitling;
mod graph;
mod lacking;
mod laws;
mod lists;
mod numbers;
mod owing;
mod reaching;
mod scope_graphs;
mod table;
mod unreached;
mod walking;

pub use current::current_keys;
pub use debt::Debt;
pub use entitling::entitled;
pub use lacking::lacks;
pub use laws::{debts_without_keys, entitled_is_least, reach_is_least, worked_keys};
pub use lists::{is_member, ordered};
pub use owing::debts;
pub use reaching::{is_device, reach, tainted};
pub use table::KeyTable;
