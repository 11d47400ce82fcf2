//! Tests of removals: generated histories of admins who remove each other have the verdicts that a slow program gives them, in
//! whatever order their links come.
//!
//! The slow program is written from the sentences of `docs/RULES.md`, with lists and loops alone: `table` has the rows of the acts,
//! `web` ancestors, order and strikes, `settling` which removals stand, and `verdicts` what became of each link. It stands on nothing
//! that settles or folds for the product.
#![tactic(auto)]

#[cfg(test)]
mod agreeing;
#[cfg(test)]
mod settling;
#[cfg(test)]
mod table;
#[cfg(test)]
mod verdicts;
#[cfg(test)]
mod web;
