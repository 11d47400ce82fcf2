//! Tests of states and their tables of keys, of what no clause says or where values come from outside. Tables of cases are data of
//! `act_cases`.
#![tactic(auto)]

#[cfg(test)]
mod keys;
#[cfg(test)]
mod states;
