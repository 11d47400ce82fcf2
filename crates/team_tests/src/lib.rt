//! Tests of what stands between words and commands, of what no clause says or where values come from outside: links, bundles,
//! graphs, replicas and what is shown of them. Tables of cases are data of `team_cases`.
#![tactic(auto)]

#[cfg(test)]
mod bundles;
#[cfg(test)]
mod graphs;
#[cfg(test)]
mod histories;
#[cfg(test)]
mod undoing;
