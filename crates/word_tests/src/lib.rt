//! Tests of fields, acts, one-time signatures, trees, key files, boxes, the outside and outcomes: of what no clause says, and
//! of what only a run can show, as that a call succeeds where memory is ample. Tables of texts are data of `text_cases`, and
//! values of signatures data of `lms_vectors`.
#![tactic(auto)]

#[cfg(test)]
mod boxes;
#[cfg(test)]
mod contents;
#[cfg(test)]
mod flows;
#[cfg(test)]
mod key_files;
#[cfg(test)]
mod made_keys;
#[cfg(test)]
mod memory_files;
#[cfg(test)]
mod outcomes_of_commands;
#[cfg(test)]
mod real_files;
#[cfg(test)]
mod real_others;
#[cfg(test)]
mod signatures;
#[cfg(test)]
mod words;
