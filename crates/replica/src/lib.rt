//! One replica: the links of a team that it holds, and what they mean.
//!
//! The links are held by a `Graph` of `link_graph`, which says what becomes of a text. `specs/Views.antt` says what a view of a set of
//! links is, over the team, the resolved list and the verdicts of `team_model`. The calls of `Replica` cite both; the texts that are
//! printed and the top call stand on them.
//!
//! `judging` finds which links are lawful, and `striking` which of these strike which, each once. `settling` decides which strikers
//! stand, and `resolving` which links stay; `folding` is what comes of these in their turn, `before_turns` what becomes of the others, and
//! `viewing` the view of all. `keeper` is what those see of it who exchange links.
#![tactic(auto)]

mod before_turns;
mod folding;
mod judged;
mod judging;
mod keeper;
mod laws;
mod replica;
mod resolving;
mod settling;
mod striking;
mod view;
mod viewing;

pub use laws::{counting_links_are_right, removals_are_right};
pub use link_graph::{Graph, TakeFault, Took};
pub use replica::Replica;
pub use team_model::{Reason, Verdict};
pub use team_state::TeamState;
pub use view::View;
