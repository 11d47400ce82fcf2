//! The text of a link: reading it, verifying it and writing it.
//!
//! `specs/LinkText.antt` says how a link is spelled, which links are well-formed, which prove what they say, and of which team a
//! link is. What `read_text` gives is a well-formed link with this text, and every such link is given; `read_link` gives those
//! that verify, and `read_of_team` those of one team: all who take links from outside stand on it. An author signs what `body_of`
//! gives, and `finish` makes the text.
//!
//! A new act costs nothing here: `acts` reads and spells it. Where it shows a proof, as an admission does, it costs a clause of
//! `is_admitted` and an arm of the function beside it. A new kind of line costs a reader of two lines in `next`, whose proof is one call of `takes`, and a
//! step where the lines stand in their order: in `body`, in `read_fields`, and in the lemmas on the parts of a text. A kind
//! that may be repeated costs a loop as that of the parents, and what `Fields` of the proofs says of its field.
#![tactic(auto)]

mod draft;
mod fault;
mod key_lines;
mod laws;
mod naming;
mod next;
mod of_team;
mod proving;
mod reading;
mod rules;
mod writing;

pub use draft::Draft;
pub use fault::{LinkFault, TeamLinkFault, TextFault};
pub use laws::{file_is_of_set, link_is_spelled_once};
pub use naming::name_of;
pub use of_team::{is_of_team, read_named_of_team, read_of_team};
pub use proving::{proves, read_link};
pub use reading::read_text;
pub use rules::ascends;
pub use team_model::Link;
pub use writing::{body_of, finish, write_link};
