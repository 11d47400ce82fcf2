//! The graph of held links: which texts of a team are held, which links are connected, their order, and their heads.
//!
//! `specs/Held.antt` says what a graph is: the team and its held links in order of arrival, and nothing more. Positions, connected
//! part, order and heads are functions of these, over the definitions of `team_sets`; each call of `Graph` cites them.
//! `specs/Taking.antt` says what becomes of a text.
//!
//! The parts stand in modules of their own, each with a contract over lists: `holding` has texts and links by name, `children` the
//! links that name a parent, `connected` the positions, `ready` and `connecting` let links connect, `ordering`, `heads` and `lineup`
//! keep order and heads, `web` puts a link in and takes it out, `parentage` keeps the ancestry of positions. `below` finds the links
//! of some names with their ancestors, and `keeper` is what those see who exchange links.
#![tactic(auto)]

mod below;
mod children;
mod connected;
mod connecting;
mod graph;
mod heads;
mod holding;
mod inserting;
mod keeper;
mod laws;
mod lineup;
mod measuring;
mod ordering;
mod parentage;
mod ready;
mod take_fault;
mod taking;
mod took;
mod web;

pub use below::{find_within, mark_one};
pub use graph::Graph;
pub use keeper::LinkKeeper;
pub use laws::{positions_stand_as_links, waits_where_unconnected};
pub use take_fault::TakeFault;
pub use took::Took;
