//! Team files: the header, which names the team, and a frame for each link, in ascending order of names. And bundles:
//! headers and frames in any order and number, in whatever pieces they come.
//!
//! `specs/TeamFile.antt` of `link_text` says what the file of a set of links is. `read_graph` answers a graph of that set, and
//! `read_file` where its texts stand, exactly where the bytes are such a file; `file_is_read_once` says that the set is the only
//! one. `specs/Bundles.antt` says what the items of a bundle are, which `Bundle` and `read_items` answer. The program's commands
//! stand on both.
#![tactic(auto)]

mod bundle;
mod bundle_laws;
mod fault;
mod first;
mod frames;
mod holding;
mod item;
mod laws;
mod links;
mod names;
mod next;
mod reading;
mod writing;

pub use bundle::{Bundle, read_items};
pub use bundle_laws::{bundle_is_read_once, pieces_do_not_matter};
pub use fault::FileFault;
pub use frames::split_frame;
pub use holding::read_graph;
pub use item::Item;
pub use laws::file_is_read_once;
pub use reading::{FileView, read_file};
pub use writing::{file_text, write_frame, write_header};
