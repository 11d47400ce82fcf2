//! The heads: the names of those connected links that are no connected link's parent, in ascending order.
ghost use Rattle.std.specs.Prelude.{◌≡◌, ◌+◌, ◌<◌, ◌≤◌, length};
ghost use Rattle.std.specs.Vec.{vec_capacity, vec_len};
ghost use Rattle.link_graph.specs.Heads.{heads_with, place_before, without};

use crate::inserting::insert_within;
use crate::ordering::{has_name, is_before};
use team_model::Link;
use tg_text::LinkName;

/// Takes away the names of parents.
fn remove_parents(heads: &mut Vec<LinkName>, parents: &[LinkName])
    ensures names { heads.new.items ≡ without parents.now heads.old.items }
    ensures len { vec_len heads.new ≤ vec_len heads.old }
    ensures room { vec_capacity heads.new ≡ vec_capacity heads.old }
{
    heads.retain(|head| !has_name(parents, head));
}

/// The place of a name among names that ascend: before the first that is greater.
fn place_of(heads: &[LinkName], name: &LinkName) -> usize
    ensures place { result ≡ place_before name.now heads.now }
    ensures bound { result ≤ length heads.now }
{
    for (place, head) in heads.iter().enumerate() {
        if is_before(name, head) {
            return place;
        }
    }
    heads.len()
}

/// Adds a link that connects now, in place of those of its parents that are heads. There is room for it.
pub(crate) fn add_head(heads: &mut Vec<LinkName>, link: &Link)
    requires room { vec_len heads.old < vec_capacity heads.old }
    ensures heads { heads.new.items ≡ heads_with heads.old.items link.now }
    ensures len { vec_len heads.new ≤ vec_len heads.old + 1 }
    ensures room { vec_capacity heads.old ≤ vec_capacity heads.new }
{
    remove_parents(heads, link.prev.as_slice());
    let place = place_of(heads, &link.name);
    insert_within(heads, place, link.name);
}
