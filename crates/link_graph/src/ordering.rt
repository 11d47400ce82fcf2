//! The order of the team, kept by insertion.
ghost use Rattle.std.specs.Prelude.{◌≡◌, ◌<◌, ◌≤◌, All, length, insert, OnOk};
ghost use Rattle.std.specs.Map.{keys_of};
ghost use Rattle.std.specs.Vec.{vec_capacity};
ghost use Rattle.team_sets.specs.Names.{has_name, name_lt};
ghost use Rattle.link_graph.specs.Lines.{place_index};
ghost use Rattle.link_graph.specs.Positions.{at_places};

use crate::connected::Connected;
use team_model::Link;
use tg_text::LinkName;

pub(crate) fn has_name(names: &[LinkName], name: &LinkName) -> bool
    ensures { result ≡ has_name names.now name.now }
{
    names.contains(name)
}

pub(crate) fn is_before(a: &LinkName, b: &LinkName) -> bool
    ensures { result ≡ name_lt a.now b.now }
{
    a.cmp(b).is_lt()
}

/// Where a link goes among the positions of an order: before the first that stands after all its parents and has a greater name,
/// or last.
pub(crate) fn place_in_order(connected: &Connected, order: &[u32], link: &Link) -> usize
    requires given { All (λ p. p < length connected.now) order.now }
    ensures place { result ≡ place_index link.now (at_places (keys_of connected.now) order.now) }
    ensures bound { result ≤ length order.now }
{
    let mut place = order.len();
    let mut i = order.len();
    while i > 0 {
        i -= 1;
        let name = connected.name_at(order[i] as usize);
        if has_name(link.prev.as_slice(), name) {
            return place;
        }
        if !is_before(name, &link.name) {
            place = i;
        }
    }
    place
}
