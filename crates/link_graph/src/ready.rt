//! The links that may connect next.
ghost use Rattle.std.specs.Prelude.{◌≡◌, ◌<◌, ◌||◌, ◌&&◌, ℕ, List, All, length, OnOk};
ghost use Rattle.std.specs.List.{list_any};
ghost use Rattle.std.specs.Map.{keys_of};
ghost use Rattle.team_sets.specs.Names.{has_name, same_name};
ghost use Rattle.link_graph.specs.Positions.{at_places, may_stand};

use crate::connected::Connected;
use std::collections::BTreeSet;
use team_model::Link;
use tg_text::{LinkName, Memory};

/// Adds the names of those of the links at the places that may connect now.
pub(crate) fn add_ready(
    links: &[Link],
    connected: &Connected,
    places: &[u32],
    ready: &mut BTreeSet<LinkName>,
) -> Result<(), Memory>
    requires range { All (λ i. i < length links.now) places.now }
    ensures ok { OnOk result ((n : List ℕ) → has_name ready.new.keys n ≡ (has_name ready.old.keys n || list_any (λ z. same_name z.name n && may_stand (keys_of connected.now) z) (at_places links.now places.now))) }
{
    for &place in places {
        let link = &links[place as usize];
        if connected.may_stand(link) {
            ready.insert(link.name)?;
        }
    }
    Ok(())
}
