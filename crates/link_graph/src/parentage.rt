//! The ancestry of the connected links, by position.
ghost use Rattle.std.specs.Prelude.{◌≡◌, ◌≤◌, ◌<◌, ◌^◌, ◌++◌, ◌∷◌, [], false, length, filter_map, position, take, IfOk, OnErr, OnOk};
ghost use Rattle.std.specs.Map.{keys_of};
ghost use Rattle.tg_text.specs.Limits.{most_links};
ghost use Rattle.team_sets.specs.Names.{has_name, same_name};
ghost use Rattle.team_sets.specs.Order.{names};
ghost use Rattle.team_sets.specs.OrderLaws.{ParentsFirst};
ghost use Rattle.team_model.specs.Judging.{name_of, prev_of};
ghost use Rattle.link_text.specs.LinkText.{text};
ghost use Rattle.link_graph.specs.Held.{answer_of, arrived_of};
ghost use Rattle.link_graph.specs.Parentage.{parents_in};
ghost use Rattle.link_graph.specs.Positions.{HasEntries, linked};
ghost use Rattle.link_graph.specs.Webs.{IsWeb};

use crate::connected::{Connected, link_of};
use crate::took::Took;
use crate::web::Web;
use ancestry::Ancestry;
use std::alloc::Global;
use team_model::Link;
use tg_text::{LinkName, Memory};

// Adds the position of the link of this name, if it is connected.
fn push_position(
    positions: &mut Vec<u32>,
    connected: &Connected,
    name: &LinkName,
) -> Result<(), Memory>
    requires few { length connected.now < 2 ^ 32 }
    ensures { OnOk result (positions.new.items ≡ positions.old.items ++ filter_map (λ n. position (same_name n) (keys_of connected.now)) (name.now ∷ [])) }
{
    if let Some(position) = connected.position(name) {
        positions.push(position as u32)?;
    }
    Ok(())
}

/// The positions of those of these names that are connected.
fn positions_of(
    alloc: Global,
    connected: &Connected,
    names: &[LinkName],
) -> Result<Vec<u32>, Memory>
    requires few { length connected.now < 2 ^ 32 }
    ensures { IfOk result (λ positions. positions.items ≡ filter_map (λ n. position (same_name n) (keys_of connected.now)) names.now) }
{
    let mut positions = Vec::new(alloc);
    for name in names {
        push_position(&mut positions, connected, name)?;
    }
    Ok(positions)
}

/// Adds the links of the further positions, up to where memory ends.
fn add_further(
    alloc: Global,
    ancestry: &mut Ancestry,
    links: &[Link],
    connected: &Connected,
) -> Result<(), Memory>
    requires few { length connected.now ≤ most_links }
    requires entries { HasEntries links.now connected.now }
    requires first { ParentsFirst name_of prev_of [] (linked links.now connected.now) }
    requires so_far { ancestry.old ≡ take (length ancestry.old) (parents_in (linked links.now connected.now)) }
    ensures kept { ancestry.old ≡ take (length ancestry.old) ancestry.new }
    ensures ok { OnOk result (ancestry.new ≡ parents_in (linked links.now connected.now)) }
{
    for position in ancestry.len()..connected.len() {
        let link = link_of(links, connected.place_at(position));
        let parents = positions_of(alloc, connected, link.prev.as_slice())?;
        let _ = ancestry.add(&parents)?;
    }
    Ok(())
}

/// Adds the links of the further positions. Where memory is short all is as before.
fn add_connected(
    alloc: Global,
    ancestry: &mut Ancestry,
    links: &[Link],
    connected: &Connected,
) -> Result<(), Memory>
    requires few { length connected.now ≤ most_links }
    requires entries { HasEntries links.now connected.now }
    requires first { ParentsFirst name_of prev_of [] (linked links.now connected.now) }
    requires so_far { ancestry.old ≡ take (length ancestry.old) (parents_in (linked links.now connected.now)) }
    ensures ok { OnOk result (ancestry.new ≡ parents_in (linked links.now connected.now)) }
    ensures err { OnErr result (ancestry.new ≡ ancestry.old) }
{
    let before = ancestry.len();
    match add_further(alloc, ancestry, links, connected) {
        Ok(()) => Ok(()),
        Err(memory) => {
            ancestry.truncate(before);
            Err(memory)
        }
    }
}

/// Puts a link of a new name into the web, and what connects by it into the ancestry. Where memory is short all is as before.
pub(crate) fn put_with_parents(
    alloc: Global,
    web: &mut Web,
    ancestry: &mut Ancestry,
    bytes: &[u8],
    link: Link,
) -> Result<Took, Memory>
    requires few { length web.old.holding < most_links }
    requires text { bytes.now ≡ text link }
    requires fresh { has_name (names name_of web.old.holding) link.name ≡ false }
    requires web { IsWeb web.old }
    requires parents { ancestry.old ≡ parents_in (arrived_of web.old.holding) }
    ensures web { IsWeb web.new }
    ensures parents { ancestry.new ≡ parents_in (arrived_of web.new.holding) }
    ensures ok { OnOk result (web.new.holding ≡ web.old.holding ++ link ∷ []) }
    ensures answer { IfOk result (λ took. took ≡ answer_of web.old.holding (web.old.holding ++ link ∷ [])) }
    ensures err { OnErr result (web.new.holding ≡ web.old.holding) }
{
    let before = web.connected.len();
    let took = web.put(alloc, bytes, link)?;
    match add_connected(alloc, ancestry, web.holding.links(), &web.connected) {
        Ok(()) => Ok(took),
        Err(memory) => {
            web.take_out(before);
            Err(memory)
        }
    }
}
