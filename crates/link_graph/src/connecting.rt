//! Links connect: the one that came last, and then those that waited for it.
ghost use Rattle.std.specs.Prelude.{◌≡◌, ◌-◌, ◌++◌, ◌<◌, ◌^◌, [], ℕ, List, length, take, OnOk, OnErr};
ghost use Rattle.std.specs.Map.{keys_of};
ghost use Rattle.team_sets.specs.Order.{order_after};
ghost use Rattle.team_sets.specs.OrderLaws.{IsSet};
ghost use Rattle.team_sets.specs.ArrivalLaws.{AllConnected};
ghost use Rattle.team_model.specs.Judging.{name_of, prev_of};
ghost use Rattle.link_graph.specs.Children.{HasChildren};
ghost use Rattle.link_graph.specs.Positions.{HasEntries, IsReady, linked};

use crate::children::Children;
use crate::connected::Connected;
use crate::holding::Holding;
use crate::ready::add_ready;
use std::alloc::Global;
use std::collections::BTreeSet;
use tg_text::{LinkName, Memory};

/// Connects what may follow those connected, each time the one of least name. `ready` has all that may be next. Where memory is
/// short, some have connected.
fn connect_ready(
    holding: &Holding,
    children: &Children,
    connected: &mut Connected,
    ready: &mut BTreeSet<LinkName>,
) -> Result<(), Memory>
    requires few { length holding.now < 2 ^ 32 }
    requires set { IsSet name_of holding.now }
    requires children { HasChildren holding.now children.now.lists }
    requires entries { HasEntries holding.now connected.old }
    requires ready { IsReady holding.now (keys_of connected.old) ready.old.keys }
    ensures entries { OnOk result (HasEntries holding.now connected.new) }
    ensures follow { OnOk result (linked holding.now connected.new ≡ linked holding.now connected.old ++ order_after name_of prev_of (length holding.now) (linked holding.now connected.old) holding.now) }
    ensures grown { (more : List (List ℕ × ℕ)) × (connected.new ≡ connected.old ++ more) }
{
    for _ in 0..holding.len() {
        let Some(name) = ready.pop_first() else {
            return Ok(());
        };
        connected.push(&name, holding.place_of(&name) as u32)?;
        add_ready(holding.links(), connected, children.of(&name), ready)?;
    }
    Ok(())
}

// Connects the link that came last, if it may, and those that waited for it. Where memory is short, some have connected.
fn connect_from_last(
    alloc: Global,
    holding: &Holding,
    children: &Children,
    connected: &mut Connected,
) -> Result<(), Memory>
    requires few { length holding.now < 2 ^ 32 }
    requires some { 0 < length holding.now }
    requires set { IsSet name_of holding.now }
    requires children { HasChildren holding.now children.now.lists }
    requires entries { HasEntries holding.now connected.old }
    requires others { AllConnected name_of prev_of (take (length holding.now - 1) holding.now) (linked holding.now connected.old) }
    ensures entries { OnOk result (HasEntries holding.now connected.new) }
    ensures follow { OnOk result (linked holding.now connected.new ≡ linked holding.now connected.old ++ order_after name_of prev_of (length holding.now) (linked holding.now connected.old) holding.now) }
    ensures grown { (more : List (List ℕ × ℕ)) × (connected.new ≡ connected.old ++ more) }
{
    let mut ready = BTreeSet::new(alloc);
    let last = holding.len() - 1;
    add_ready(holding.links(), connected, &[last as u32], &mut ready)?;
    connect_ready(holding, children, connected, &mut ready)
}

/// Connects the link that came last, if it may, and those that waited for it. Of the others none may connect before it does.
pub(crate) fn connect(
    alloc: Global,
    holding: &Holding,
    children: &Children,
    connected: &mut Connected,
) -> Result<(), Memory>
    requires few { length holding.now < 2 ^ 32 }
    requires some { 0 < length holding.now }
    requires set { IsSet name_of holding.now }
    requires children { HasChildren holding.now children.now.lists }
    requires entries { HasEntries holding.now connected.old }
    requires others { AllConnected name_of prev_of (take (length holding.now - 1) holding.now) (linked holding.now connected.old) }
    ensures entries { OnOk result (HasEntries holding.now connected.new) }
    ensures follow { OnOk result (linked holding.now connected.new ≡ linked holding.now connected.old ++ order_after name_of prev_of (length holding.now) (linked holding.now connected.old) holding.now) }
    ensures grown { (more : List (List ℕ × ℕ)) × (connected.new ≡ connected.old ++ more) }
    ensures err { OnErr result (connected.new ≡ connected.old) }
{
    let before = connected.len();
    match connect_from_last(alloc, holding, children, connected) {
        Ok(()) => Ok(()),
        Err(memory) => {
            connected.truncate(before);
            Err(memory)
        }
    }
}
