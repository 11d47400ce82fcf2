//! The names of held links in ascending order.
ghost use Rattle.std.specs.Prelude.{◌≡◌, IfOk, OnOk};
ghost use Rattle.std.specs.List.Sorted.{IsPermutation, IsSorted};
ghost use Rattle.std.specs.Cmp.Lexicographic.{slice_cmp};
ghost use Rattle.std.specs.Ordering.{nat_cmp};
ghost use Rattle.team_sets.specs.Order.{names};
ghost use Rattle.team_sets.specs.OrderLaws.{IsSet};
ghost use Rattle.team_model.specs.Judging.{name_of};
ghost use Rattle.link_text.specs.LinkText.{Ascends};

use std::alloc::Global;
use team_model::Link;
use tg_text::{LinkName, Memory};

/// The names of links of which no two have one name, in ascending order.
pub fn ascending_names(alloc: Global, links: &[Link]) -> Result<Vec<LinkName>, Memory>
    requires set { IsSet name_of links.now }
    ensures ascend { IfOk result (λ ns. Ascends ns.items) }
    ensures same { IfOk result (λ ns. IsPermutation (names name_of links.now) ns.items) }
{
    let mut names = names_of(alloc, links)?;
    sort_names(&mut names)?;
    Ok(names)
}

fn sort_names(names: &mut Vec<LinkName>) -> Result<(), Memory>
    ensures sorted { OnOk result (IsSorted (slice_cmp nat_cmp) names.new.items) }
    ensures same { OnOk result (IsPermutation names.old.items names.new.items) }
{
    names.sort()?;
    Ok(())
}

fn names_of(alloc: Global, links: &[Link]) -> Result<Vec<LinkName>, Memory>
    ensures { IfOk result (λ ns. ns.items ≡ names name_of links.now) }
{
    let mut names = Vec::with_capacity(alloc, links.len())?;
    for link in links {
        names.push(link.name)?;
    }
    Ok(names)
}
