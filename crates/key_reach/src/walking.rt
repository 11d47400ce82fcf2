ghost use Rattle.std.specs.Prelude.{◌≡◌, ◌<◌, ◌==◌, ℕ, filter, fold, map, OnOk};
ghost use Rattle.std.specs.List.{All};
ghost use Rattle.std.specs.List.Sorted.{IsNonDecreasingBy};
ghost use Rattle.key_reach.specs.Numbers.{added, AreReached};

use crate::numbers::NumberSet;
use tg_text::Memory;

// Adds all that the members reach along arrows, which stand in the order of their tails. Each arrow is followed once.
pub(crate) fn walk(arrows: &[(usize, usize)], reached: &mut NumberSet) -> Result<(), Memory>
    requires rises { IsNonDecreasingBy (λ a. a.0) arrows.now }
    requires within { All (λ a. a.1 < reached.old.size) arrows.now }
    ensures size { reached.new.size ≡ reached.old.size }
    ensures reached { OnOk result (AreReached arrows.now reached.old.members reached.new.members) }
{
    let mut next = 0;
    while next < reached.len() {
        let tail = reached.as_slice()[next];
        add_heads(arrows_from(arrows, tail), reached)?;
        next += 1;
    }
    Ok(())
}

fn add_heads(arrows: &[(usize, usize)], reached: &mut NumberSet) -> Result<(), Memory>
    requires { All (λ a. a.1 < reached.old.size) arrows.now }
    ensures size { reached.new.size ≡ reached.old.size }
    ensures added { OnOk result (reached.new.members ≡ fold added reached.old.members (map (λ a. a.1) arrows.now)) }
{
    for (_, head) in arrows {
        reached.add(*head)?;
    }
    Ok(())
}

// The arrows with this tail: they stand side by side.
fn arrows_from(arrows: &[(usize, usize)], tail: usize) -> &[(usize, usize)]
    requires { IsNonDecreasingBy (λ a. a.0) arrows.now }
    ensures { result.now ≡ filter (λ a. a.0 == tail) arrows.now }
{
    let first = arrows.partition_point(|arrow| arrow.0 < tail);
    let rest = arrows.split_at(first).1;
    let count = rest.partition_point(|arrow| arrow.0 <= tail);
    rest.split_at(count).0
}
