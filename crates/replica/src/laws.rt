ghost use Rattle.replica.specs.Counting.{CountingLinksAreRight};
ghost use Rattle.replica.specs.Removals.{RemovalsAreRight};

use strikes::{
    gives_back, outranked_by_standing, resolved_unless_struck, seen_is_kept, senior_stands,
    struck_by_standing, unlawful_has_no_effect,
};
use team_model::{counting_is_right, standers_are_apart};

/// Each link that counts verifies, by a device that is listed for its author at its turn, where it is permitted; and no standing removal
/// strikes it.
pub fn counting_links_are_right()
    ensures { CountingLinksAreRight }
{
    counting_is_right();
}

/// Each struck link is struck by the lawful removal that its verdict names, which stands and was written beside it; what a removal had
/// seen stays. A removal stands, unless a more senior one that stands takes it out, and no two that stand strike each other. An unlawful
/// link has no effect. What no standing removal strikes is resolved, and comes back where a removal that comes late takes out what alone
/// had struck it.
pub fn removals_are_right()
    ensures { RemovalsAreRight }
{
    struck_by_standing();
    outranked_by_standing();
    seen_is_kept();
    senior_stands();
    standers_are_apart();
    unlawful_has_no_effect();
    resolved_unless_struck();
    gives_back();
}
