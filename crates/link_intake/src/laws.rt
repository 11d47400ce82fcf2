ghost use Rattle.link_intake.specs.Giving.{BundleIsGivenOnce, ItemsAreGivenOnce};
ghost use Rattle.link_intake.specs.UnionLaws.{MergeIsUnion, MergesInAnyOrder};

use link_text::{file_is_of_set, link_is_spelled_once};
use team_files::{bundle_is_read_once, file_is_read_once};

/// Items that are given to a team's links add their valid texts, where no names clash and all fits.
pub fn merge_is_union()
    ensures { MergeIsUnion }
{
    link_is_spelled_once();
}

/// Two files of one team to which the same valid texts were given, where no names clash and all fits, end as the same bytes:
/// whatever bundles were merged into each, and in whatever order and number these came.
pub fn merges_in_any_order()
    ensures { MergesInAnyOrder }
{
    link_is_spelled_once();
    file_is_of_set();
    file_is_read_once();
    bundle_is_read_once();
}

/// One thing alone becomes of items that are given to a held set.
pub fn items_are_given_once()
    ensures { ItemsAreGivenOnce }
{
    link_is_spelled_once();
}

/// One thing alone becomes of a bundle that is given to a held set.
pub fn bundle_is_given_once()
    ensures { BundleIsGivenOnce }
{
    items_are_given_once();
    bundle_is_read_once();
}
