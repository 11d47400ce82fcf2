ghost use Rattle.std.specs.Prelude.{List, ℕ};
ghost use Rattle.outcomes.specs.Ending.{IsOne};
ghost use Rattle.exchange_commands.specs.Meet.{meets};
ghost use Rattle.exchange_commands.specs.Merge.{merges};

use head_sync::meeting_is_one;
use link_intake::bundle_is_given_once;
use openers::team_is_found_once;

/// `merge` does one thing.
pub fn merge_is_one()
    ensures { (file bundle : List ℕ) → IsOne (merges file bundle) }
{
    team_is_found_once();
    bundle_is_given_once();
}

/// `meet` does one thing.
pub fn meet_is_one()
    ensures { (file other : List ℕ) → IsOne (meets file other) }
{
    team_is_found_once();
    meeting_is_one();
}
