ghost use Rattle.std.specs.Prelude.{List, ℕ};
ghost use Rattle.team_sets.specs.Names.{Name};
ghost use Rattle.lockboxes.specs.Keeping.{Keeper};
ghost use Rattle.outcomes.specs.Ending.{IsOne};
ghost use Rattle.report_commands.specs.Heads.{lists_heads};
ghost use Rattle.report_commands.specs.Keys.{lists_keys};
ghost use Rattle.report_commands.specs.Log.{logs};
ghost use Rattle.report_commands.specs.Show.{shows};
ghost use Rattle.report_commands.specs.Why.{explains};

use openers::{key_is_found_once, team_is_found_once};

/// `show` does one thing.
pub fn show_is_one()
    ensures { (file : List ℕ) → IsOne (shows file) }
{
    team_is_found_once();
}

/// `log` does one thing.
pub fn log_is_one()
    ensures { (file : List ℕ) → IsOne (logs file) }
{
    team_is_found_once();
}

/// `heads` does one thing.
pub fn heads_is_one()
    ensures { (file : List ℕ) → IsOne (lists_heads file) }
{
    team_is_found_once();
}

/// `why` does one thing.
pub fn why_is_one()
    ensures { (file : List ℕ) (name : Name) → IsOne (explains file name) }
{
    team_is_found_once();
}

/// `keys` does one thing.
pub fn keys_is_one()
    ensures { (keeper : Keeper) (file key_file : List ℕ) → IsOne (lists_keys keeper file key_file) }
{
    team_is_found_once();
    key_is_found_once();
}
