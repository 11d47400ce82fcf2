ghost use Rattle.std.specs.Prelude.{List, ℕ};
ghost use Rattle.acts.specs.declared.entry.Act.{Act};
ghost use Rattle.outcomes.specs.Ending.{IsOne};
ghost use Rattle.author_commands.specs.Plain.{plains};
ghost use Rattle.author_commands.specs.Taken.{AuthoredIsTaken};

use link_text::link_is_spelled_once;
use openers::{key_is_found_once, team_is_found_once};

/// `plain` does one thing.
pub fn plain_is_one()
    ensures { (file key_file : List ℕ) (act : Act) → IsOne (plains file key_file act) }
{
    team_is_found_once();
    key_is_found_once();
}

/// A link that was planned and signed is never refused by a graph or a replica as too long, no link's text, another team's, unverified, or
/// for want of room.
pub fn authored_is_taken()
    ensures { AuthoredIsTaken }
{
    link_is_spelled_once();
}
