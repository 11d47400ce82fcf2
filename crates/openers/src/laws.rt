ghost use Rattle.std.specs.Prelude.{◌≡◌, List, ℕ, Option};
ghost use Rattle.link_graph.specs.Held.{Held};
ghost use Rattle.outcomes.specs.Refusing.{Found};
ghost use Rattle.lms_keep.specs.declared.key_state.KeyState.{KeyState};
ghost use Rattle.openers.specs.Key.{FindsKey};
ghost use Rattle.openers.specs.Team.{FindsTeam};

use lms_keep::key_is_spelled_once;
use team_files::file_is_read_once;

/// One thing is found of a file that is to be a team's.
pub fn team_is_found_once()
    ensures { (file : Option (List ℕ)) (x y : Found Held) → FindsTeam file x → FindsTeam file y → x ≡ y }
{
    file_is_read_once();
}

/// One thing is found of a file that is to be a key's.
pub fn key_is_found_once()
    ensures { (file : Option (List ℕ)) (x y : Found KeyState) → FindsKey file x → FindsKey file y → x ≡ y }
{
    key_is_spelled_once();
}
