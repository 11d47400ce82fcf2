ghost use Rattle.std.specs.Prelude.{◌≡◌, ◌+◌};
ghost use Rattle.team_sets.specs.Closure.{has};
ghost use Rattle.key_reach.specs.Keys.{current_keys, same_key};
ghost use Rattle.team_model.specs.KeyLines.{next_generation};
ghost use Rattle.team_model.specs.KeyTables.{key_table};

use crate::state::TeamState;
use key_reach::KeyTable;
use tg_text::{KeyId, Scope};

impl TeamState {
    /// The generation of a scope's next key: 0 where it never had a key, and else one more than that of its current one.
    pub fn next_generation(&self, scope: &Scope) -> u32
        ensures { result ≡ next_generation self.now scope.now }
    {
        match self.current_key(scope) {
            Some(key) => generation_after(key),
            None => 0,
        }
    }

    /// Whether a key is the current one of a live scope.
    pub fn is_current(&self, key: &KeyId) -> bool
        ensures { result ≡ has same_key (current_keys (key_table self.now)) key.now }
    {
        match self.current_key(&key.scope) {
            Some(current) => is_same_key(current, key) && self.live(&key.scope),
            None => false,
        }
    }
}

fn generation_after(key: &KeyId) -> u32
    ensures { result ≡ key.now.generation + 1 }
{
    u32::from(key.generation) + 1
}

fn is_same_key(key: &KeyId, other: &KeyId) -> bool
    ensures { result ≡ same_key key.now other.now }
{
    key.cmp(other).is_eq()
}
