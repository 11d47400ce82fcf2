//! Laws on reach, entitled scopes and debts, and a worked table. The functions do nothing.
ghost use Rattle.std.specs.Prelude.{◌≡◌, ◌↔◌, List, true};
ghost use Rattle.team_sets.specs.Closure.{has, Reaches};
ghost use Rattle.tg_text.specs.declared.keys.BoxLine.{BoxLine};
ghost use Rattle.tg_text.specs.declared.keys.KeyId.{KeyId};
ghost use Rattle.key_reach.specs.DebtLaws.{DebtsWithoutKeys};
ghost use Rattle.key_reach.specs.EntitledLaws.{EntitledIsLeast};
ghost use Rattle.key_reach.specs.Keys.{box_arrows, reach, same_key};
ghost use Rattle.key_reach.specs.Rows.{LackingRow, ListedRow, UnlistedRow};

/// A key is reached exactly where it is given, or is the content of a box to a key that is reached.
pub fn reach_is_least()
    ensures { (boxes : List BoxLine) (from : List KeyId) (k : KeyId) → (has same_key (reach boxes from) k ≡ true) ↔ Reaches (box_arrows boxes) from k }
{}

/// A device is entitled to the scopes that it meets by allowed arrows from its own, and each set that has its own scope and is
/// closed under allowed arrows has all of them.
pub fn entitled_is_least()
    ensures { EntitledIsLeast }
{}

/// Where no box is held and devices alone have keys, what is owed is a key for each other live scope.
pub fn debts_without_keys()
    ensures { DebtsWithoutKeys }
{}

/// A user with two devices; the same with one unlisted; and the same with a box too few.
pub fn worked_keys()
    ensures listed { ListedRow }
    ensures unlisted { UnlistedRow }
    ensures lacking { LackingRow }
{}
