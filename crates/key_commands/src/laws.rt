ghost use Rattle.std.specs.Prelude.{List, ℕ};
ghost use Rattle.outcomes.specs.Ending.{IsOne};
ghost use Rattle.key_commands.specs.Make.{makes};
ghost use Rattle.key_commands.specs.MakeLaws.{MadeIsHeld};
ghost use Rattle.key_commands.specs.Newkey.{newkeys};

/// The file of a team that was just founded is a team file, which `show` and `merge` read.
pub fn made_is_held()
    ensures { MadeIsHeld }
{}

/// `newkey` does one thing.
pub fn newkey_is_one()
    ensures { (public_of : List ℕ → List ℕ) (key_file user : List ℕ) → IsOne (newkeys public_of key_file user) }
{}

/// `make` does one thing.
pub fn make_is_one()
    ensures { (public_of : List ℕ → List ℕ) (file key_file user title : List ℕ) → IsOne (makes public_of file key_file user title) }
{}
