ghost use Rattle.std.specs.Prelude.{ℕ, List};
ghost use Rattle.ancestry.specs.Examples.{DiamondRow};
ghost use Rattle.ancestry.specs.Renaming.{RenamedStandAlike};

/// Links that get other names stand to each other as before. So links stand to each other as their positions do.
pub fn renamed_stand_alike<T, U>()
    ensures { (name : T → List ℕ) (prev : T → List (List ℕ)) (other_name : U → List ℕ) (other_prev : U → List (List ℕ)) → RenamedStandAlike name prev other_name other_prev }
{}

/// A diamond of four positions: what is before what, what is beside what, and heights.
pub fn worked_ancestry()
    ensures { DiamondRow }
{}
