//! Laws on plans. The functions do nothing.
ghost use Rattle.team_plans.specs.OwingLaws.{OwesAsDebtsSay};
ghost use Rattle.team_plans.specs.PlanLaws.{NothingIsSettled, PlannedLinesFit, PlansInTeamsOweNothing, PlansOweNothing};
ghost use Rattle.team_plans.specs.Renaming.{PlansAreAlike};
ghost use Rattle.team_plans.specs.Touching.{PlansFewKeys, TaintsOneUser};

/// A planned act leaves a team without debts, and without a box that lacks, where it was so before, the author's device stays listed,
/// the author may give a next key to each scope that is left without a clean one, and there is room for the boxes. It is so before a
/// team is founded.
pub fn plans_owe_nothing()
    ensures start { NothingIsSettled }
    ensures states { PlansOweNothing }
    ensures teams { PlansInTeamsOweNothing }
{}

/// No planned line is left, where there is room for the boxes.
pub fn planned_lines_fit()
    ensures { PlannedLinesFit }
{}

/// An act taints anew the keys of one user at most, and so a plan has at most 34 `new` lines.
pub fn plans_are_short()
    ensures taint { TaintsOneUser }
    ensures keys { PlansFewKeys }
{}

/// A scope that is no device's owes exactly what the debts of its state say of it.
pub fn owed_is_among_debts()
    ensures { OwesAsDebtsSay }
{}

/// A plan is the same with other publics, but for the new keys that bear them. So what it is refused for is known before a secret is drawn.
pub fn plans_are_alike()
    ensures { PlansAreAlike }
{}
