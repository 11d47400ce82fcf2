ghost use Rattle.team_plans.specs.PlanRows.{DevicePlanRow, FoundingPlanRow, OtherPlansRow, RemovalPlanRow, RepairRow, RolePlanRow};

/// Worked plans: of the act that founds a team, a further device, a removal, a role, and a rotation.
#[tactic(auto, unfolding(team_model::specs::KeyLines::lined, team_model::specs::KeyLines::with_lines))]
pub fn worked_plans()
    ensures founding { FoundingPlanRow }
    ensures device { DevicePlanRow }
    ensures removal { RemovalPlanRow }
    ensures role { RolePlanRow }
    ensures others { OtherPlansRow }
{}

/// Worked repairs.
pub fn worked_repairs()
    ensures { RepairRow }
{}
