ghost use Rattle.strikes.specs.Noted.{NotedIsLeast};
ghost use Rattle.strikes.specs.RemovalLaws.{GivesBack, OutrankedByStanding, ResolvedUnlessStruck, SeenIsKept, SeniorStands, StandingAreResolved, StruckByStanding, UnlawfulHasNoEffect};
ghost use Rattle.strikes.specs.RemovalRows.{AdmissionStruckRow, BranchesRow, DeviceStruckRow, GiftStruckRow, InvitationStruckRow, JuniorBranchRow, LeavingRow, OutsiderRow, SeenRow, SeniorBranchRow, StruckGiftRow};

/// What is kept when places are noted one by one is the least of those noted for each user.
pub fn noted_is_least()
    ensures { NotedIsLeast }
{}

/// A struck link is lawful, and what strikes it is a lawful removal that stands and was written beside it, the one that its verdict
/// names. Where the link is a removal itself, that one is more senior.
pub fn struck_by_standing()
    ensures { StruckByStanding }
{}

/// An outranked link is a lawful removal that strikes a more senior one, the one that its verdict names, which is lawful, stands and
/// doesn't strike it.
pub fn outranked_by_standing()
    ensures { OutrankedByStanding }
{}

/// What a removal had seen stays: neither a struck link nor the removal that its verdict names is in the past of the other.
pub fn seen_is_kept()
    ensures { SeenIsKept }
{}

/// A removal stands, unless one that stands and is more senior takes it out.
pub fn senior_stands()
    ensures { SeniorStands }
{}

/// An unlawful link strikes nothing and isn't resolved, and each user's seniority is given by another link, where he has one.
pub fn unlawful_has_no_effect()
    ensures { UnlawfulHasNoEffect }
{}

/// What isn't a removal is resolved exactly where no standing removal strikes it, and a removal where it stands.
pub fn resolved_unless_struck()
    ensures others { ResolvedUnlessStruck }
    ensures removals { StandingAreResolved }
{}

/// Where a larger set has a removal that takes others out, what they alone had struck is resolved again.
pub fn gives_back()
    ensures { GivesBack }
{}

/// Removals over three branches, by who is the most senior.
#[tactic(auto, unfolding(team_model::specs::KeyLines::lined, team_model::specs::KeyLines::with_lines))]
pub fn worked_branches()
    ensures ann { BranchesRow }
    ensures cy { JuniorBranchRow }
    ensures bo { SeniorBranchRow }
{}

/// A removal that has seen an addition and one that hasn't, a gift that is struck beside its use, an outsider, and one who leaves.
#[tactic(auto, unfolding(team_model::specs::KeyLines::lined, team_model::specs::KeyLines::with_lines))]
pub fn worked_removals()
    ensures seen { SeenRow }
    ensures gift { StruckGiftRow }
    ensures outsider { OutsiderRow }
    ensures leaving { LeavingRow }
{}

/// What a removed device and a taken role strike.
#[tactic(auto, unfolding(team_model::specs::KeyLines::lined, team_model::specs::KeyLines::with_lines))]
pub fn worked_strikes()
    ensures device { DeviceStruckRow }
    ensures role { GiftStruckRow }
{}

/// What becomes of invitations and admissions beside a removal.
#[tactic(auto, unfolding(team_model::specs::KeyLines::lined, team_model::specs::KeyLines::with_lines, tg_text::specs::Spelling::number_at))]
pub fn worked_invitations()
    ensures invitations { InvitationStruckRow }
    ensures admissions { AdmissionStruckRow }
{}
