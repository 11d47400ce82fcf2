ghost use Rattle.team_model.specs.ActRows.{AdmissionRow, AdmittedRow, DeviceAdmissionRow, DeviceRow, FoundingRow, GiftRow, InvitationRow, ListedRow, ManyInvitationsRow, NewcomerRow, OpenedOnceRow, RemovalRow, RevocationRow, RoleRow, RotationRow, TitleRow};
ghost use Rattle.team_model.specs.CountingLaws.{CountingAreByListed, CountingIsRight, RankIsDefined, StandersAreApart, TeamRulesBringIn};
ghost use Rattle.team_model.specs.DebtLaws.{KeylessOweEachKey};
ghost use Rattle.team_model.specs.Examples.{ArrivalRow, LateRow, ReefRow, RingRow, ShownRow, TwiceRow, TwoRow, WaitingRow};
ghost use Rattle.team_model.specs.JudgingLaws.{LawfulStays, MeaningIsOfOrder, MeaningIsOfSet, NoneIsStruck, TeamIsFold, TeamOfPast, TextIsOfSet, WaitingHaveNoEffect};

/// The team of a set of links is the fold over its resolved list, and a link is lawful by the team of its past.
pub fn team_is_fold()
    ensures { TeamIsFold }
{}

/// Whether a connected link is lawful never changes when another link comes.
pub fn lawful_stays()
    ensures { LawfulStays }
{}

/// The team of a connected link's past is the fold over what stays of its lawful ancestors.
pub fn team_of_past()
    ensures { TeamOfPast }
{}

/// Where none of the lawful links strikes, none of them is struck.
pub fn none_is_struck()
    ensures { NoneIsStruck }
{}

/// A link counts exactly where it is connected and lawful, stands, isn't struck and is permitted at its turn; and then it is by
/// a device that is listed for its author there, or founds the team.
pub fn counting_is_right()
    ensures exactly { CountingIsRight }
    ensures listed { CountingAreByListed }
{}

/// No standing striker strikes another.
pub fn standers_are_apart()
    ensures { StandersAreApart }
{}

/// The user of each lawful link was brought in by a lawful link, so each rank is defined, by the rules of a team and any others
/// that list nobody who isn't brought in.
pub fn rank_is_defined()
    ensures team { TeamRulesBringIn }
    ensures defined { RankIsDefined }
{}

/// Two sets with one order mean the same: one team, and of the connected links the same places, strikes and verdicts.
pub fn meaning_is_of_order()
    ensures { MeaningIsOfOrder }
{}

/// Links that wait have no effect.
pub fn waiting_have_no_effect()
    ensures { WaitingHaveNoEffect }
{}

/// Two lists of the same links, in whatever order, mean the same.
pub fn meaning_is_of_set()
    ensures { MeaningIsOfSet }
{}

/// Two lists of the same links, in whatever order, mean the same to a team and have one text of show.
pub fn text_is_of_set()
    ensures { TextIsOfSet }
{}

/// Where no key line was taken, a key is owed for the team, each role and each user, and nothing else.
pub fn keyless_owe_each_key()
    ensures { KeylessOweEachKey }
{}

/// A root, titles beside each other, a join, a stranger's title, and a link that waits: the team and what became of each.
#[tactic(auto, unfolding(crate::specs::KeyLines::lined, crate::specs::KeyLines::with_lines))]
pub fn worked_team()
    ensures { ReefRow }
{}

/// Two links beside each other that list the same role: one counts, and the other is refused at its turn.
#[tactic(auto, unfolding(crate::specs::KeyLines::lined, crate::specs::KeyLines::with_lines))]
pub fn worked_refusal()
    ensures { TwiceRow }
{}

/// What is shown of a first team, of an empty one, and of links that wait until their root comes.
pub fn worked_show()
    ensures first { ShownRow }
    ensures waiting { WaitingRow }
{}

/// Links that waited connect with the one that they waited for, parents first and then by name.
pub fn worked_arrival()
    ensures { ArrivalRow }
{}

/// The rows of the act table, each with its reasons in their order: who founds, who is listed, who comes and goes.
#[tactic(auto, unfolding(crate::specs::KeyLines::lined, crate::specs::KeyLines::with_lines))]
pub fn worked_members()
    ensures founding { FoundingRow }
    ensures listed { ListedRow }
    ensures newcomers { NewcomerRow }
    ensures removals { RemovalRow }
{}

/// The rows on roles: new ones and old ones, given and taken.
#[tactic(auto, unfolding(crate::specs::KeyLines::lined, crate::specs::KeyLines::with_lines))]
pub fn worked_roles()
    ensures roles { RoleRow }
    ensures gifts { GiftRow }
{}

/// The rows on devices, rotations and titles.
#[tactic(auto, unfolding(crate::specs::KeyLines::lined, crate::specs::KeyLines::with_lines))]
pub fn worked_devices()
    ensures devices { DeviceRow }
    ensures rotations { RotationRow }
    ensures titles { TitleRow }
{}

/// The rows on invitations: opened and revoked.
#[tactic(auto, unfolding(crate::specs::KeyLines::lined, crate::specs::KeyLines::with_lines))]
pub fn worked_invitations()
    ensures invitations { InvitationRow }
    ensures once { OpenedOnceRow }
    ensures many { ManyInvitationsRow }
    ensures revocations { RevocationRow }
{}

/// The rows on admissions, by invitations of members and of devices.
#[tactic(auto, unfolding(crate::specs::KeyLines::lined, crate::specs::KeyLines::with_lines, tg_text::specs::Spelling::number_at))]
pub fn worked_admissions()
    ensures refusals { AdmissionRow }
    ensures effect { AdmittedRow }
    ensures devices { DeviceAdmissionRow }
{}

/// Two admins who remove each other, three who do so in a ring, and a removal that comes late.
#[tactic(auto, unfolding(crate::specs::KeyLines::lined, crate::specs::KeyLines::with_lines))]
pub fn worked_removals()
    ensures two { TwoRow }
    ensures ring { RingRow }
    ensures late { LateRow }
{}
