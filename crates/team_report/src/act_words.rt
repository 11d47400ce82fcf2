ghost use Rattle.std.specs.Prelude.{◌≡◌};
ghost use Rattle.acts.specs.ActText.{act_word};

use acts::Act;

/// The word with which the text of an act begins.
pub(crate) fn act_word(act: &Act) -> &'static str
    ensures { result.now ≡ act_word act.now }
{
    match act {
        Act::Found { .. } => "found",
        Act::AddMember { .. } => "add_member",
        Act::RemoveMember { .. } => "remove_member",
        Act::AddRole { .. } => "add_role",
        Act::RemoveRole { .. } => "remove_role",
        Act::GiveRole { .. } => "give_role",
        Act::TakeRole { .. } => "take_role",
        Act::AddDevice { .. } => "add_device",
        Act::RemoveDevice { .. } => "remove_device",
        Act::InviteMember { .. } => "invite_member",
        Act::InviteDevice { .. } => "invite_device",
        Act::Revoke { .. } => "revoke",
        Act::AdmitMember { .. } => "admit_member",
        Act::AdmitDevice { .. } => "admit_device",
        Act::Rotate { .. } => "rotate",
        Act::Seal => "seal",
        Act::Title { .. } => "title",
        Act::Join => "join",
    }
}
