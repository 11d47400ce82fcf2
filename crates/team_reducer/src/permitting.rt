ghost use Rattle.std.specs.Prelude.{◌≡◌, ◌&&◌, not, [], ◌∷◌};
ghost use Rattle.std.specs.Result.{result_err};
ghost use Rattle.sha2.specs.Sha256.{sha256};
ghost use Rattle.team_model.specs.ActTable.{first_reason, is_found, refusal, row_of};
ghost use Rattle.team_model.specs.State.{lists_device, lists_user};

use crate::inviting::{
    ask_admit_device, ask_admit_member, ask_invite, ask_invite_member, ask_revoke,
};
use crate::rows::{
    ask_add_device, ask_add_member, ask_add_role, ask_found, ask_give_role, ask_remove_device,
    ask_remove_member, ask_remove_role, ask_rotate, ask_take_role, ask_title, refuse_if,
};
use acts::{Act, Entry};
use team_model::Reason;
use team_state::TeamState;

/// Why an entry is refused in a state, if it is: the first reason of the act table that applies. It takes no memory.
pub fn permits(state: &TeamState, entry: &Entry) -> Result<(), Reason>
    ensures { result_err result ≡ refusal state.now entry.now }
{
    if is_found(&entry.act) {
        return ask_row(state, entry);
    }
    refuse_stranger(state, entry)?;
    ask_row(state, entry)
}

fn is_found(act: &Act) -> bool
    ensures { result ≡ is_found act.now }
{
    matches!(act, Act::Found { .. })
}

// An author who isn't listed is refused, and one who writes by a device that isn't listed for him.
fn refuse_stranger(state: &TeamState, entry: &Entry) -> Result<(), Reason>
    ensures { result_err result ≡ first_reason ((not (lists_user state.now entry.now.user && lists_device state.now entry.now.user entry.now.device), Reason.NotListed) ∷ []) }
{
    let is_listed = state.lists_user(&entry.user) && state.lists(&entry.user, &entry.device);
    refuse_if(!is_listed, Reason::NotListed)
}

// The first reason of the act's own row that applies.
fn ask_row(state: &TeamState, entry: &Entry) -> Result<(), Reason>
    ensures { result_err result ≡ first_reason (row_of sha256 state.now entry.now entry.now.act) }
{
    match &entry.act {
        Act::Found { .. } => ask_found(state),
        Act::AddMember { user, key, .. } => ask_add_member(state, entry, user, key),
        Act::RemoveMember { user } => ask_remove_member(state, entry, user),
        Act::AddRole { role } => ask_add_role(state, entry, role),
        Act::RemoveRole { role } => ask_remove_role(state, entry, role),
        Act::GiveRole { user, role } => ask_give_role(state, entry, user, role),
        Act::TakeRole { user, role } => ask_take_role(state, entry, user, role),
        Act::AddDevice { key, .. } => ask_add_device(state, entry, key),
        Act::RemoveDevice { user, hex } => ask_remove_device(state, entry, user, hex),
        Act::Rotate { scope } => ask_rotate(state, entry, scope),
        Act::Title { .. } => ask_title(state, entry),
        Act::InviteMember { key, .. } => ask_invite_member(state, entry, key),
        Act::InviteDevice { key, .. } => ask_invite(state, key),
        Act::Revoke { kind, hex } => ask_revoke(state, entry, *kind, hex),
        Act::AdmitMember {
            user,
            key,
            by,
            proof,
            ..
        } => ask_admit_member(state, entry, user, key, by, proof.as_slice()),
        Act::AdmitDevice { key, by, proof, .. } => {
            ask_admit_device(state, entry, key, by, proof.as_slice())
        }
        Act::Seal | Act::Join => Ok(()),
    }
}
