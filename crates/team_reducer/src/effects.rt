//! The effects of acts, each as the writes to the state's tables that the act table composes it of. Without memory the state is as
//! before.
ghost use Rattle.std.specs.Prelude.{◌≡◌, OnErr, OnOk};
ghost use Rattle.acts.specs.declared.entry.Act.TheVariants.{Found};
ghost use Rattle.sha2.specs.Sha256.{sha256};
ghost use Rattle.team_model.specs.ActTable.{effect, with_proof_used};
ghost use Rattle.team_model.specs.State.{drop_row, put_name, roles_of};
ghost use Rattle.team_model.specs.Writes as writes;

use crate::inviting::{invitation_of, use_proof};
use crate::roles::{roles_with, roles_without};
use acts::{Act, Entry, InviteKind, device_of};
use std::alloc::Global;
use team_state::{Device, TeamState, listed_device, opened_invitation};
use tg_text::{Items, Memory, PublicKey, RoleName, Title, UserName};

/// What an entry's act does by itself.
pub(crate) fn act(alloc: Global, state: &mut TeamState, entry: &Entry) -> Result<(), Memory>
    ensures ok { OnOk result (state.new ≡ effect state.old entry.now entry.now.act) }
    ensures err { OnErr result (state.new ≡ state.old) }
{
    match &entry.act {
        Act::Found { seal, title } => found(alloc, state, entry, *seal, *title),
        Act::AddMember { user, key, seal } => state.put_newcomer(*user, device_of(key), *seal),
        Act::RemoveMember { user } => state.drop_member(user),
        Act::AddRole { role } => state.put_role(*role),
        Act::RemoveRole { role } => state.drop_role(role),
        Act::GiveRole { user, role } => give_role(alloc, state, user, role),
        Act::TakeRole { user, role } => take_role(alloc, state, user, role),
        Act::AddDevice { key, seal } => {
            state.put_device(listed_device(device_of(key), *seal, entry.user))
        }
        Act::RemoveDevice { hex, .. } => state.unlist_device(hex),
        Act::Title { title } => state.put_title(*title),
        Act::InviteMember { key, uses, expiry } => {
            invite(state, entry, InviteKind::Member, key, *uses, *expiry)
        }
        Act::InviteDevice { key, uses, expiry } => {
            invite(state, entry, InviteKind::Device, key, *uses, *expiry)
        }
        Act::Revoke { hex, .. } => state.close_invitation(hex),
        Act::AdmitMember {
            user,
            key,
            seal,
            by,
            proof,
        } => admit_member(state, user, key, *seal, by, proof.as_slice()),
        Act::AdmitDevice {
            key,
            seal,
            by,
            proof,
        } => {
            let device = listed_device(device_of(key), *seal, entry.user);
            admit_device(state, device, by, proof.as_slice())
        }
        Act::Rotate { .. } | Act::Seal | Act::Join => Ok(()),
    }
}

// Opens an invitation by an entry's user.
fn invite(
    state: &mut TeamState,
    entry: &Entry,
    kind: InviteKind,
    key: &PublicKey,
    uses: u32,
    expiry: u64,
) -> Result<(), Memory>
    ensures ok { OnOk result (state.new ≡ writes.with_invitation state.old (writes.opened_invitation (sha256 key.now) kind entry.now.user uses expiry)) }
    ensures err { OnErr result (state.new ≡ state.old) }
{
    let id = invitation_of(key);
    state.put_invitation(opened_invitation(id, kind, entry.user, uses, expiry))
}

// A member comes by a leaf of an invitation, which is used then.
fn admit_member(
    state: &mut TeamState,
    user: &UserName,
    key: &PublicKey,
    seal: [u8; 32],
    by: &PublicKey,
    proof: &[u8],
) -> Result<(), Memory>
    ensures ok { OnOk result (state.new ≡ writes.with_newcomer (with_proof_used state.old (sha256 by.now) proof.now) user.now (sha256 key.now) seal) }
    ensures err { OnErr result (state.new ≡ state.old) }
{
    let mut next = state.copy()?;
    use_proof(&mut next, by, proof)?;
    next.put_newcomer(*user, device_of(key), seal)?;
    *state = next;
    Ok(())
}

// A device comes by a leaf of an invitation, which is used then.
fn admit_device(
    state: &mut TeamState,
    device: Device,
    by: &PublicKey,
    proof: &[u8],
) -> Result<(), Memory>
    ensures ok { OnOk result (state.new ≡ writes.with_device (with_proof_used state.old (sha256 by.now) proof.now) device) }
    ensures err { OnErr result (state.new ≡ state.old) }
{
    let mut next = state.copy()?;
    use_proof(&mut next, by, proof)?;
    next.put_device(device)?;
    *state = next;
    Ok(())
}

// Founds the team: the author is a member and an admin, with one device. `seal` is the sealing public of that.
fn found(
    alloc: Global,
    state: &mut TeamState,
    entry: &Entry,
    seal: [u8; 32],
    title: Title,
) -> Result<(), Memory>
    ensures ok { OnOk result (state.new ≡ effect state.old entry.now (Found seal title)) }
    ensures err { OnErr result (state.new ≡ state.old) }
{
    let mut roles = Items::new(alloc);
    roles.push(RoleName::admin())?;
    let mut next = state.copy()?;
    next.put_title(title)?;
    next.put_role(RoleName::admin())?;
    next.put_roles(entry.user, roles)?;
    next.put_device(listed_device(entry.device, seal, entry.user))?;
    *state = next;
    Ok(())
}

// Gives a user a role more.
fn give_role(
    alloc: Global,
    state: &mut TeamState,
    user: &UserName,
    role: &RoleName,
) -> Result<(), Memory>
    ensures ok { OnOk result (state.new ≡ writes.with_roles state.old user.now (put_name role.now (roles_of state.old user.now))) }
    ensures err { OnErr result (state.new ≡ state.old) }
{
    let roles = roles_with(alloc, state.roles_of(user), role)?;
    state.put_roles(*user, Items::from_vec(roles))
}

// Takes a role from a user.
fn take_role(
    alloc: Global,
    state: &mut TeamState,
    user: &UserName,
    role: &RoleName,
) -> Result<(), Memory>
    ensures ok { OnOk result (state.new ≡ writes.with_roles state.old user.now (drop_row (λ r. r) role.now (roles_of state.old user.now))) }
    ensures err { OnErr result (state.new ≡ state.old) }
{
    let roles = roles_without(alloc, state.roles_of(user), role)?;
    state.put_roles(*user, Items::from_vec(roles))
}
