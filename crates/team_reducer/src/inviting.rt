//! The rows of the act table on invitations, and what an admission does to its invitation.
ghost use Rattle.std.specs.Prelude.{◌≡◌, ◌<◌, ◌∷◌, ℕ, IfSome, List, OnErr, OnOk};
ghost use Rattle.std.specs.Result.{result_err};
ghost use Rattle.sha2.specs.Sha256.{sha256};
ghost use Rattle.acts.specs.Admin.{is_of_members};
ghost use Rattle.acts.specs.declared.entry.Act.TheVariants.{AdmitDevice, AdmitMember, Revoke};
ghost use Rattle.team_model.specs.ActTable as table;
ghost use Rattle.team_model.specs.ActTable.{first_reason, invitation_conditions, lacks_admin, row_of};
ghost use Rattle.team_model.specs.Limits.{invitation_leaves};

use crate::rows::{ask_device, ask_newcomer, is_another, lacks_admin, refuse_if};
use acts::{Entry, InviteKind, device_of};
use sha2::{Digest, Sha256};
use team_model::{INVITATION_LEAVES, Invitation, MOST_INVITATIONS, Reason};
use team_state::TeamState;
use tg_text::{Memory, PublicKey, UserName, number_at};

/// The id of the invitation with this key.
pub(crate) fn invitation_of(key: &PublicKey) -> [u8; 32]
    ensures { result ≡ sha256 key.now }
{
    Sha256::digest(key.as_slice())
}

// The leaf that a proof names, if it names one.
fn leaf_of(proof: &[u8]) -> Option<u32>
    ensures leaf { result ≡ table.leaf_of proof.now }
    ensures within { IfSome result (λ leaf. leaf < invitation_leaves) }
{
    if proof.len() < 4 {
        return None;
    }
    let leaf = number_at(proof, 0);
    if leaf < INVITATION_LEAVES {
        Some(leaf)
    } else {
        None
    }
}

// Whether a leaf is used already, or isn't below the uses.
fn is_gone(invitation: &Invitation, leaf: u32) -> bool
    requires { leaf < invitation_leaves }
    ensures { result ≡ table.is_gone invitation.now leaf }
{
    leaf >= invitation.uses || (invitation.used >> leaf) % 2 == 1
}

// Whether a proof names no leaf that is still to be used.
fn is_spent(proof: &[u8], invitation: &Invitation) -> bool
    ensures { result ≡ table.is_spent proof.now invitation.now }
{
    match leaf_of(proof) {
        Some(leaf) => is_gone(invitation, leaf),
        None => true,
    }
}

fn is_expired(time: u64, invitation: &Invitation) -> bool
    ensures { result ≡ table.is_expired time invitation.now }
{
    invitation.expiry != 0 && invitation.expiry < time
}

fn is_of_members(kind: InviteKind) -> bool
    ensures { result ≡ is_of_members kind }
{
    matches!(kind, InviteKind::Member)
}

fn is_open_for(kind: InviteKind, invitation: &Invitation) -> bool
    ensures { result ≡ table.is_open_for kind invitation.now }
{
    !invitation.closed && is_same_kind(kind, invitation.kind)
}

fn is_same_kind(kind: InviteKind, other: InviteKind) -> bool
    ensures { result ≡ table.same_kind kind other }
{
    match kind {
        InviteKind::Member => is_of_members(other),
        InviteKind::Device => !is_of_members(other),
    }
}

pub(crate) fn ask_invite_member(
    state: &TeamState,
    entry: &Entry,
    key: &PublicKey,
) -> Result<(), Reason>
    ensures { result_err result ≡ first_reason ((lacks_admin state.now entry.now, Reason.NotAdmin) ∷ invitation_conditions state.now (sha256 key.now)) }
{
    refuse_if(lacks_admin(state, entry), Reason::NotAdmin)?;
    ask_invite(state, key)
}

/// Why an invitation with this key isn't opened.
pub(crate) fn ask_invite(state: &TeamState, key: &PublicKey) -> Result<(), Reason>
    ensures { result_err result ≡ first_reason (invitation_conditions state.now (sha256 key.now)) }
{
    if let Some(invitation) = state.invitation(&invitation_of(key)) {
        refuse_if(!invitation.closed, Reason::Present)?;
        return Err(Reason::WasRemoved);
    }
    refuse_if(
        state.open_invitations() >= MOST_INVITATIONS,
        Reason::TooMany,
    )
}

pub(crate) fn ask_revoke(
    state: &TeamState,
    entry: &Entry,
    kind: InviteKind,
    id: &[u8; 32],
) -> Result<(), Reason>
    ensures { result_err result ≡ first_reason (row_of sha256 state.now entry.now (Revoke kind id.now)) }
{
    let lacks_admin = is_of_members(kind) && lacks_admin(state, entry);
    refuse_if(lacks_admin, Reason::NotAdmin)?;
    let Some(invitation) = state.invitation(id) else {
        return Err(Reason::NoInvite);
    };
    refuse_if(!is_open_for(kind, invitation), Reason::NoInvite)?;
    let is_anothers = !is_of_members(kind) && is_another(&invitation.user, entry);
    refuse_if(is_anothers, Reason::NotYours)
}

pub(crate) fn ask_admit_member(
    state: &TeamState,
    entry: &Entry,
    user: &UserName,
    key: &PublicKey,
    by: &PublicKey,
    proof: &[u8],
) -> Result<(), Reason>
    ensures { (seal : List ℕ) → result_err result ≡ first_reason (row_of sha256 state.now entry.now (AdmitMember user.now key.now seal by.now proof.now)) }
{
    let Some(invitation) = state.invitation(&invitation_of(by)) else {
        return Err(Reason::NoInvite);
    };
    refuse_if(
        !is_open_for(InviteKind::Member, invitation),
        Reason::NoInvite,
    )?;
    refuse_if(is_expired(entry.time, invitation), Reason::Expired)?;
    refuse_if(is_spent(proof, invitation), Reason::Spent)?;
    ask_newcomer(state, user, &device_of(key))
}

pub(crate) fn ask_admit_device(
    state: &TeamState,
    entry: &Entry,
    key: &PublicKey,
    by: &PublicKey,
    proof: &[u8],
) -> Result<(), Reason>
    ensures { (seal : List ℕ) → result_err result ≡ first_reason (row_of sha256 state.now entry.now (AdmitDevice key.now seal by.now proof.now)) }
{
    let Some(invitation) = state.invitation(&invitation_of(by)) else {
        return Err(Reason::NoInvite);
    };
    refuse_if(
        !is_open_for(InviteKind::Device, invitation),
        Reason::NoInvite,
    )?;
    refuse_if(is_another(&invitation.user, entry), Reason::NotYours)?;
    refuse_if(is_expired(entry.time, invitation), Reason::Expired)?;
    refuse_if(is_spent(proof, invitation), Reason::Spent)?;
    ask_device(state, &entry.user, &device_of(key))
}

/// Uses the leaf that a proof names, of the invitation with this key.
pub(crate) fn use_proof(state: &mut TeamState, by: &PublicKey, proof: &[u8]) -> Result<(), Memory>
    ensures ok { OnOk result (state.new ≡ table.with_proof_used state.old (sha256 by.now) proof.now) }
    ensures err { OnErr result (state.new ≡ state.old) }
{
    match leaf_of(proof) {
        Some(leaf) => state.use_leaf(&invitation_of(by), leaf),
        None => Ok(()),
    }
}
