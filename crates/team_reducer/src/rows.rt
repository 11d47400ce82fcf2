//! The rows of the act table: for each act the conditions on which it is refused, in their order, and the reason of the first that
//! holds.
ghost use Rattle.std.specs.Prelude.{◌≡◌, not, [], ◌∷◌};
ghost use Rattle.std.specs.Result.{result_err};
ghost use Rattle.sha2.specs.Sha256.{sha256};
ghost use Rattle.team_sets.specs.Names.{same_name};
ghost use Rattle.acts.specs.Admin.{is_another, is_shared};
ghost use Rattle.acts.specs.declared.entry.Act.TheVariants.{AddRole, GiveRole, RemoveDevice, RemoveMember, RemoveRole, Rotate, TakeRole};
ghost use Rattle.team_model.specs.ActTable.{device_conditions, first_reason, is_anothers, is_at_end, lacks_admin, meddles, newcomer_conditions, row_of};
ghost use Rattle.team_model.specs.State.{admin, is_empty_state};

use acts::{Entry, device_of};
use key_reach::KeyTable;
use team_model::{
    LAST_GENERATION, MOST_DEVICES, MOST_DEVICES_EVER, MOST_MEMBERS, MOST_ROLES, Reason,
};
use team_state::TeamState;
use tg_text::{DeviceId, PublicKey, RoleName, Scope, UserName};

pub(crate) fn refuse_if(holds: bool, reason: Reason) -> Result<(), Reason>
    ensures { result_err result ≡ first_reason ((holds, reason) ∷ []) }
{
    if holds { Err(reason) } else { Ok(()) }
}

pub(crate) fn lacks_admin(state: &TeamState, entry: &Entry) -> bool
    ensures { result ≡ lacks_admin state.now entry.now }
{
    !state.is_admin(&entry.user)
}

pub(crate) fn is_another(user: &UserName, entry: &Entry) -> bool
    ensures { result ≡ is_another user.now entry.now }
{
    *user != entry.user
}

// Whether the author acts on another user, and is no admin.
fn meddles(state: &TeamState, entry: &Entry, user: &UserName) -> bool
    ensures { result ≡ meddles state.now entry.now user.now }
{
    is_another(user, entry) && lacks_admin(state, entry)
}

fn is_admin_role(role: &RoleName) -> bool
    ensures { result ≡ same_name role.now admin }
{
    *role == RoleName::admin()
}

pub(crate) fn ask_found(state: &TeamState) -> Result<(), Reason>
    ensures { result_err result ≡ first_reason ((not (is_empty_state state.now), Reason.Present) ∷ []) }
{
    refuse_if(!state.is_empty(), Reason::Present)
}

pub(crate) fn ask_add_member(
    state: &TeamState,
    entry: &Entry,
    user: &UserName,
    key: &PublicKey,
) -> Result<(), Reason>
    ensures { result_err result ≡ first_reason ((lacks_admin state.now entry.now, Reason.NotAdmin) ∷ newcomer_conditions state.now user.now (sha256 key.now)) }
{
    refuse_if(lacks_admin(state, entry), Reason::NotAdmin)?;
    ask_newcomer(state, user, &device_of(key))
}

/// Why a user may not come anew, with a first device.
pub(crate) fn ask_newcomer(
    state: &TeamState,
    user: &UserName,
    device: &DeviceId,
) -> Result<(), Reason>
    ensures { result_err result ≡ first_reason (newcomer_conditions state.now user.now device.now) }
{
    let is_present = state.lists_user(user) || state.is_listed(device);
    refuse_if(is_present, Reason::Present)?;
    refuse_if(state.was_listed(device), Reason::WasRemoved)?;
    let is_full = state.members().len() >= MOST_MEMBERS
        || state.devices_ever(user) >= MOST_DEVICES_EVER;
    refuse_if(is_full, Reason::TooMany)
}

pub(crate) fn ask_remove_member(
    state: &TeamState,
    entry: &Entry,
    user: &UserName,
) -> Result<(), Reason>
    ensures { result_err result ≡ first_reason (row_of sha256 state.now entry.now (RemoveMember user.now)) }
{
    refuse_if(meddles(state, entry, user), Reason::NotAdmin)?;
    refuse_if(!state.lists_user(user), Reason::Absent)?;
    refuse_if(state.is_only_admin(user), Reason::LastAdmin)
}

pub(crate) fn ask_add_role(state: &TeamState, entry: &Entry, role: &RoleName) -> Result<(), Reason>
    ensures { result_err result ≡ first_reason (row_of sha256 state.now entry.now (AddRole role.now)) }
{
    refuse_if(is_admin_role(role), Reason::Reserved)?;
    refuse_if(lacks_admin(state, entry), Reason::NotAdmin)?;
    refuse_if(state.lists_role(role), Reason::Present)?;
    refuse_if(state.roles().len() >= MOST_ROLES, Reason::TooMany)
}

pub(crate) fn ask_remove_role(
    state: &TeamState,
    entry: &Entry,
    role: &RoleName,
) -> Result<(), Reason>
    ensures { result_err result ≡ first_reason (row_of sha256 state.now entry.now (RemoveRole role.now)) }
{
    refuse_if(is_admin_role(role), Reason::Reserved)?;
    refuse_if(lacks_admin(state, entry), Reason::NotAdmin)?;
    refuse_if(!state.lists_role(role), Reason::Absent)?;
    refuse_if(state.is_given(role), Reason::NotEmpty)
}

pub(crate) fn ask_give_role(
    state: &TeamState,
    entry: &Entry,
    user: &UserName,
    role: &RoleName,
) -> Result<(), Reason>
    ensures { result_err result ≡ first_reason (row_of sha256 state.now entry.now (GiveRole user.now role.now)) }
{
    refuse_if(lacks_admin(state, entry), Reason::NotAdmin)?;
    let are_listed = state.lists_user(user) && state.lists_role(role);
    refuse_if(!are_listed, Reason::Absent)?;
    refuse_if(state.has_role(user, role), Reason::Present)
}

pub(crate) fn ask_take_role(
    state: &TeamState,
    entry: &Entry,
    user: &UserName,
    role: &RoleName,
) -> Result<(), Reason>
    ensures { result_err result ≡ first_reason (row_of sha256 state.now entry.now (TakeRole user.now role.now)) }
{
    refuse_if(meddles(state, entry, user), Reason::NotAdmin)?;
    refuse_if(!state.has_role(user, role), Reason::Absent)?;
    let is_last = is_admin_role(role) && state.is_only_admin(user);
    refuse_if(is_last, Reason::LastAdmin)
}

pub(crate) fn ask_add_device(
    state: &TeamState,
    entry: &Entry,
    key: &PublicKey,
) -> Result<(), Reason>
    ensures { result_err result ≡ first_reason (device_conditions state.now entry.now.user (sha256 key.now)) }
{
    ask_device(state, &entry.user, &device_of(key))
}

/// Why a further device may not be listed for a user.
pub(crate) fn ask_device(
    state: &TeamState,
    user: &UserName,
    device: &DeviceId,
) -> Result<(), Reason>
    ensures { result_err result ≡ first_reason (device_conditions state.now user.now device.now) }
{
    refuse_if(state.is_listed(device), Reason::Present)?;
    refuse_if(state.was_listed(device), Reason::WasRemoved)?;
    let is_full = state.devices_listed(user) >= MOST_DEVICES
        || state.devices_ever(user) >= MOST_DEVICES_EVER;
    refuse_if(is_full, Reason::TooMany)
}

pub(crate) fn ask_remove_device(
    state: &TeamState,
    entry: &Entry,
    user: &UserName,
    device: &DeviceId,
) -> Result<(), Reason>
    ensures { result_err result ≡ first_reason (row_of sha256 state.now entry.now (RemoveDevice user.now device.now)) }
{
    refuse_if(meddles(state, entry, user), Reason::NotAdmin)?;
    refuse_if(!state.lists(user, device), Reason::Absent)?;
    refuse_if(!state.has_other_device(user, device), Reason::LastDevice)
}

pub(crate) fn ask_rotate(state: &TeamState, entry: &Entry, scope: &Scope) -> Result<(), Reason>
    ensures { result_err result ≡ first_reason (row_of sha256 state.now entry.now (Rotate scope.now)) }
{
    refuse_if(!state.live(scope), Reason::Absent)?;
    let lacks_admin = is_shared(scope) && lacks_admin(state, entry);
    refuse_if(lacks_admin, Reason::NotAdmin)?;
    refuse_if(is_anothers(scope, entry), Reason::NotYours)?;
    refuse_if(is_at_end(state, scope), Reason::TooMany)
}

fn is_shared(scope: &Scope) -> bool
    ensures { result ≡ is_shared scope.now }
{
    matches!(scope, Scope::Team | Scope::Role(_))
}

// Whether a scope is another user's than the author's.
fn is_anothers(scope: &Scope, entry: &Entry) -> bool
    ensures { result ≡ is_anothers scope.now entry.now }
{
    match scope {
        Scope::User(user) => is_another(user, entry),
        _ => false,
    }
}

// Whether no generation is left for the keys of a scope.
fn is_at_end(state: &TeamState, scope: &Scope) -> bool
    ensures { result ≡ is_at_end state.now scope.now }
{
    match state.current_key(scope) {
        Some(key) => key.generation >= LAST_GENERATION,
        None => false,
    }
}

pub(crate) fn ask_title(state: &TeamState, entry: &Entry) -> Result<(), Reason>
    ensures { result_err result ≡ first_reason ((lacks_admin state.now entry.now, Reason.NotAdmin) ∷ []) }
{
    refuse_if(lacks_admin(state, entry), Reason::NotAdmin)
}
