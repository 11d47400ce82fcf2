ghost use Rattle.std.specs.Prelude.{◌≡◌, ◌&&◌, not, codes, filter, length};
ghost use Rattle.std.specs.List.{list_any};
ghost use Rattle.team_sets.specs.Closure.{has};
ghost use Rattle.team_sets.specs.Names.{has_name, same_name};
ghost use Rattle.tg_text.specs.Order.{scope_cmp};
ghost use Rattle.key_reach.specs.Keys.{same_scope};
ghost use Rattle.team_model.specs.State.{admin};
ghost use Rattle.team_state.specs.Kept.{device_key, has_given, is_listed_row, is_other_admin, is_other_device, member_has, member_key, name_cmp, row_lists};
ghost use Rattle.team_state.specs.Rows.{Ascend};

use crate::rows::{Row, place_of};
use team_model::{Device, Invitation, Member};
use tg_text::{DeviceId, RoleName, Scope, UserName};

// Whether a table has a row with a key.
fn has_row<T: Row>(rows: &[T], key: &T::Key) -> bool
    requires { Ascend T.order T.key_of rows.now }
    ensures { result ≡ list_any (λ row. T.same (T.key_of row) key.now) rows.now }
{
    place_of(rows, key).is_ok()
}

/// Whether a user is a member.
pub(crate) fn has_member(members: &[Member], user: &UserName) -> bool
    requires { Ascend name_cmp member_key members.now }
    ensures { result ≡ list_any (λ m. same_name (member_key m) user.now) members.now }
{
    has_row(members, user)
}

/// Whether a role is among these.
pub(crate) fn has_role(roles: &[RoleName], role: &RoleName) -> bool
    requires { Ascend name_cmp (λ r. r) roles.now }
    ensures { result ≡ has_name roles.now role.now }
{
    has_row(roles, role)
}

/// Whether a scope is among these.
pub(crate) fn has_scope(scopes: &[Scope], scope: &Scope) -> bool
    requires { Ascend scope_cmp (λ s. s) scopes.now }
    ensures { result ≡ has same_scope scopes.now scope.now }
{
    has_row(scopes, scope)
}

/// Whether a user is a member with a role.
pub(crate) fn member_has_role(members: &[Member], user: &UserName, role: &RoleName) -> bool
    requires { Ascend name_cmp member_key members.now }
    ensures { result ≡ list_any (member_has user.now role.now) members.now }
{
    match place_of(members, user) {
        Ok(place) => has_name(members[place].roles.as_slice(), role),
        Err(_) => false,
    }
}

fn has_name(roles: &[RoleName], role: &RoleName) -> bool
    ensures { result ≡ has_name roles.now role.now }
{
    roles.contains(role)
}

/// Whether a device is listed for a user.
pub(crate) fn lists_device(devices: &[Device], user: &UserName, device: &DeviceId) -> bool
    requires { Ascend name_cmp device_key devices.now }
    ensures { result ≡ list_any (row_lists user.now device.now) devices.now }
{
    match place_of(devices, device) {
        Ok(place) => is_listed_for(&devices[place], user),
        Err(_) => false,
    }
}

fn is_listed_for(device: &Device, user: &UserName) -> bool
    ensures { result ≡ (device.now.listed && same_name device.now.user user.now) }
{
    device.listed && device.user == *user
}

/// Whether a device was ever listed.
pub(crate) fn has_device(devices: &[Device], device: &DeviceId) -> bool
    requires { Ascend name_cmp device_key devices.now }
    ensures { result ≡ list_any (λ d. same_name (device_key d) device.now) devices.now }
{
    has_row(devices, device)
}

/// Whether a device is listed.
pub(crate) fn is_listed(devices: &[Device], device: &DeviceId) -> bool
    requires { Ascend name_cmp device_key devices.now }
    ensures { result ≡ list_any (is_listed_row device.now) devices.now }
{
    match place_of(devices, device) {
        Ok(place) => devices[place].listed,
        Err(_) => false,
    }
}

/// Whether another user than this one has the role of an admin.
pub(crate) fn has_other_admin(members: &[Member], user: &UserName) -> bool
    ensures { result ≡ list_any (is_other_admin user.now) members.now }
{
    members.iter().any(|member| is_other_admin(member, user))
}

fn is_other_admin(member: &Member, user: &UserName) -> bool
    ensures { result ≡ is_other_admin user.now member.now }
{
    has_name(member.roles.as_slice(), &RoleName::admin()) && member.user != *user
}

/// Whether a member has a role.
pub(crate) fn is_given(members: &[Member], role: &RoleName) -> bool
    ensures { result ≡ list_any (has_given role.now) members.now }
{
    members.iter().any(|member| has_given(member, role))
}

fn has_given(member: &Member, role: &RoleName) -> bool
    ensures { result ≡ has_given role.now member.now }
{
    has_name(member.roles.as_slice(), role)
}

/// Whether another device than this one is listed for a user.
pub(crate) fn has_other_device(devices: &[Device], user: &UserName, device: &DeviceId) -> bool
    ensures { result ≡ list_any (is_other_device user.now device.now) devices.now }
{
    devices.iter().any(|row| is_other_device(row, user, device))
}

fn is_other_device(row: &Device, user: &UserName, device: &DeviceId) -> bool
    ensures { result ≡ is_other_device user.now device.now row.now }
{
    row.listed && is_another_of(row, user, device)
}

fn is_another_of(row: &Device, user: &UserName, device: &DeviceId) -> bool
    ensures { result ≡ (same_name row.now.user user.now && not (same_name row.now.id device.now)) }
{
    row.user == *user && row.id != *device
}

/// How many devices were ever listed for a user.
pub(crate) fn count_devices(devices: &[Device], user: &UserName) -> usize
    ensures { result ≡ length (filter (λ d. same_name d.user user.now) devices.now) }
{
    devices.iter().filter(|device| is_of(device, user)).count()
}

fn is_of(device: &Device, user: &UserName) -> bool
    ensures { result ≡ same_name device.now.user user.now }
{
    device.user == *user
}

/// How many devices are listed for a user.
pub(crate) fn count_listed(devices: &[Device], user: &UserName) -> usize
    ensures { result ≡ length (filter (λ d. d.listed && same_name d.user user.now) devices.now) }
{
    devices
        .iter()
        .filter(|device| is_listed_for(device, user))
        .count()
}

/// How many invitations aren't closed.
pub(crate) fn count_open(invitations: &[Invitation]) -> usize
    ensures { result ≡ length (filter (λ i. not i.closed) invitations.now) }
{
    invitations
        .iter()
        .filter(|invitation| !invitation.closed)
        .count()
}

/// Whether an arrow between roles is allowed: from the role `admin` to another.
pub(crate) fn leads_to_role(role: &RoleName, other: &RoleName) -> bool
    ensures { result ≡ (same_name role.now admin && not (same_name other.now admin)) }
{
    *role == RoleName::admin() && *other != RoleName::admin()
}
