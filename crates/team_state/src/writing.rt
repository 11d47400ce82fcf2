ghost use Rattle.std.specs.Prelude.{◌≡◌, ◌<◌, vec_len, vec_capacity, ◌++◌, not, ◌&&◌, filter, map, IfOk, if◌then◌else◌, OnErr, OnOk};
ghost use Rattle.std.specs.Ordering.{nat_cmp};
ghost use Rattle.std.specs.Cmp.Lexicographic.{slice_cmp};
ghost use Rattle.team_sets.specs.Names.{same_name};
ghost use Rattle.tg_text.specs.Order.{scope_cmp};
ghost use Rattle.tg_text.specs.declared.keys.Scope.TheVariants.{Device as of_device, User as of_user};
ghost use Rattle.key_reach.specs.Keys.{same_scope};
ghost use Rattle.team_model.specs.KeyTables.{key_of_device, scope_of_device};
ghost use Rattle.team_model.specs.State.{drop_row as rows_without, put_row as rows_with};
ghost use Rattle.team_model.specs.Writes as after;
ghost use Rattle.team_model.specs.Writes.{unlist_of, unlisted};
ghost use Rattle.team_state.specs.Kept.{device_key, device_scopes, keeps_scope, key_scope, member_key, name_cmp, stays_listed};
ghost use Rattle.team_state.specs.Rows.{Ascend, with_row, without_key};

use crate::rows::{drop_row, put_row};
use crate::table::Table;
use std::alloc::Global;
use std::rc::Rc;
use team_model::{Device, Member};
use tg_text::{DeviceId, KeyId, Memory, Scope, UserName};

// The scopes that stay live without a user. The devices of the user aren't among them.
pub(crate) fn scopes_without(
    alloc: Global,
    scopes: &[Scope],
    devices: &[Device],
    user: &UserName,
) -> Result<Vec<Scope>, Memory>
    ensures { IfOk result (λ kept. kept.items ≡ filter (keeps_scope user.now) scopes.now ++ map scope_of_device (filter (stays_listed user.now) devices.now)) }
{
    let mut kept = Vec::with_capacity(alloc, scopes.len())?;
    push_kept(&mut kept, scopes, user)?;
    push_listed(&mut kept, devices, user)?;
    Ok(kept)
}

fn push_kept(kept: &mut Vec<Scope>, scopes: &[Scope], user: &UserName) -> Result<(), Memory>
    ensures { OnOk result (kept.new.items ≡ kept.old.items ++ filter (keeps_scope user.now) scopes.now) }
{
    for scope in scopes {
        if keeps_scope(user, scope) {
            kept.push(*scope)?;
        }
    }
    Ok(())
}

fn keeps_scope(user: &UserName, scope: &Scope) -> bool
    ensures { result ≡ keeps_scope user.now scope.now }
{
    match scope {
        Scope::Team | Scope::Role(_) => true,
        Scope::User(other) => is_other(other, user),
        Scope::Device(_) => false,
    }
}

fn is_other(user: &UserName, other: &UserName) -> bool
    ensures { result ≡ not (same_name user.now other.now) }
{
    *user != *other
}

fn push_listed(kept: &mut Vec<Scope>, devices: &[Device], user: &UserName) -> Result<(), Memory>
    ensures { OnOk result (kept.new.items ≡ kept.old.items ++ map scope_of_device (filter (stays_listed user.now) devices.now)) }
{
    for device in devices {
        if stays_listed(user, device) {
            kept.push(Scope::Device(device.id))?;
        }
    }
    Ok(())
}

fn stays_listed(user: &UserName, device: &Device) -> bool
    ensures { result ≡ stays_listed user.now device.now }
{
    device.listed && is_other(&device.user, user)
}

/// Drops a user, and unlists the devices of the user.
pub(crate) fn drop_user(
    members: &mut Rc<Table<Member>>,
    devices: &mut Rc<Table<Device>>,
    user: &UserName,
) -> Result<(), Memory>
    requires { Ascend name_cmp member_key members.old.value.rows.items }
    ensures members { OnOk result (members.new.value.rows.items ≡ rows_without member_key user.now members.old.value.rows.items) }
    ensures devices { OnOk result (devices.new.value.rows.items ≡ map (unlist_of user.now) devices.old.value.rows.items) }
    ensures members_stay { OnErr result (members.new.value.rows.items ≡ members.old.value.rows.items) }
    ensures devices_stay { OnErr result (devices.new.value.rows.items ≡ devices.old.value.rows.items) }
{
    let members = Rc::make_mut(members)?;
    let devices = Rc::make_mut(devices)?;
    drop_row(&mut members.rows, user);
    unlist(devices.rows.as_mut_slice(), user);
    Ok(())
}

fn unlist(devices: &mut [Device], user: &UserName)
    ensures { devices.new ≡ map (unlist_of user.now) devices.old }
{
    for device in devices.iter_mut() {
        *device = unlisted(device, user);
    }
}

// A device, unlisted where it is the user's.
fn unlisted(device: &Device, user: &UserName) -> Device
    ensures { result ≡ unlist_of user.now device.now }
{
    let mut device = *device;
    if device.user == *user {
        device.listed = false;
    }
    device
}

/// The row of a device that is listed for a user. `seal` is its sealing public.
pub fn listed_device(id: DeviceId, seal: [u8; 32], user: UserName) -> Device
    ensures { result ≡ after.listed_device id seal user }
{
    Device {
        id,
        seal,
        user,
        listed: true,
    }
}

/// A device that isn't listed.
pub(crate) fn without_listing(device: &Device) -> Device
    ensures { result ≡ unlisted device.now }
{
    let mut device = *device;
    device.listed = false;
    device
}

/// Writes the rows of a user and of a device, the device's key, and the scopes of both.
pub(crate) fn put_newcomer_rows(
    members: &mut Rc<Table<Member>>,
    devices: &mut Rc<Table<Device>>,
    keys: &mut Rc<Table<KeyId>>,
    scopes: &mut Rc<Table<Scope>>,
    member: Member,
    device: Device,
) -> Result<(), Memory>
    requires members { Ascend name_cmp member_key members.old.value.rows.items }
    requires devices { Ascend name_cmp device_key devices.old.value.rows.items }
    requires keys { Ascend scope_cmp key_scope keys.old.value.rows.items }
    requires scopes { Ascend scope_cmp (λ s. s) scopes.old.value.rows.items }
    ensures members { OnOk result (members.new.value.rows.items ≡ rows_with member_key member members.old.value.rows.items) }
    ensures devices { OnOk result (devices.new.value.rows.items ≡ rows_with device_key device devices.old.value.rows.items) }
    ensures keys { OnOk result (keys.new.value.rows.items ≡ with_row scope_cmp same_scope key_scope (key_of_device device) keys.old.value.rows.items) }
    ensures scopes { OnOk result (scopes.new.value.rows.items ≡ device_scopes device (with_row scope_cmp same_scope (λ s. s) (of_user member.user) scopes.old.value.rows.items)) }
    ensures members_stay { OnErr result (members.new.value.rows.items ≡ members.old.value.rows.items) }
    ensures devices_stay { OnErr result (devices.new.value.rows.items ≡ devices.old.value.rows.items) }
    ensures keys_stay { OnErr result (keys.new.value.rows.items ≡ keys.old.value.rows.items) }
    ensures scopes_stay { OnErr result (scopes.new.value.rows.items ≡ scopes.old.value.rows.items) }
{
    let members = Rc::make_mut(members)?;
    members.rows.reserve(1)?;
    let devices = Rc::make_mut(devices)?;
    devices.rows.reserve(1)?;
    let keys = Rc::make_mut(keys)?;
    keys.rows.reserve(1)?;
    let scopes = Rc::make_mut(scopes)?;
    scopes.rows.reserve(2)?;
    let scope = Scope::User(member.user);
    put_row(&mut members.rows, member);
    put_row(&mut scopes.rows, scope);
    put_row(&mut devices.rows, device);
    put_row(&mut keys.rows, make_device_key(&device));
    put_device_scope(&mut scopes.rows, &device);
    Ok(())
}

/// Writes the row of a device, its key, and its scope, which is live where the device is listed.
pub(crate) fn put_device_rows(
    devices: &mut Rc<Table<Device>>,
    keys: &mut Rc<Table<KeyId>>,
    scopes: &mut Rc<Table<Scope>>,
    device: Device,
) -> Result<(), Memory>
    requires devices { Ascend name_cmp device_key devices.old.value.rows.items }
    requires keys { Ascend scope_cmp key_scope keys.old.value.rows.items }
    requires scopes { Ascend scope_cmp (λ s. s) scopes.old.value.rows.items }
    ensures devices { OnOk result (devices.new.value.rows.items ≡ rows_with device_key device devices.old.value.rows.items) }
    ensures keys { OnOk result (keys.new.value.rows.items ≡ with_row scope_cmp same_scope key_scope (key_of_device device) keys.old.value.rows.items) }
    ensures scopes { OnOk result (scopes.new.value.rows.items ≡ device_scopes device scopes.old.value.rows.items) }
    ensures devices_stay { OnErr result (devices.new.value.rows.items ≡ devices.old.value.rows.items) }
    ensures keys_stay { OnErr result (keys.new.value.rows.items ≡ keys.old.value.rows.items) }
    ensures scopes_stay { OnErr result (scopes.new.value.rows.items ≡ scopes.old.value.rows.items) }
{
    let devices = Rc::make_mut(devices)?;
    devices.rows.reserve(1)?;
    let keys = Rc::make_mut(keys)?;
    keys.rows.reserve(1)?;
    let scopes = Rc::make_mut(scopes)?;
    scopes.rows.reserve(1)?;
    put_row(&mut devices.rows, device);
    put_row(&mut keys.rows, make_device_key(&device));
    put_device_scope(&mut scopes.rows, &device);
    Ok(())
}

fn make_device_key(device: &Device) -> KeyId
    ensures { result ≡ key_of_device device.now }
{
    KeyId {
        scope: Scope::Device(device.id),
        generation: 0,
        public: device.seal,
    }
}

fn put_device_scope(scopes: &mut Vec<Scope>, device: &Device)
    requires ascends { Ascend scope_cmp (λ s. s) scopes.old.items }
    requires room { vec_len scopes.old < vec_capacity scopes.old }
    ensures { scopes.new.items ≡ device_scopes device.now scopes.old.items }
{
    let scope = Scope::Device(device.id);
    if device.listed {
        put_row(scopes, scope);
    } else {
        drop_row(scopes, &scope);
    }
}
