ghost use Rattle.std.specs.Prelude.{◌≡◌, [], false, true, IfOk, Some, option_copied, OnErr, OnOk};
ghost use Rattle.key_reach.specs.Keys.{is_device, same_scope};
ghost use Rattle.team_model.specs.KeyTables.{all_keys, current_key, key_table};
ghost use Rattle.team_sets.specs.Members.{IsIn};
ghost use Rattle.team_sets.specs.Names.{has_name};
ghost use Rattle.team_model.specs.State.{device_row, devices_ever, devices_listed, empty_state, has_other_device, has_role, invitation_row, is_admin, is_empty_state, is_given, is_listed, is_only_admin, lists_device, lists_user, member_row, open_invitations, roles_of, was_listed};
ghost use Rattle.team_model.specs.Writes as after;
ghost use Rattle.team_sets.specs.SortedLaws.{IsAscending, by_names};
ghost use Rattle.team_state.specs.AscentLaws.{TablesAscend};

use crate::looking::{
    count_devices, count_listed, count_open, has_device, has_member, has_other_admin,
    has_other_device, has_role, has_scope, is_given, is_listed, leads_to_role, lists_device,
    member_has_role,
};
use crate::rows::{Piece, row_of};
use crate::table::{
    Table, append, append_all, drop_both, make_table, put, put_both, replace_and_drop,
};
use crate::writing::{
    drop_user, listed_device, put_device_rows, put_newcomer_rows, scopes_without, without_listing,
};
use key_reach::KeyTable;
use std::alloc::Global;
use std::marker::Model;
use std::rc::Rc;
use team_model::{Device, Invitation, Member};
use tg_text::{BoxLine, DeviceId, Items, KeyId, Memory, RoleName, Scope, Title, UserName};

/// The state of a team. Its tables ascend: members and roles by name, devices and invitations by id, current keys by scope.
/// Copies share their tables, and a table is copied when it is written while it is shared.
#[derive(Debug, Drop)]
pub struct TeamState {
    alloc: Global,
    title: Option<Title>,
    members: Rc<Table<Member>>,
    roles: Rc<Table<RoleName>>,
    devices: Rc<Table<Device>>,
    invitations: Rc<Table<Invitation>>,
    // The keys of devices stand behind the others.
    keys: Rc<Table<KeyId>>,
    boxes: Rc<Table<BoxLine>>,
    scopes: Rc<Table<Scope>>,
}

impl Model for TeamState {
    ghost use Rattle.team_model.specs.State.{State};

    ghost Value = { State };

    ghost use Rattle.team_state.specs.Kept.{IsKept, state_of};

    ghost view = { λ it. state_of it.title it.members.value.rows.items it.roles.value.rows.items it.devices.value.rows.items it.invitations.value.rows.items it.keys.value.rows.items it.boxes.value.rows.items };

    ghost invariant = { λ it. IsKept (state_of it.title it.members.value.rows.items it.roles.value.rows.items it.devices.value.rows.items it.invitations.value.rows.items it.keys.value.rows.items it.boxes.value.rows.items) it.keys.value.rows.items it.scopes.value.rows.items };
}

impl TeamState {
    /// The state before the team is founded.
    pub fn new(alloc: Global) -> Result<TeamState, Memory>
        ensures { IfOk result (λ it. it ≡ empty_state) }
    {
        Ok(TeamState {
            alloc,
            title: None,
            members: make_table(alloc, Vec::new(alloc))?,
            roles: make_table(alloc, Vec::new(alloc))?,
            devices: make_table(alloc, Vec::new(alloc))?,
            invitations: make_table(alloc, Vec::new(alloc))?,
            keys: make_table(alloc, Vec::new(alloc))?,
            boxes: make_table(alloc, Vec::new(alloc))?,
            scopes: make_table(alloc, Vec::new(alloc))?,
        })
    }

    /// An equal state, which shares the tables.
    pub fn copy(&self) -> Result<TeamState, Memory>
        ensures { IfOk result (λ it. it ≡ self.now) }
    {
        Ok(TeamState {
            alloc: self.alloc,
            title: self.title,
            members: self.members.clone()?,
            roles: self.roles.clone()?,
            devices: self.devices.clone()?,
            invitations: self.invitations.clone()?,
            keys: self.keys.clone()?,
            boxes: self.boxes.clone()?,
            scopes: self.scopes.clone()?,
        })
    }

    /// Whether the team isn't founded.
    pub fn is_empty(&self) -> bool
        ensures { result ≡ is_empty_state self.now }
    {
        self.title.is_none()
    }

    /// The title, which each founded team has.
    pub fn title(&self) -> Option<&Title>
        ensures { option_copied result ≡ self.now.title }
    {
        self.title.as_ref()
    }

    /// The listed users, in ascending order of their names.
    pub fn members(&self) -> &[Member]
        ensures members { result.now ≡ self.now.members }
        ensures ascend { IsAscending (by_names (λ m. m.user)) result.now }
    {
        self.members.rows.as_slice()
    }

    /// The roles that there are, in ascending order.
    pub fn roles(&self) -> &[RoleName]
        ensures roles { result.now ≡ self.now.roles }
        ensures ascend { IsAscending (by_names (λ r. r)) result.now }
    {
        self.roles.rows.as_slice()
    }

    /// All devices that were ever listed, in ascending order of their ids.
    pub fn devices(&self) -> &[Device]
        ensures devices { result.now ≡ self.now.devices }
        ensures ascend { IsAscending (by_names (λ d. d.id)) result.now }
    {
        self.devices.rows.as_slice()
    }

    /// All invitations that were ever made, in ascending order of their ids.
    pub fn invitations(&self) -> &[Invitation]
        ensures invitations { result.now ≡ self.now.invitations }
        ensures ascend { IsAscending (by_names (λ i. i.id)) result.now }
    {
        self.invitations.rows.as_slice()
    }

    /// Whether a user is listed with the role of an admin.
    pub fn is_admin(&self, user: &UserName) -> bool
        ensures { result ≡ is_admin self.now user.now }
    {
        self.has_role(user, &RoleName::admin())
    }

    /// Whether a user is listed with a role.
    pub fn has_role(&self, user: &UserName, role: &RoleName) -> bool
        ensures { result ≡ has_role self.now user.now role.now }
    {
        member_has_role(self.members.rows.as_slice(), user, role)
    }

    /// Whether a user is listed.
    pub fn lists_user(&self, user: &UserName) -> bool
        ensures { result ≡ lists_user self.now user.now }
    {
        has_member(self.members.rows.as_slice(), user)
    }

    /// Whether a role is listed.
    pub fn lists_role(&self, role: &RoleName) -> bool
        ensures { result ≡ has_name self.now.roles role.now }
    {
        has_role(self.roles.rows.as_slice(), role)
    }

    /// Whether a device is listed for a user.
    pub fn lists(&self, user: &UserName, device: &DeviceId) -> bool
        ensures { result ≡ lists_device self.now user.now device.now }
    {
        lists_device(self.devices.rows.as_slice(), user, device)
    }

    /// The row of a listed user.
    pub fn member(&self, user: &UserName) -> Option<&Member>
        ensures { option_copied result ≡ member_row self.now user.now }
    {
        row_of(self.members.rows.as_slice(), user)
    }

    /// The roles of a user, none where the user isn't listed.
    pub fn roles_of(&self, user: &UserName) -> &[RoleName]
        ensures { result.now ≡ roles_of self.now user.now }
    {
        match self.member(user) {
            Some(member) => member.roles.as_slice(),
            None => &[],
        }
    }

    /// Whether a member has a role.
    pub fn is_given(&self, role: &RoleName) -> bool
        ensures { result ≡ is_given self.now role.now }
    {
        is_given(self.members.rows.as_slice(), role)
    }

    /// Whether another device than this one is listed for a user.
    pub fn has_other_device(&self, user: &UserName, device: &DeviceId) -> bool
        ensures { result ≡ has_other_device self.now user.now device.now }
    {
        has_other_device(self.devices.rows.as_slice(), user, device)
    }

    /// The row of a device that was ever listed.
    pub fn device(&self, device: &DeviceId) -> Option<&Device>
        ensures { option_copied result ≡ device_row self.now device.now }
    {
        row_of(self.devices.rows.as_slice(), device)
    }

    /// The row of an invitation that was ever made.
    pub fn invitation(&self, id: &[u8; 32]) -> Option<&Invitation>
        ensures { option_copied result ≡ invitation_row self.now id.now }
    {
        row_of(self.invitations.rows.as_slice(), id)
    }

    /// The current key of a scope that ever had one, or of a device that was ever listed. A scope has no other.
    pub fn current_key(&self, scope: &Scope) -> Option<&KeyId>
        ensures key { option_copied result ≡ current_key self.now scope.now }
        ensures only { (k : KeyId) → IsIn k (all_keys self.now) → same_scope k.scope scope.now ≡ true → option_copied result ≡ Some k }
    {
        row_of(self.keys.rows.as_slice(), scope)
    }

    /// Whether a device is listed.
    pub fn is_listed(&self, device: &DeviceId) -> bool
        ensures { result ≡ is_listed self.now device.now }
    {
        is_listed(self.devices.rows.as_slice(), device)
    }

    /// Whether a device was ever listed.
    pub fn was_listed(&self, device: &DeviceId) -> bool
        ensures { result ≡ was_listed self.now device.now }
    {
        has_device(self.devices.rows.as_slice(), device)
    }

    /// How many devices were ever listed for a user.
    pub fn devices_ever(&self, user: &UserName) -> usize
        ensures { result ≡ devices_ever self.now user.now }
    {
        count_devices(self.devices.rows.as_slice(), user)
    }

    /// How many devices are listed for a user.
    pub fn devices_listed(&self, user: &UserName) -> usize
        ensures { result ≡ devices_listed self.now user.now }
    {
        count_listed(self.devices.rows.as_slice(), user)
    }

    /// How many invitations are open.
    pub fn open_invitations(&self) -> usize
        ensures { result ≡ open_invitations self.now }
    {
        count_open(self.invitations.rows.as_slice())
    }

    /// Whether a user is an admin, and no other user is.
    pub fn is_only_admin(&self, user: &UserName) -> bool
        ensures { result ≡ is_only_admin self.now user.now }
    {
        self.is_admin(user) && !has_other_admin(self.members.rows.as_slice(), user)
    }

    /// The tables ascend, the current keys too. A law: what it reads is left.
    pub fn tables_ascend(&self)
        ensures { TablesAscend self.now }
    {
        let _keys = self.keys.rows.as_slice();
    }

    /// Gives the team a title.
    pub fn put_title(&mut self, title: Title) -> Result<(), Memory>
        ensures ok { OnOk result (self.new ≡ after.with_title self.old title) }
        ensures err { OnErr result (self.new ≡ self.old) }
    {
        put(&mut self.scopes, Scope::Team)?;
        self.title = Some(title);
        Ok(())
    }

    /// Lists a user with these roles and no others, whether the user was listed or not.
    pub fn put_roles(&mut self, user: UserName, roles: Items<RoleName>) -> Result<(), Memory>
        ensures ok { OnOk result (self.new ≡ after.with_roles self.old user roles) }
        ensures err { OnErr result (self.new ≡ self.old) }
    {
        let member = Member { user, roles };
        put_both(
            &mut self.members,
            &mut self.scopes,
            member,
            Scope::User(user),
        )?;
        Ok(())
    }

    /// Lists a user without roles, and a device for that user: both or, without memory, none.
    pub fn put_newcomer(
        &mut self,
        user: UserName,
        id: DeviceId,
        seal: [u8; 32],
    ) -> Result<(), Memory>
        ensures ok { OnOk result (self.new ≡ after.with_newcomer self.old user id seal) }
        ensures err { OnErr result (self.new ≡ self.old) }
    {
        let member = Member {
            user,
            roles: Items::new(self.alloc),
        };
        self.put_member_and_device(member, listed_device(id, seal, user))
    }

    fn put_member_and_device(&mut self, member: Member, device: Device) -> Result<(), Memory>
        ensures ok { OnOk result (self.new ≡ after.with_device (after.with_member self.old member) device) }
        ensures err { OnErr result (self.new ≡ self.old) }
    {
        put_newcomer_rows(
            &mut self.members,
            &mut self.devices,
            &mut self.keys,
            &mut self.scopes,
            member,
            device,
        )?;
        Ok(())
    }

    /// Drops a user, whose devices become unlisted.
    pub fn drop_member(&mut self, user: &UserName) -> Result<(), Memory>
        ensures ok { OnOk result (self.new ≡ after.without_member self.old user.now) }
        ensures err { OnErr result (self.new ≡ self.old) }
    {
        let scopes = scopes_without(
            self.alloc,
            self.scopes.rows.as_slice(),
            self.devices.rows.as_slice(),
            user,
        )?;
        let scopes = make_table(self.alloc, scopes)?;
        drop_user(&mut self.members, &mut self.devices, user)?;
        self.scopes = scopes;
        Ok(())
    }

    /// Lists a role.
    pub fn put_role(&mut self, role: RoleName) -> Result<(), Memory>
        ensures ok { OnOk result (self.new ≡ after.with_role self.old role) }
        ensures err { OnErr result (self.new ≡ self.old) }
    {
        put_both(&mut self.roles, &mut self.scopes, role, Scope::Role(role))?;
        Ok(())
    }

    /// Drops a role. Members who have it keep it among their roles.
    pub fn drop_role(&mut self, role: &RoleName) -> Result<(), Memory>
        ensures ok { OnOk result (self.new ≡ after.without_role self.old role.now) }
        ensures err { OnErr result (self.new ≡ self.old) }
    {
        drop_both(&mut self.roles, &mut self.scopes, role, &Scope::Role(*role))?;
        Ok(())
    }

    /// Writes the row of a device. Its key is the current one of the device.
    pub fn put_device(&mut self, device: Device) -> Result<(), Memory>
        ensures ok { OnOk result (self.new ≡ after.with_device self.old device) }
        ensures err { OnErr result (self.new ≡ self.old) }
    {
        put_device_rows(&mut self.devices, &mut self.keys, &mut self.scopes, device)?;
        Ok(())
    }

    /// Unlists a device, where it was ever listed.
    pub fn unlist_device(&mut self, device: &DeviceId) -> Result<(), Memory>
        ensures ok { OnOk result (self.new ≡ after.without_device self.old device.now) }
        ensures err { OnErr result (self.new ≡ self.old) }
    {
        let Some(row) = self.device(device) else {
            return Ok(());
        };
        let row = *row;
        self.unlist_row(&row)
    }

    // A device's key is the same, listed or not. So its row and its scope are all that is written, and neither wants room.
    fn unlist_row(&mut self, device: &Device) -> Result<(), Memory>
        requires { IsIn device.now self.old.devices }
        ensures ok { OnOk result (self.new ≡ after.with_device self.old (after.unlisted device.now)) }
        ensures err { OnErr result (self.new ≡ self.old) }
    {
        let row = without_listing(device);
        let scope = Scope::Device(device.id);
        replace_and_drop(&mut self.devices, &mut self.scopes, row, &scope)?;
        Ok(())
    }

    /// Writes the row of an invitation.
    pub fn put_invitation(&mut self, invitation: Invitation) -> Result<(), Memory>
        ensures ok { OnOk result (self.new ≡ after.with_invitation self.old invitation) }
        ensures err { OnErr result (self.new ≡ self.old) }
    {
        put(&mut self.invitations, invitation)?;
        Ok(())
    }

    /// Makes a key the current one of its scope, which isn't that of a device: the key of a device stands in its row.
    pub fn put_key(&mut self, key: KeyId) -> Result<(), Memory>
        requires { is_device key.scope ≡ false }
        ensures ok { OnOk result (self.new ≡ after.with_key self.old key) }
        ensures err { OnErr result (self.new ≡ self.old) }
    {
        put(&mut self.keys, key)?;
        Ok(())
    }

    /// Adds a box behind those that are held.
    pub fn put_box(&mut self, line: &BoxLine) -> Result<(), Memory>
        ensures ok { OnOk result (self.new ≡ after.with_box self.old line.now) }
        ensures err { OnErr result (self.new ≡ self.old) }
    {
        append(&mut self.boxes, line.copy(self.alloc)?)?;
        Ok(())
    }

    /// Becomes another state with the same boxes, and has these more; or, without memory, stays. The held boxes aren't copied for it.
    pub fn become_with(&mut self, next: TeamState, more: Vec<BoxLine>) -> Result<(), Memory>
        requires { next.boxes ≡ self.old.boxes }
        ensures ok { OnOk result (self.new ≡ after.with_boxes next more.items) }
        ensures err { OnErr result (self.new ≡ self.old) }
    {
        let TeamState {
            alloc: _,
            title,
            members,
            roles,
            devices,
            invitations,
            keys,
            boxes,
            scopes,
        } = next;
        drop(boxes);
        append_all(&mut self.boxes, more)?;
        self.title = title;
        self.members = members;
        self.roles = roles;
        self.devices = devices;
        self.invitations = invitations;
        self.keys = keys;
        self.scopes = scopes;
        Ok(())
    }
}

impl KeyTable for TeamState {
    ghost use Rattle.team_state.specs.ArrowLaws.{allowed_arrows};

    ghost table = { key_table };

    ghost lawful = { allowed_arrows };

    fn boxes(&self) -> &[BoxLine] {
        self.boxes.rows.as_slice()
    }

    fn currents(&self) -> &[KeyId] {
        self.keys.rows.as_slice()
    }

    fn scopes(&self) -> &[Scope] {
        self.scopes.rows.as_slice()
    }

    fn live(&self, scope: &Scope) -> bool {
        has_scope(self.scopes.rows.as_slice(), scope)
    }

    fn allowed(&self, to: &Scope, of: &Scope) -> bool {
        match (to, of) {
            (Scope::Device(device), Scope::User(user)) => {
                self.lists(user, device) && self.lists_user(user)
            }
            (Scope::User(user), Scope::Role(role)) => {
                self.has_role(user, role) && self.lists_role(role)
            }
            (Scope::User(user), Scope::Team) => self.lists_user(user) && !self.is_empty(),
            (Scope::Role(role), Scope::Team) => self.lists_role(role) && !self.is_empty(),
            (Scope::Role(role), Scope::Role(other)) => {
                leads_to_role(role, other) && self.lists_role(role) && self.lists_role(other)
            }
            _ => false,
        }
    }
}
