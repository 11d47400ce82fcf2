//! The rows of the acts that the histories have, over plain lists. Limits on numbers are never reached, and have no row.
use acts::{Act, Entry, device_of};
use replica::Reason;
use std::alloc::Global;
use tg_text::{DeviceId, Memory, RoleName, Title, UserName};

/// A device that was ever listed, with its user, and whether it is listed now.
#[derive(Clone, Copy)]
pub struct Device {
    id: DeviceId,
    user: UserName,
    listed: bool,
}

/// A team: the listed users and roles, who has which role, and the devices.
#[derive(Drop)]
pub struct Team {
    pub title: Option<Title>,
    pub members: Vec<UserName>,
    pub roles: Vec<RoleName>,
    pub holders: Vec<(UserName, RoleName)>,
    pub devices: Vec<Device>,
}

impl Team {
    pub fn new(alloc: Global) -> Team {
        Team {
            title: None,
            members: Vec::new(alloc),
            roles: Vec::new(alloc),
            holders: Vec::new(alloc),
            devices: Vec::new(alloc),
        }
    }

    pub fn has_role(&self, user: &UserName, role: &RoleName) -> bool {
        self.holders.contains(&(*user, *role))
    }

    fn is_admin(&self, user: &UserName) -> bool {
        self.has_role(user, &RoleName::admin())
    }

    // Whether the user is an admin and nobody else is.
    fn is_only_admin(&self, user: &UserName) -> bool {
        for (holder, role) in &self.holders {
            if *role == RoleName::admin() && holder != user {
                return false;
            }
        }
        self.is_admin(user)
    }

    // Whether the device is listed for the user.
    fn lists(&self, user: &UserName, id: &DeviceId) -> bool {
        self.devices.iter().any(|device| device.id == *id && device.user == *user && device.listed)
    }

    // Lists a device.
    fn add_device(&mut self, id: DeviceId, user: UserName) -> Result<(), Memory> {
        self.devices.push(Device {
            id,
            user,
            listed: true,
        })?;
        Ok(())
    }

    // Whether the device is listed for anybody, and whether it ever was.
    fn has_device(&self, id: &DeviceId) -> (bool, bool) {
        let (mut listed, mut ever) = (false, false);
        for device in &self.devices {
            if device.id == *id {
                ever = true;
                listed = listed || device.listed;
            }
        }
        (listed, ever)
    }

    // How many devices are listed for the user.
    fn count_devices(&self, user: &UserName) -> u32 {
        let mut count = 0u32;
        for device in &self.devices {
            if device.user == *user && device.listed {
                count = count.saturating_add(1);
            }
        }
        count
    }
}

// The reason of the first test that applies.
fn first(tests: &[(bool, Reason)]) -> Option<Reason> {
    for (applies, reason) in tests {
        if *applies {
            return Some(*reason);
        }
    }
    None
}

/// Why an entry is refused in a team, if it is.
pub fn refusal(team: &Team, entry: &Entry) -> Option<Reason> {
    if let Act::Found { .. } = &entry.act {
        return first(&[(!team.members.is_empty(), Reason::Present)]);
    }
    let is_listed = team.members.contains(&entry.user) && team.lists(&entry.user, &entry.device);
    if !is_listed {
        return Some(Reason::NotListed);
    }
    let admin = team.is_admin(&entry.user);
    match &entry.act {
        Act::AddMember { .. } | Act::AddRole { .. } | Act::GiveRole { .. } | Act::Title { .. }
            if !admin => { Some(Reason::NotAdmin) }
        Act::RemoveMember { user } | Act::TakeRole { user, .. } | Act::RemoveDevice { user, .. }
            if *user != entry.user && !admin => { Some(Reason::NotAdmin) }
        act => refusal_of_listed(team, act),
    }
}

// Why an act is refused that is by a listed device, and by an admin where it needs one.
fn refusal_of_listed(team: &Team, act: &Act) -> Option<Reason> {
    match act {
        Act::AddMember { user, key, .. } => {
            let (listed, ever) = team.has_device(&device_of(key));
            let present = team.members.contains(user) || listed;
            first(&[(present, Reason::Present), (ever, Reason::WasRemoved)])
        }
        Act::AddDevice { key, .. } => {
            let (listed, ever) = team.has_device(&device_of(key));
            first(&[(listed, Reason::Present), (ever, Reason::WasRemoved)])
        }
        Act::AddRole { role } => first(&[(team.roles.contains(role), Reason::Present)]),
        Act::GiveRole { user, role } => {
            let absent = !team.members.contains(user) || !team.roles.contains(role);
            let has = team.has_role(user, role);
            first(&[(absent, Reason::Absent), (has, Reason::Present)])
        }
        _ => refusal_of_removal(team, act),
    }
}

fn refusal_of_removal(team: &Team, act: &Act) -> Option<Reason> {
    match act {
        Act::RemoveMember { user } => {
            let absent = !team.members.contains(user);
            let last = team.is_only_admin(user);
            first(&[(absent, Reason::Absent), (last, Reason::LastAdmin)])
        }
        Act::TakeRole { user, role } => {
            let absent = !team.has_role(user, role);
            let last = *role == RoleName::admin() && team.is_only_admin(user);
            first(&[(absent, Reason::Absent), (last, Reason::LastAdmin)])
        }
        Act::RemoveDevice { user, hex } => {
            let absent = !team.lists(user, hex);
            let last = team.count_devices(user) == 1;
            first(&[(absent, Reason::Absent), (last, Reason::LastDevice)])
        }
        _ => None,
    }
}

/// Does what an entry does that is permitted.
pub fn apply(team: &mut Team, entry: &Entry) -> Result<(), Memory> {
    match &entry.act {
        Act::Found { title, .. } => {
            team.title = Some(*title);
            team.roles.push(RoleName::admin())?;
            team.holders.push((entry.user, RoleName::admin()))?;
            team.members.push(entry.user)?;
            team.add_device(entry.device, entry.user)?;
        }
        Act::AddMember { user, key, .. } => {
            team.members.push(*user)?;
            team.add_device(device_of(key), *user)?;
        }
        Act::AddDevice { key, .. } => team.add_device(device_of(key), entry.user)?,
        Act::AddRole { role } => team.roles.push(*role)?,
        Act::GiveRole { user, role } => team.holders.push((*user, *role))?,
        Act::Title { title } => team.title = Some(*title),
        act => remove(team, act),
    }
    Ok(())
}

fn remove(team: &mut Team, act: &Act) {
    match act {
        Act::RemoveMember { user } => {
            team.members.retain(|member| member != user);
            team.holders.retain(|(holder, _)| holder != user);
            for device in team.devices.iter_mut() {
                device.listed = device.listed && device.user != *user;
            }
        }
        Act::TakeRole { user, role } => {
            team.holders.retain(|held| *held != (*user, *role));
        }
        Act::RemoveDevice { hex, .. } => {
            for device in team.devices.iter_mut() {
                device.listed = device.listed && device.id != *hex;
            }
        }
        _ => {}
    }
}
