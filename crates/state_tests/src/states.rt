//! Copies of a state, and rows that are written again or dropped.
use acts::InviteKind;
use key_reach::KeyTable;
use std::alloc::Global;
use std::test::Fail;
use team_state::{Device, Invitation, TeamState};
use tg_text::{DeviceId, Items, Memory, RoleName, Scope, Title, UserName};

fn ann() -> Result<UserName, Fail> {
    Ok(UserName::read(b"ann").ok_or("no user")?)
}

fn titled(text: &[u8]) -> Result<Title, Fail> {
    Ok(Title::read(text).ok_or("no title")?)
}

// The user is an admin and has a device.
fn put_ann(alloc: Global, state: &mut TeamState, user: UserName) -> Result<(), Memory> {
    let roles = Items::from_vec(Vec::from_slice(alloc, &[RoleName::admin()])?);
    state.put_roles(user, roles)?;
    state.put_role(RoleName::admin())?;
    state.put_device(Device {
        id: DeviceId([1; 32]),
        seal: [1; 32],
        user,
        listed: true,
    })
}

// A team of ann.
fn crew(alloc: Global, user: UserName) -> Result<TeamState, Fail> {
    let title = titled(b"Reef crew")?;
    let mut state = TeamState::new(alloc)?;
    put_ann(alloc, &mut state, user)?;
    state.put_title(title)?;
    Ok(state)
}

// A copy with another title and without ann.
fn copy_without(state: &TeamState, user: &UserName) -> Result<TeamState, Fail> {
    let title = titled(b"High tide")?;
    let mut copy = state.copy()?;
    copy.put_title(title)?;
    copy.drop_member(user)?;
    Ok(copy)
}

fn has_title(state: &TeamState, title: &[u8]) -> bool {
    match state.title() {
        Some(held) => held.as_slice() == title,
        None => false,
    }
}

// Whether a user is an admin and has the device.
fn has_ann(state: &TeamState, user: &UserName) -> bool {
    state.is_admin(user) && state.lists(user, &DeviceId([1; 32]))
}

// Whether a user is no admin and hasn't the device.
fn lacks_ann(state: &TeamState, user: &UserName) -> bool {
    !state.is_admin(user) && !state.lists(user, &DeviceId([1; 32]))
}

// A copy shares its tables until one is written.
#[test]
fn a_copy_stands_apart(rt: HostRuntime) -> Result<(), Fail> {
    let user = ann()?;
    let state = crew(rt.alloc(), user)?;
    let copy = copy_without(&state, &user)?;
    assert!(rt; has_title(&state, b"Reef crew") && has_ann(&state, &user));
    assert!(rt; has_title(&copy, b"High tide") && lacks_ann(&copy, &user));
    assert!(rt; copy.roles() == state.roles() && copy.invitations() == state.invitations());
    Ok(())
}

// An invitation of two uses, with these used leaves.
fn invitation(user: UserName, used: u32) -> Invitation {
    Invitation {
        id: [4; 32],
        kind: InviteKind::Member,
        user,
        uses: 2,
        used,
        expiry: 5000,
        closed: false,
    }
}

// Whether one invitation is there, which is open, and its first leaf is used.
fn has_one_used(state: &TeamState) -> bool {
    match state.invitations() {
        [row] => row.used == 1 && state.open_invitations() == 1,
        _ => false,
    }
}

// The row of an invitation is written again when it is used.
#[test]
fn an_invitation_takes_the_place_of_its_row(rt: HostRuntime) -> Result<(), Fail> {
    let user = ann()?;
    let mut state = crew(rt.alloc(), user)?;
    state.put_invitation(invitation(user, 0))?;
    state.put_invitation(invitation(user, 1))?;
    assert!(rt; has_one_used(&state));
    Ok(())
}

// Whether the admins' key goes to a role and not back, and that of the role to the team.
fn goes_on(state: &TeamState, role: RoleName) -> bool {
    let (admin, role) = (Scope::Role(RoleName::admin()), Scope::Role(role));
    state.allowed(&admin, &role)
        && !state.allowed(&role, &admin)
        && state.allowed(&role, &Scope::Team)
}

// Whether neither the admins' key goes to a role nor that of the role to the team, and the admins' role alone is there.
fn stays(state: &TeamState, role: RoleName) -> bool {
    let (admin, role) = (Scope::Role(RoleName::admin()), Scope::Role(role));
    !state.allowed(&admin, &role)
        && !state.allowed(&role, &Scope::Team)
        && state.roles() == [RoleName::admin()].as_slice()
}

// The admins' key goes to other roles and not back; to a role that is dropped nothing goes.
#[test]
fn arrows_go_by_what_is_listed(rt: HostRuntime) -> Result<(), Fail> {
    let user = ann()?;
    let role = RoleName::read(b"deck").ok_or("no role")?;
    let (admin, deck) = (Scope::Role(RoleName::admin()), Scope::Role(role));
    let (ann, device) = (Scope::User(user), Scope::Device(DeviceId([1; 32])));
    let mut state = crew(rt.alloc(), user)?;
    state.put_role(role)?;
    let scopes = [Scope::Team, admin, deck, ann, device];
    assert!(rt; goes_on(&state, role) && state.scopes() == scopes.as_slice());
    state.drop_role(&role)?;
    let scopes = [Scope::Team, admin, ann, device];
    assert!(rt; stays(&state, role) && state.scopes() == scopes.as_slice());
    Ok(())
}
