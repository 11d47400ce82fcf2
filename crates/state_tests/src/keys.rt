//! What the tables of a state say of keys.
ghost use Rattle.std.specs.Prelude.{◌≡◌, false};
ghost use Rattle.key_reach.specs.Keys.{is_device};

use key_reach::{Debt, debts, entitled, lacks, reach, tainted};
use std::alloc::Global;
use std::test::Fail;
use team_state::{Device, TeamState};
use tg_text::{BoxLine, Bytes, DeviceId, Items, KeyId, Memory, Scope, Title, UserName};

fn device(user: UserName, number: u8, listed: bool) -> Device {
    Device {
        id: DeviceId([number; 32]),
        seal: [number; 32],
        user,
        listed,
    }
}

fn device_key(number: u8) -> KeyId {
    KeyId {
        scope: Scope::Device(DeviceId([number; 32])),
        generation: 0,
        public: [number; 32],
    }
}

fn team_key() -> KeyId
    ensures { is_device result.scope ≡ false }
{
    KeyId {
        scope: Scope::Team,
        generation: 0,
        public: [8; 32],
    }
}

fn user_key(user: UserName) -> KeyId
    ensures { is_device result.scope ≡ false }
{
    KeyId {
        scope: Scope::User(user),
        generation: 0,
        public: [9; 32],
    }
}

// Ann's two devices have her key, and with it the team's.
fn boxes(alloc: Global, user: UserName) -> Result<Vec<BoxLine>, Memory> {
    let pairs = [
        (device_key(1), user_key(user)),
        (device_key(2), user_key(user)),
        (user_key(user), team_key()),
    ];
    let mut boxes = Vec::new(alloc);
    for (to, of) in pairs {
        let bytes = Bytes::from_slice(alloc, b"sealed")?;
        boxes.push(BoxLine { to, of, bytes })?;
    }
    Ok(boxes)
}

// Ann's devices are listed.
fn put_devices(state: &mut TeamState, user: UserName) -> Result<(), Memory> {
    state.put_device(device(user, 1, true))?;
    state.put_device(device(user, 2, true))
}

// The keys of the team and of ann are current, and the boxes are as above.
fn put_keys(alloc: Global, state: &mut TeamState, user: UserName) -> Result<(), Memory> {
    let boxes = boxes(alloc, user)?;
    state.put_key(team_key())?;
    state.put_key(user_key(user))?;
    for line in &boxes {
        state.put_box(line)?;
    }
    Ok(())
}

// Ann, listed with both devices, and the boxes as above.
fn two_devices(alloc: Global, user: UserName) -> Result<TeamState, Fail> {
    let title = Title::read(b"Reef crew").ok_or("no title")?;
    let mut state = TeamState::new(alloc)?;
    state.put_title(title)?;
    state.put_roles(user, Items::new(alloc))?;
    put_devices(&mut state, user)?;
    put_keys(alloc, &mut state, user)?;
    Ok(state)
}

// Ann's third device is listed, and no box is for it.
fn third_listed(alloc: Global, user: UserName) -> Result<TeamState, Fail> {
    let mut state = two_devices(alloc, user)?;
    state.put_device(device(user, 3, true))?;
    Ok(state)
}

// Ann's first device isn't listed any more, nor is a third one.
fn first_unlisted(alloc: Global, user: UserName) -> Result<TeamState, Fail> {
    let mut state = two_devices(alloc, user)?;
    state.put_device(device(user, 1, false))?;
    state.put_device(device(user, 3, false))?;
    Ok(state)
}

// Whether just these debts are owed, these pairs lack a box and these keys are tainted.
fn owes(
    alloc: Global,
    state: &TeamState,
    owed: &[Debt],
    pairs: &[(KeyId, KeyId)],
    keys: &[KeyId],
) -> Result<bool, Memory> {
    let is_owed = debts(alloc, state)?.as_slice() == owed;
    let is_lacking = lacks(alloc, state)?.as_slice() == pairs;
    let is_tainted = tainted(alloc, state)?.as_slice() == keys;
    Ok(is_owed && is_lacking && is_tainted)
}

// Whether the device of this number is entitled to the key of the team.
fn is_entitled(state: &TeamState, number: u8) -> bool {
    entitled(state, &DeviceId([number; 32]), &Scope::Team)
}

fn ann() -> Result<UserName, Fail> {
    Ok(UserName::read(b"ann").ok_or("no user")?)
}

#[test]
fn a_device_reaches_along_boxes(rt: HostRuntime) -> Result<(), Fail> {
    let alloc = rt.alloc();
    let user = ann()?;
    let boxes = boxes(alloc, user)?;
    let reached = reach(alloc, boxes.as_slice(), &[device_key(1)])?;
    let all = [team_key(), user_key(user), device_key(1)];
    assert!(rt; reached.as_slice() == all.as_slice());
    Ok(())
}

#[test]
fn the_key_of_the_team_reaches_itself_alone(rt: HostRuntime) -> Result<(), Fail> {
    let alloc = rt.alloc();
    let boxes = boxes(alloc, ann()?)?;
    let reached = reach(alloc, boxes.as_slice(), &[team_key(), team_key()])?;
    assert!(rt; reached.as_slice() == [team_key()].as_slice());
    Ok(())
}

#[test]
fn nothing_is_owed_where_all_is_reached(rt: HostRuntime) -> Result<(), Fail> {
    let alloc = rt.alloc();
    let state = two_devices(alloc, ann()?)?;
    assert!(rt; owes(alloc, &state, &[], &[], &[])? && is_entitled(&state, 1));
    Ok(())
}

#[test]
fn a_further_device_reaches_nothing(rt: HostRuntime) -> Result<(), Fail> {
    let alloc = rt.alloc();
    let (user, third) = (ann()?, DeviceId([3; 32]));
    let state = third_listed(alloc, user)?;
    let owed = [
        Debt::Unreached(team_key(), third),
        Debt::Unreached(user_key(user), third),
    ];
    let pairs = [(device_key(3), user_key(user))];
    assert!(rt; owes(alloc, &state, &owed, &pairs, &[])? && is_entitled(&state, 3));
    Ok(())
}

// What an unlisted device had is tainted, and owed anew.
#[test]
fn what_an_unlisted_device_had_is_tainted(rt: HostRuntime) -> Result<(), Fail> {
    let alloc = rt.alloc();
    let user = ann()?;
    let state = first_unlisted(alloc, user)?;
    let owed = [Debt::Tainted(team_key()), Debt::Tainted(user_key(user))];
    let keys = [team_key(), user_key(user), device_key(1), device_key(3)];
    assert!(rt; owes(alloc, &state, &owed, &[], &keys)?);
    assert!(rt; !is_entitled(&state, 1) && is_entitled(&state, 2));
    Ok(())
}
