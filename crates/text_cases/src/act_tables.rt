//! The tables of acts, of what proofs of admissions sign, and of devices.
use crate::field_tables::{in_hex, named};
use crate::tables::says;
use acts::{Act, Entry, InviteKind, device_of, needs_admin, proof_body};
use std::alloc::Global;
use tg_text::{
    Bytes, DeviceId, Items, KeyLines, Lines, LinkName, Memory, PublicKey, RoleName, Scope,
    UserName, read_hex32, split_once, write_hex,
};

pub fn act(alloc: Global, text: &[u8]) -> Result<Option<Bytes>, Memory> {
    let Some(act) = Act::read(alloc, text)? else {
        return Ok(None);
    };
    let mut out = Bytes::new(alloc);
    act.write(&mut out)?;
    Ok(Some(out))
}

/// The fields of an act that gives a role, of one that sets a title, in digits, or of one that rotates a user's key, each
/// after a `/`.
pub fn act_fields(alloc: Global, text: &[u8]) -> Result<Option<Bytes>, Memory> {
    let Some(act) = Act::read(alloc, text)? else {
        return Ok(None);
    };
    fields_of(alloc, &act)
}

fn fields_of(alloc: Global, act: &Act) -> Result<Option<Bytes>, Memory> {
    match act {
        Act::GiveRole { user, role } => given_role(alloc, user, role),
        Act::Title { title } => {
            let mut out = Bytes::from_slice(alloc, b"title/")?;
            write_hex(&mut out, title.as_slice())?;
            Ok(Some(out))
        }
        Act::Rotate { scope } => rotated(alloc, scope),
        _ => Ok(None),
    }
}

fn given_role(alloc: Global, user: &UserName, role: &RoleName) -> Result<Option<Bytes>, Memory> {
    let mut out = Bytes::from_slice(alloc, b"give_role/")?;
    out.append(user.as_slice())?;
    out.append(b"/")?;
    out.append(role.as_slice())?;
    Ok(Some(out))
}

fn rotated(alloc: Global, scope: &Scope) -> Result<Option<Bytes>, Memory> {
    match scope {
        Scope::User(user) => named(alloc, b"rotate/user/", user.as_slice()),
        _ => Ok(None),
    }
}

/// Whether only an admin may write the act, where bo writes it.
pub fn needs_admin_of_bo(alloc: Global, text: &[u8]) -> Result<Option<Bytes>, Memory> {
    let Some(act) = Act::read(alloc, text)? else {
        return Ok(None);
    };
    let Some(user) = UserName::read(b"bo") else {
        return Ok(None);
    };
    let lines = KeyLines {
        news: Items::new(alloc),
        boxes: Items::new(alloc),
    };
    let entry = Entry {
        user,
        device: DeviceId([0; 32]),
        time: 0,
        act,
        lines,
    };
    says(alloc, if needs_admin(&entry) { "yes" } else { "no" })
}

/// What a proof signs for the fields that stand after the words of the text's lines.
pub fn body_again(alloc: Global, text: &[u8]) -> Result<Option<Bytes>, Memory> {
    match proof_of(text) {
        Some(proof) => {
            let body = proof_body(
                alloc,
                &proof.team,
                proof.kind,
                &proof.user,
                &proof.key,
                &proof.seal,
            )?;
            Ok(Some(body))
        }
        None => Ok(None),
    }
}

#[derive(Drop)]
struct Proof {
    team: LinkName,
    kind: InviteKind,
    user: UserName,
    key: PublicKey,
    seal: [u8; 32],
}

fn proof_of(text: &[u8]) -> Option<Proof> {
    let mut lines = Lines::new(text);
    let _head = next_field(&mut lines)?;
    let team = LinkName(read_hex32(next_field(&mut lines)?)?);
    let kind = kind_of(next_field(&mut lines)?)?;
    let user = UserName::read(next_field(&mut lines)?)?;
    let key = PublicKey::read(next_field(&mut lines)?)?;
    let seal = read_hex32(next_field(&mut lines)?)?;
    Some(Proof {
        team,
        kind,
        user,
        key,
        seal,
    })
}

// What stands after the word of the next line.
fn next_field<'a>(lines: &mut Lines<'a>) -> Option<&'a [u8]> {
    let (_, field) = split_once(lines.next_line()?, b' ')?;
    Some(field)
}

fn kind_of(word: &[u8]) -> Option<InviteKind> {
    if word == b"member".as_slice() {
        Some(InviteKind::Member)
    } else if word == b"device".as_slice() {
        Some(InviteKind::Device)
    } else {
        None
    }
}

/// The id of the device with the public key that the text spells.
pub fn device(alloc: Global, text: &[u8]) -> Result<Option<Bytes>, Memory> {
    match PublicKey::read(text) {
        Some(key) => in_hex(alloc, device_of(&key).as_slice()),
        None => Ok(None),
    }
}
