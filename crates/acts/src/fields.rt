//! The fields of acts: those of one kind each, and those that stand beside each other.
ghost use Rattle.std.specs.Prelude.{◌≡◌, ℕ, List, IfOk};
ghost use Rattle.tg_text.specs.Reading.{Reads};
ghost use Rattle.tg_text.specs.KeySpelling.{spell_scope};
ghost use Rattle.tg_text.specs.Spelling.{AreBytes, IsHash, IsPublicKey, IsTitle, spell_base64, spell_decimal, spell_hex};
ghost use Rattle.acts.specs.ActText.{IsInviteKey, IsName, IsRotated, IsTime, IsUses, spell_kind};
ghost use Rattle.acts.specs.Fields.{AreTwo, IsDeviceByProof, IsSealByProof, spell_device_by_proof, spell_seal_by_proof, spell_text, spell_two};

use crate::entry::InviteKind;
use std::alloc::Global;
use tg_text::{
    Bytes, Memory, PublicKey, RoleName, Scope, Title, UserName, number_at, read_base64,
    read_decimal, read_hex32, split_once,
};

pub(crate) fn read_user(text: &[u8]) -> Option<UserName>
    ensures { Reads IsName spell_text text.now result }
{
    UserName::read(text)
}

pub(crate) fn read_role(text: &[u8]) -> Option<RoleName>
    ensures { Reads IsName spell_text text.now result }
{
    RoleName::read(text)
}

pub(crate) fn read_title(text: &[u8]) -> Option<Title>
    ensures { Reads IsTitle spell_text text.now result }
{
    Title::read(text)
}

// A scope whose key may be changed.
pub(crate) fn read_rotated(text: &[u8]) -> Option<Scope>
    ensures { Reads IsRotated spell_scope text.now result }
{
    let scope = Scope::read(text)?;
    match scope {
        Scope::Device(_) => None,
        _ => Some(scope),
    }
}

fn read_kind(text: &[u8]) -> Option<InviteKind>
    ensures { Reads (λ _. Unit {0}) spell_kind text.now result }
{
    if text == b"member".as_slice() {
        Some(InviteKind::Member)
    } else if text == b"device".as_slice() {
        Some(InviteKind::Device)
    } else {
        None
    }
}

fn read_invite_key(text: &[u8]) -> Option<PublicKey>
    ensures { Reads IsInviteKey spell_base64 text.now result }
{
    let key = PublicKey::read(text)?;
    if number_at(key.as_slice(), 0) == 5 {
        Some(key)
    } else {
        None
    }
}

fn read_uses(text: &[u8]) -> Option<u32>
    ensures { Reads IsUses spell_decimal text.now result }
{
    let uses = read_decimal(text)?;
    if 1 <= uses && uses <= 32 {
        u32::try_from(uses).ok()
    } else {
        None
    }
}

pub(crate) fn read_seal_title(fields: &[u8]) -> Option<([u8; 32], Title)>
    ensures { Reads (AreTwo IsHash IsTitle) (spell_two spell_hex spell_text) fields.now result }
{
    let (seal, title) = split_once(fields, b' ')?;
    read_hex32(seal).zip(read_title(title))
}

pub(crate) fn read_user_role(fields: &[u8]) -> Option<(UserName, RoleName)>
    ensures { Reads (AreTwo IsName IsName) (spell_two spell_text spell_text) fields.now result }
{
    let (user, role) = split_once(fields, b' ')?;
    read_user(user).zip(read_role(role))
}

pub(crate) fn read_user_hex(fields: &[u8]) -> Option<(UserName, [u8; 32])>
    ensures { Reads (AreTwo IsName IsHash) (spell_two spell_text spell_hex) fields.now result }
{
    let (user, hex) = split_once(fields, b' ')?;
    read_user(user).zip(read_hex32(hex))
}

pub(crate) fn read_kind_hex(fields: &[u8]) -> Option<(InviteKind, [u8; 32])>
    ensures { Reads (AreTwo (λ _. Unit {0}) IsHash) (spell_two spell_kind spell_hex) fields.now result }
{
    let (kind, hex) = split_once(fields, b' ')?;
    read_kind(kind).zip(read_hex32(hex))
}

pub(crate) fn read_key_seal(fields: &[u8]) -> Option<(PublicKey, [u8; 32])>
    ensures { Reads (AreTwo IsPublicKey IsHash) (spell_two spell_base64 spell_hex) fields.now result }
{
    let (key, seal) = split_once(fields, b' ')?;
    PublicKey::read(key).zip(read_hex32(seal))
}

pub(crate) fn read_user_key_seal(fields: &[u8]) -> Option<(UserName, (PublicKey, [u8; 32]))>
    ensures { Reads (AreTwo IsName (AreTwo IsPublicKey IsHash)) (spell_two spell_text (spell_two spell_base64 spell_hex)) fields.now result }
{
    let (user, rest) = split_once(fields, b' ')?;
    read_user(user).zip(read_key_seal(rest))
}

fn read_uses_expiry(fields: &[u8]) -> Option<(u32, u64)>
    ensures { Reads (AreTwo IsUses IsTime) (spell_two spell_decimal spell_decimal) fields.now result }
{
    let (uses, expiry) = split_once(fields, b' ')?;
    read_uses(uses).zip(read_decimal(expiry))
}

pub(crate) fn read_invitation(fields: &[u8]) -> Option<(PublicKey, (u32, u64))>
    ensures { Reads (AreTwo IsInviteKey (AreTwo IsUses IsTime)) (spell_two spell_base64 (spell_two spell_decimal spell_decimal)) fields.now result }
{
    let (key, rest) = split_once(fields, b' ')?;
    read_invite_key(key).zip(read_uses_expiry(rest))
}

fn read_by_proof(alloc: Global, fields: &[u8]) -> Result<Option<(PublicKey, Bytes)>, Memory>
    ensures { IfOk result (λ found. Reads (AreTwo IsPublicKey AreBytes) (spell_two spell_base64 spell_base64) fields.now found) }
{
    let Some((by, proof)) = split_once(fields, b' ') else {
        return Ok(None);
    };
    let proof = read_base64(alloc, proof)?;
    Ok(PublicKey::read(by).zip(proof))
}

fn read_seal_by_proof(
    alloc: Global,
    fields: &[u8],
) -> Result<Option<([u8; 32], (PublicKey, Bytes))>, Memory>
    ensures { IfOk result (λ found. Reads IsSealByProof spell_seal_by_proof fields.now found) }
{
    let Some((seal, rest)) = split_once(fields, b' ') else {
        return Ok(None);
    };
    let rest = read_by_proof(alloc, rest)?;
    Ok(read_hex32(seal).zip(rest))
}

pub(crate) fn read_device_by_proof(
    alloc: Global,
    fields: &[u8],
) -> Result<Option<(PublicKey, ([u8; 32], (PublicKey, Bytes)))>, Memory>
    ensures { IfOk result (λ found. Reads IsDeviceByProof spell_device_by_proof fields.now found) }
{
    let Some((key, rest)) = split_once(fields, b' ') else {
        return Ok(None);
    };
    let rest = read_seal_by_proof(alloc, rest)?;
    Ok(PublicKey::read(key).zip(rest))
}

pub(crate) fn read_member_by_proof(
    alloc: Global,
    fields: &[u8],
) -> Result<Option<(UserName, (PublicKey, ([u8; 32], (PublicKey, Bytes))))>, Memory>
    ensures { IfOk result (λ found. Reads (AreTwo IsName IsDeviceByProof) (spell_two spell_text spell_device_by_proof) fields.now found) }
{
    let Some((user, rest)) = split_once(fields, b' ') else {
        return Ok(None);
    };
    let rest = read_device_by_proof(alloc, rest)?;
    Ok(read_user(user).zip(rest))
}
