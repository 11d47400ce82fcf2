//! Reading acts: the word, and then the fields that the word's own reader takes.
ghost use Rattle.std.specs.Prelude.{◌≡◌, ◌++◌, ◌∷◌, false, codes, IfOk};
ghost use Rattle.tg_text.specs.Reading.{Reads};
ghost use Rattle.tg_text.specs.Spelling.{has_space};
ghost use Rattle.acts.specs.ActText.{spell_act, IsActInRange};
ghost use Rattle.acts.specs.declared.entry.Act.TheVariants.{AdmitMember, AdmitDevice};

use crate::entry::Act;
use crate::fields::{
    read_device_by_proof, read_invitation, read_key_seal, read_kind_hex, read_member_by_proof,
    read_role, read_rotated, read_seal_title, read_title, read_user, read_user_hex,
    read_user_key_seal, read_user_role,
};
use std::alloc::Global;
use tg_text::{Bytes, DeviceId, Memory, PublicKey, UserName, split_once};

impl Act {
    /// The act that a text spells. Memory is taken for the proof of an admission alone.
    pub fn read(alloc: Global, text: &[u8]) -> Result<Option<Act>, Memory>
        ensures { IfOk result (λ found. Reads IsActInRange spell_act text.now found) }
    {
        match split_once(text, b' ') {
            Some((word, fields)) => read_fields(alloc, word, fields),
            None => Ok(read_bare(text)),
        }
    }
}

// An act without fields.
fn read_bare(word: &[u8]) -> Option<Act>
    ensures { has_space word.now ≡ false → Reads IsActInRange spell_act word.now result }
{
    if word == b"seal".as_slice() {
        Some(Act::Seal)
    } else if word == b"join".as_slice() {
        Some(Act::Join)
    } else {
        None
    }
}

// An act with the fields that stand after its word.
fn read_fields(alloc: Global, word: &[u8], fields: &[u8]) -> Result<Option<Act>, Memory>
    ensures { has_space word.now ≡ false → IfOk result (λ found. Reads IsActInRange spell_act (word.now ++ 32 ∷ fields.now) found) }
{
    if word == b"found".as_slice() {
        Ok(read_found(fields))
    } else if word == b"add_member".as_slice() {
        Ok(read_add_member(fields))
    } else if word == b"remove_member".as_slice() {
        Ok(read_remove_member(fields))
    } else if word == b"add_role".as_slice() {
        Ok(read_add_role(fields))
    } else if word == b"remove_role".as_slice() {
        Ok(read_remove_role(fields))
    } else if word == b"give_role".as_slice() {
        Ok(read_give_role(fields))
    } else if word == b"take_role".as_slice() {
        Ok(read_take_role(fields))
    } else if word == b"add_device".as_slice() {
        Ok(read_add_device(fields))
    } else if word == b"remove_device".as_slice() {
        Ok(read_remove_device(fields))
    } else if word == b"invite_member".as_slice() {
        Ok(read_invite_member(fields))
    } else if word == b"invite_device".as_slice() {
        Ok(read_invite_device(fields))
    } else if word == b"revoke".as_slice() {
        Ok(read_revoke(fields))
    } else if word == b"admit_member".as_slice() {
        read_admit_member(alloc, fields)
    } else if word == b"admit_device".as_slice() {
        read_admit_device(alloc, fields)
    } else if word == b"rotate".as_slice() {
        Ok(read_rotate(fields))
    } else if word == b"title".as_slice() {
        Ok(read_new_title(fields))
    } else {
        Ok(None)
    }
}

fn read_found(fields: &[u8]) -> Option<Act>
    ensures { Reads IsActInRange spell_act (codes "found" ++ 32 ∷ fields.now) result }
{
    let (seal, title) = read_seal_title(fields)?;
    Some(Act::Found { seal, title })
}

fn read_add_member(fields: &[u8]) -> Option<Act>
    ensures { Reads IsActInRange spell_act (codes "add_member" ++ 32 ∷ fields.now) result }
{
    let (user, device) = read_user_key_seal(fields)?;
    let (key, seal) = device;
    Some(Act::AddMember { user, key, seal })
}

fn read_remove_member(fields: &[u8]) -> Option<Act>
    ensures { Reads IsActInRange spell_act (codes "remove_member" ++ 32 ∷ fields.now) result }
{
    let user = read_user(fields)?;
    Some(Act::RemoveMember { user })
}

fn read_add_role(fields: &[u8]) -> Option<Act>
    ensures { Reads IsActInRange spell_act (codes "add_role" ++ 32 ∷ fields.now) result }
{
    let role = read_role(fields)?;
    Some(Act::AddRole { role })
}

fn read_remove_role(fields: &[u8]) -> Option<Act>
    ensures { Reads IsActInRange spell_act (codes "remove_role" ++ 32 ∷ fields.now) result }
{
    let role = read_role(fields)?;
    Some(Act::RemoveRole { role })
}

fn read_give_role(fields: &[u8]) -> Option<Act>
    ensures { Reads IsActInRange spell_act (codes "give_role" ++ 32 ∷ fields.now) result }
{
    let (user, role) = read_user_role(fields)?;
    Some(Act::GiveRole { user, role })
}

fn read_take_role(fields: &[u8]) -> Option<Act>
    ensures { Reads IsActInRange spell_act (codes "take_role" ++ 32 ∷ fields.now) result }
{
    let (user, role) = read_user_role(fields)?;
    Some(Act::TakeRole { user, role })
}

fn read_add_device(fields: &[u8]) -> Option<Act>
    ensures { Reads IsActInRange spell_act (codes "add_device" ++ 32 ∷ fields.now) result }
{
    let (key, seal) = read_key_seal(fields)?;
    Some(Act::AddDevice { key, seal })
}

fn read_remove_device(fields: &[u8]) -> Option<Act>
    ensures { Reads IsActInRange spell_act (codes "remove_device" ++ 32 ∷ fields.now) result }
{
    let (user, hex) = read_user_hex(fields)?;
    Some(Act::RemoveDevice {
        user,
        hex: DeviceId(hex),
    })
}

fn read_invite_member(fields: &[u8]) -> Option<Act>
    ensures { Reads IsActInRange spell_act (codes "invite_member" ++ 32 ∷ fields.now) result }
{
    let (key, limits) = read_invitation(fields)?;
    let (uses, expiry) = limits;
    Some(Act::InviteMember { key, uses, expiry })
}

fn read_invite_device(fields: &[u8]) -> Option<Act>
    ensures { Reads IsActInRange spell_act (codes "invite_device" ++ 32 ∷ fields.now) result }
{
    let (key, limits) = read_invitation(fields)?;
    let (uses, expiry) = limits;
    Some(Act::InviteDevice { key, uses, expiry })
}

fn read_revoke(fields: &[u8]) -> Option<Act>
    ensures { Reads IsActInRange spell_act (codes "revoke" ++ 32 ∷ fields.now) result }
{
    let (kind, hex) = read_kind_hex(fields)?;
    Some(Act::Revoke { kind, hex })
}

fn read_admit_member(alloc: Global, fields: &[u8]) -> Result<Option<Act>, Memory>
    ensures { IfOk result (λ found. Reads IsActInRange spell_act (codes "admit_member" ++ 32 ∷ fields.now) found) }
{
    match read_member_by_proof(alloc, fields)? {
        Some(fields) => Ok(Some(admit_member(fields))),
        None => Ok(None),
    }
}

fn admit_member(fields: (UserName, (PublicKey, ([u8; 32], (PublicKey, Bytes))))) -> Act
    ensures { result ≡ AdmitMember fields.0 fields.1.0 fields.1.1.0 fields.1.1.1.0 fields.1.1.1.1 }
{
    let (user, device) = fields;
    let (key, sealed) = device;
    let (seal, leaf) = sealed;
    let (by, proof) = leaf;
    Act::AdmitMember {
        user,
        key,
        seal,
        by,
        proof,
    }
}

fn read_admit_device(alloc: Global, fields: &[u8]) -> Result<Option<Act>, Memory>
    ensures { IfOk result (λ found. Reads IsActInRange spell_act (codes "admit_device" ++ 32 ∷ fields.now) found) }
{
    match read_device_by_proof(alloc, fields)? {
        Some(fields) => Ok(Some(admit_device(fields))),
        None => Ok(None),
    }
}

fn admit_device(fields: (PublicKey, ([u8; 32], (PublicKey, Bytes)))) -> Act
    ensures { result ≡ AdmitDevice fields.0 fields.1.0 fields.1.1.0 fields.1.1.1 }
{
    let (key, sealed) = fields;
    let (seal, leaf) = sealed;
    let (by, proof) = leaf;
    Act::AdmitDevice {
        key,
        seal,
        by,
        proof,
    }
}

fn read_rotate(fields: &[u8]) -> Option<Act>
    ensures { Reads IsActInRange spell_act (codes "rotate" ++ 32 ∷ fields.now) result }
{
    let scope = read_rotated(fields)?;
    Some(Act::Rotate { scope })
}

fn read_new_title(fields: &[u8]) -> Option<Act>
    ensures { Reads IsActInRange spell_act (codes "title" ++ 32 ∷ fields.now) result }
{
    let title = read_title(fields)?;
    Some(Act::Title { title })
}
