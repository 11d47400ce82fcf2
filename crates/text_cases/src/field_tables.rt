//! The tables of fields: what is read is written again, or spelled in another way.
use crate::tables::says;
use std::alloc::Global;
use tg_text::{
    Bytes, KeyId, Memory, PublicKey, RoleName, Scope, Title, UserName, read_base64, read_decimal,
    read_hex32, split_once, write_base64, write_decimal, write_hex, write_key_id, write_scope,
};

pub fn decimal(alloc: Global, text: &[u8]) -> Result<Option<Bytes>, Memory> {
    let Some(number) = read_decimal(text) else {
        return Ok(None);
    };
    let mut out = Bytes::new(alloc);
    write_decimal(&mut out, number)?;
    Ok(Some(out))
}

pub fn hash(alloc: Global, text: &[u8]) -> Result<Option<Bytes>, Memory> {
    match read_hex32(text) {
        Some(hash) => in_hex(alloc, &hash),
        None => Ok(None),
    }
}

pub fn hash_as_base64(alloc: Global, text: &[u8]) -> Result<Option<Bytes>, Memory> {
    match read_hex32(text) {
        Some(hash) => in_base64(alloc, &hash),
        None => Ok(None),
    }
}

pub fn base64(alloc: Global, text: &[u8]) -> Result<Option<Bytes>, Memory> {
    match read_base64(alloc, text)? {
        Some(bytes) => in_base64(alloc, bytes.as_slice()),
        None => Ok(None),
    }
}

pub fn base64_as_hex(alloc: Global, text: &[u8]) -> Result<Option<Bytes>, Memory> {
    match read_base64(alloc, text)? {
        Some(bytes) => in_hex(alloc, bytes.as_slice()),
        None => Ok(None),
    }
}

pub fn public_key(alloc: Global, text: &[u8]) -> Result<Option<Bytes>, Memory> {
    match PublicKey::read(text) {
        Some(key) => in_base64(alloc, key.as_slice()),
        None => Ok(None),
    }
}

pub fn public_key_as_hex(alloc: Global, text: &[u8]) -> Result<Option<Bytes>, Memory> {
    match PublicKey::read(text) {
        Some(key) => in_hex(alloc, key.as_slice()),
        None => Ok(None),
    }
}

pub fn user_name(alloc: Global, text: &[u8]) -> Result<Option<Bytes>, Memory> {
    match UserName::read(text) {
        Some(name) => as_it_is(alloc, name.as_slice()),
        None => Ok(None),
    }
}

pub fn role_name(alloc: Global, text: &[u8]) -> Result<Option<Bytes>, Memory> {
    match RoleName::read(text) {
        Some(name) => as_it_is(alloc, name.as_slice()),
        None => Ok(None),
    }
}

pub fn title(alloc: Global, text: &[u8]) -> Result<Option<Bytes>, Memory> {
    match Title::read(text) {
        Some(title) => as_it_is(alloc, title.as_slice()),
        None => Ok(None),
    }
}

pub fn scope(alloc: Global, text: &[u8]) -> Result<Option<Bytes>, Memory> {
    let Some(scope) = Scope::read(text) else {
        return Ok(None);
    };
    let mut out = Bytes::new(alloc);
    write_scope(&mut out, &scope)?;
    Ok(Some(out))
}

pub fn key_id(alloc: Global, text: &[u8]) -> Result<Option<Bytes>, Memory> {
    let Some(key) = KeyId::read(text) else {
        return Ok(None);
    };
    let mut out = Bytes::new(alloc);
    write_key_id(&mut out, &key)?;
    Ok(Some(out))
}

/// The kind of a scope, and after a `/` its name.
pub fn scope_kind(alloc: Global, text: &[u8]) -> Result<Option<Bytes>, Memory> {
    match Scope::read(text) {
        Some(scope) => kind_of(alloc, &scope),
        None => Ok(None),
    }
}

fn kind_of(alloc: Global, scope: &Scope) -> Result<Option<Bytes>, Memory> {
    match scope {
        Scope::Team => says(alloc, "team"),
        Scope::Role(role) => named(alloc, b"role/", role.as_slice()),
        Scope::User(user) => named(alloc, b"user/", user.as_slice()),
        Scope::Device(device) => {
            let mut out = Bytes::from_slice(alloc, b"device/")?;
            write_hex(&mut out, device.as_slice())?;
            Ok(Some(out))
        }
    }
}

/// A name after what stands before it.
pub fn named(alloc: Global, front: &[u8], name: &[u8]) -> Result<Option<Bytes>, Memory> {
    let mut out = Bytes::from_slice(alloc, front)?;
    out.append(name)?;
    Ok(Some(out))
}

/// Whether the first of two scopes, a space apart, is less.
pub fn scopes_ascend(alloc: Global, text: &[u8]) -> Result<Option<Bytes>, Memory> {
    let Some((less, greater)) = split_once(text, b' ') else {
        return Ok(None);
    };
    let (Some(less), Some(greater)) = (Scope::read(less), Scope::read(greater)) else {
        return Ok(None);
    };
    says(alloc, if less < greater { "yes" } else { "no" })
}

/// Whether the first of two keys, a space apart, is less.
pub fn keys_ascend(alloc: Global, text: &[u8]) -> Result<Option<Bytes>, Memory> {
    let Some((less, greater)) = split_once(text, b' ') else {
        return Ok(None);
    };
    let (Some(less), Some(greater)) = (KeyId::read(less), KeyId::read(greater)) else {
        return Ok(None);
    };
    says(alloc, if less < greater { "yes" } else { "no" })
}

/// Bytes in hexadecimal digits.
pub fn in_hex(alloc: Global, bytes: &[u8]) -> Result<Option<Bytes>, Memory> {
    let mut out = Bytes::new(alloc);
    write_hex(&mut out, bytes)?;
    Ok(Some(out))
}

fn in_base64(alloc: Global, bytes: &[u8]) -> Result<Option<Bytes>, Memory> {
    let mut out = Bytes::new(alloc);
    write_base64(&mut out, bytes)?;
    Ok(Some(out))
}

fn as_it_is(alloc: Global, bytes: &[u8]) -> Result<Option<Bytes>, Memory> {
    let bytes = Bytes::from_slice(alloc, bytes)?;
    Ok(Some(bytes))
}
