//! The boxes of the symbolic keeper.
ghost use Rattle.std.specs.Prelude.{◌≡◌, Some, IfOk};

use lockboxes::{Sealer, SymbolicKeeper};
use std::alloc::Global;
use std::test::Fail;
use tg_text::{Bytes, Memory, read_hex32};

const KEY: [u8; 32] = [0x33; 32];

const SECRET: [u8; 32] = [0x22; 32];

// The SHA-256 of the key, which the example team's founding bears as its seal.
const PUBLIC: &str = "deb0e38ced1e41de6f92e70e80c418d2d356afaaa99e26f5939dbc7d3ef4772a";

// The laws are enough for code that knows the bound alone.
fn seal_and_unseal<K: Sealer>(
    sealer: &K,
    alloc: Global,
    secret: &[u8; 32],
    key: &[u8; 32],
) -> Result<Option<[u8; 32]>, Memory>
    ensures { IfOk result (λ found. found ≡ Some secret.now) }
{
    let sealed = sealer.seal(alloc, secret, &sealer.public_of(key))?;
    Ok(sealer.unseal(sealed.as_slice(), key))
}

// Whether the box is the key's public half and then the secret.
fn is_box(sealed: &[u8], public: &[u8; 32]) -> bool {
    if sealed.len() != 64 {
        return false;
    }
    let (front, rest) = sealed.split_at(32);
    front == public.as_slice() && rest == SECRET.as_slice()
}

fn is_shut(sealed: &Bytes, key: &[u8; 32]) -> bool {
    SymbolicKeeper.unseal(sealed.as_slice(), key).is_none()
}

// Whether the box is shut with a byte more, and cut to these lengths.
fn are_shut(sealed: &mut Bytes, lengths: &[usize]) -> Result<bool, Memory> {
    sealed.append(b"\n")?;
    let mut are_shut = is_shut(sealed, &KEY);
    for len in lengths {
        sealed.truncate(*len);
        are_shut = are_shut && is_shut(sealed, &KEY);
    }
    Ok(are_shut)
}

#[test]
fn a_box_is_opened_by_its_key_alone(rt: HostRuntime) -> Result<(), Fail> {
    let public = read_hex32(PUBLIC.as_bytes()).ok_or("no public key")?;
    let sealed = SymbolicKeeper.seal(rt.alloc(), &SECRET, &public)?;
    assert!(rt; SymbolicKeeper.public_of(&KEY) == public && is_box(sealed.as_slice(), &public));
    assert!(rt; SymbolicKeeper.unseal(sealed.as_slice(), &KEY) == Some(SECRET));
    assert!(rt; is_shut(&sealed, &SECRET));
    Ok(())
}

#[test]
fn a_box_of_another_length_is_shut(rt: HostRuntime) -> Result<(), Fail> {
    let public = SymbolicKeeper.public_of(&KEY);
    let mut sealed = SymbolicKeeper.seal(rt.alloc(), &SECRET, &public)?;
    assert!(rt; are_shut(&mut sealed, &[63, 32, 0])?);
    Ok(())
}

#[test]
fn what_was_sealed_is_unsealed(rt: HostRuntime) -> Result<(), Fail> {
    let found = seal_and_unseal(&SymbolicKeeper, rt.alloc(), &SECRET, &KEY)?;
    assert!(rt; found == Some(SECRET));
    Ok(())
}
