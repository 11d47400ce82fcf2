//! The texts of key ids: a scope, a generation and a public half, with a slash between them. And the writing of scopes.
ghost use Rattle.std.specs.Prelude.{◌≡◌, ◌≤◌, ◌++◌, ◌∷◌, List, ℕ, OnOk, OnErr};
ghost use Rattle.tg_text.specs.Reading.{Reads};
ghost use Rattle.tg_text.specs.KeySpelling.{IsKeyId, last_generation, spell_key_id, spell_scope};
ghost use Rattle.tg_text.specs.Spelling.{spell_decimal};

use crate::bytes::Bytes;
use crate::fields::{read_decimal, read_hex32};
use crate::keys::{KeyId, Scope};
use crate::lines::split_once;
use crate::memory::Memory;
use crate::writing::{write_decimal, write_hex};

impl KeyId {
    /// The key id that a text spells: `SCOPE/GENERATION/HEX`. It takes no memory.
    pub fn read(text: &[u8]) -> Option<KeyId>
        ensures { Reads IsKeyId spell_key_id text.now result }
    {
        let (scope, rest) = split_once(text, b'/')?;
        let (generation, public) = split_once(rest, b'/')?;
        let scope = Scope::read(scope)?;
        let generation = read_generation(&scope, generation)?;
        let public = read_hex32(public)?;
        Some(KeyId {
            scope,
            generation,
            public,
        })
    }
}

// The generation of a key of the scope.
fn read_generation(scope: &Scope, text: &[u8]) -> Option<u16>
    ensures { Reads (λ n. n ≤ last_generation scope.now) spell_decimal text.now result }
{
    let number = read_decimal(text)?;
    if number <= last_generation(scope) {
        u16::try_from(number).ok()
    } else {
        None
    }
}

fn last_generation(scope: &Scope) -> u64
    ensures { result ≡ last_generation scope.now }
{
    match scope {
        Scope::Device(_) => 0,
        _ => 65_534,
    }
}

/// Appends the text of a key id.
pub fn write_key_id(out: &mut Bytes, key: &KeyId) -> Result<(), Memory>
    ensures ok { OnOk result (out.new ≡ out.old ++ spell_key_id key.now) }
    ensures err { OnErr result (out.new ≡ out.old) }
{
    let before = out.len();
    let written = extend_key_id(out, key);
    out.keep_whole(before, written)
}

// As `write_key_id`, but some of the text stays where memory is short.
fn extend_key_id(out: &mut Bytes, key: &KeyId) -> Result<(), Memory>
    ensures ok { OnOk result (out.new ≡ out.old ++ spell_key_id key.now) }
    ensures err { OnErr result ((more : List ℕ) × (out.new ≡ out.old ++ more)) }
{
    extend_scope(out, &key.scope)?;
    out.append(b"/")?;
    write_decimal(out, u64::from(key.generation))?;
    out.append(b"/")?;
    write_hex(out, &key.public)
}

/// Appends the text of a scope.
pub fn write_scope(out: &mut Bytes, scope: &Scope) -> Result<(), Memory>
    ensures ok { OnOk result (out.new ≡ out.old ++ spell_scope scope.now) }
    ensures err { OnErr result (out.new ≡ out.old) }
{
    let before = out.len();
    let written = extend_scope(out, scope);
    out.keep_whole(before, written)
}

// As `write_scope`, but some of the text stays where memory is short.
fn extend_scope(out: &mut Bytes, scope: &Scope) -> Result<(), Memory>
    ensures ok { OnOk result (out.new ≡ out.old ++ spell_scope scope.now) }
    ensures err { OnErr result ((more : List ℕ) × (out.new ≡ out.old ++ more)) }
{
    match scope {
        Scope::Team => out.append(b"team"),
        Scope::Role(role) => extend_named(out, b"role:", role.as_slice()),
        Scope::User(user) => extend_named(out, b"user:", user.as_slice()),
        Scope::Device(device) => {
            out.append(b"device:")?;
            write_hex(out, device.as_slice())
        }
    }
}

fn extend_named(out: &mut Bytes, kind: &[u8], name: &[u8]) -> Result<(), Memory>
    ensures ok { OnOk result (out.new ≡ out.old ++ kind.now ++ name.now) }
    ensures err { OnErr result ((more : List ℕ) × (out.new ≡ out.old ++ more)) }
{
    out.append(kind)?;
    out.append(name)
}
