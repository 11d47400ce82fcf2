//! The texts of scopes: a kind, and after a colon whose scope it is.
ghost use Rattle.std.specs.Prelude.{◌≡◌, ◌++◌, ◌∷◌, false, codes};
ghost use Rattle.tg_text.specs.Reading.{Reads};
ghost use Rattle.tg_text.specs.KeySpelling.{IsScope, spell_scope};
ghost use Rattle.tg_text.specs.Spelling.{has_byte};

use crate::fields::read_hex32;
use crate::keys::Scope;
use crate::lines::split_once;
use crate::names::DeviceId;
use crate::user_name::{RoleName, UserName};

impl Scope {
    /// The scope that a text spells: `team`, `role:ROLE`, `user:USER` or `device:HEX`. It takes no memory.
    pub fn read(text: &[u8]) -> Option<Scope>
        ensures { Reads IsScope spell_scope text.now result }
    {
        match split_once(text, b':') {
            Some((kind, name)) => read_named(kind, name),
            None => read_team(text),
        }
    }

    /// A law: the name or the id of any scope is one. It does nothing at run time.
    pub fn is_one(&self)
        ensures { IsScope self.now }
    {
        match self {
            Scope::Team => {}
            Scope::Role(role) => {
                role.as_slice();
            }
            Scope::User(user) => {
                user.as_slice();
            }
            Scope::Device(device) => {
                device.as_slice();
            }
        }
    }
}

fn read_team(text: &[u8]) -> Option<Scope>
    ensures { has_byte 58 text.now ≡ false → Reads IsScope spell_scope text.now result }
{
    if text == b"team".as_slice() {
        Some(Scope::Team)
    } else {
        None
    }
}

// The scope of this kind and this name.
fn read_named(kind: &[u8], name: &[u8]) -> Option<Scope>
    ensures { has_byte 58 kind.now ≡ false → Reads IsScope spell_scope (kind.now ++ 58 ∷ name.now) result }
{
    if kind == b"role".as_slice() {
        read_role(name)
    } else if kind == b"user".as_slice() {
        read_user(name)
    } else if kind == b"device".as_slice() {
        read_device(name)
    } else {
        None
    }
}

fn read_role(name: &[u8]) -> Option<Scope>
    ensures { Reads IsScope spell_scope (codes "role:" ++ name.now) result }
{
    let role = RoleName::read(name)?;
    Some(Scope::Role(role))
}

fn read_user(name: &[u8]) -> Option<Scope>
    ensures { Reads IsScope spell_scope (codes "user:" ++ name.now) result }
{
    let user = UserName::read(name)?;
    Some(Scope::User(user))
}

fn read_device(name: &[u8]) -> Option<Scope>
    ensures { Reads IsScope spell_scope (codes "device:" ++ name.now) result }
{
    let id = read_hex32(name)?;
    Some(Scope::Device(DeviceId(id)))
}
