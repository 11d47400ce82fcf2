ghost use Rattle.std.specs.Prelude.{◌≡◌};
ghost use Rattle.tg_text.specs.Order.{key_cmp, scope_cmp};

use crate::bytes::Bytes;
use crate::items::Items;
use crate::names::DeviceId;
use crate::user_name::{RoleName, UserName};
use std::cmp::Ordering;

/// Whom a key is for. Scopes are ordered as they stand here, and within a kind by bytes.
#[derive(Clone, Copy, Debug, PartialEq, Eq, PartialOrd, Ord, Hash)]
pub enum Scope {
    Team,
    Role(RoleName),
    User(UserName),
    Device(DeviceId),
}

/// A key of a scope. Key ids are ordered by scope, generation and public half.
#[derive(Clone, Copy, Debug, PartialEq, Eq, PartialOrd, Ord, Hash)]
pub struct KeyId {
    pub scope: Scope,
    pub generation: u16,
    pub public: [u8; 32],
}

/// The secret of the key `of`, sealed to the key `to`.
#[derive(Debug, Drop, PartialEq, Eq)]
pub struct BoxLine {
    pub to: KeyId,
    pub of: KeyId,
    pub bytes: Bytes,
}

/// The keys that an entry brings, and the boxes that go with it.
#[derive(Debug, Drop, PartialEq, Eq)]
pub struct KeyLines {
    pub news: Items<KeyId>,
    pub boxes: Items<BoxLine>,
}

/// The order of scopes, as `cmp` gives it.
pub fn compare_scopes(scope: &Scope, other: &Scope) -> Ordering
    ensures { result ≡ scope_cmp scope.now other.now }
{
    scope.cmp(other)
}

/// The order of key ids, as `cmp` gives it.
pub fn compare_keys(key: &KeyId, other: &KeyId) -> Ordering
    ensures { result ≡ key_cmp key.now other.now }
{
    key.cmp(other)
}
