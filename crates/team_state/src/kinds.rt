//! The rows of the tables, and their keys.
ghost use Rattle.std.specs.Prelude.{refl};
ghost use Rattle.std.specs.Ordering.{nat_cmp};
ghost use Rattle.std.specs.Cmp.Lexicographic.{slice_cmp, texts_ties};
ghost use Rattle.std.proofs.Common.{rules};
ghost use Rattle.team_sets.specs.Names.{same_name};
ghost use Rattle.tg_text.specs.Order.{scope_cmp};
ghost use Rattle.key_reach.specs.Keys.{same_scope};

use crate::rows::{Piece, Row};
use std::alloc::Global;
use team_model::{Device, Invitation, Member};
use tg_text::{BoxLine, DeviceId, Items, KeyId, Memory, RoleName, Scope, UserName};

impl Piece for Member {
    fn copy(&self, alloc: Global) -> Result<Member, Memory> {
        let roles = Vec::from_slice(alloc, self.roles.as_slice())?;
        Ok(Member {
            user: self.user,
            roles: Items::from_vec(roles),
        })
    }
}

impl Row for Member {
    type Key = UserName;

    ghost key_of = { λ it. it.user };

    ghost order = { slice_cmp nat_cmp };

    ghost same = { same_name };

    ghost order_is = { λ _ _. refl };

    ghost ties = { texts_ties };

    fn key(&self) -> UserName {
        self.user
    }
}

impl Piece for RoleName {
    fn copy(&self, _alloc: Global) -> Result<RoleName, Memory> {
        Ok(*self)
    }
}

impl Row for RoleName {
    type Key = RoleName;

    ghost key_of = { λ it. it };

    ghost order = { slice_cmp nat_cmp };

    ghost same = { same_name };

    ghost order_is = { λ _ _. refl };

    ghost ties = { texts_ties };

    fn key(&self) -> RoleName {
        *self
    }
}

impl Piece for Device {
    fn copy(&self, _alloc: Global) -> Result<Device, Memory> {
        Ok(*self)
    }
}

impl Row for Device {
    type Key = DeviceId;

    ghost key_of = { λ it. it.id };

    ghost order = { slice_cmp nat_cmp };

    ghost same = { same_name };

    ghost order_is = { λ _ _. refl };

    ghost ties = { texts_ties };

    fn key(&self) -> DeviceId {
        self.id
    }
}

impl Piece for Invitation {
    fn copy(&self, _alloc: Global) -> Result<Invitation, Memory> {
        Ok(*self)
    }
}

impl Row for Invitation {
    type Key = [u8; 32];

    ghost key_of = { λ it. it.id };

    ghost order = { slice_cmp nat_cmp };

    ghost same = { same_name };

    ghost order_is = { λ _ _. refl };

    ghost ties = { texts_ties };

    fn key(&self) -> [u8; 32] {
        self.id
    }
}

impl Piece for KeyId {
    fn copy(&self, _alloc: Global) -> Result<KeyId, Memory> {
        Ok(*self)
    }
}

impl Row for KeyId {
    type Key = Scope;

    ghost key_of = { λ it. it.scope };

    ghost order = { scope_cmp };

    ghost same = { same_scope };

    ghost order_is = { Prim.search rules };

    ghost ties = { λ _ _. refl };

    fn key(&self) -> Scope {
        self.scope
    }
}

impl Piece for Scope {
    fn copy(&self, _alloc: Global) -> Result<Scope, Memory> {
        Ok(*self)
    }
}

impl Row for Scope {
    type Key = Scope;

    ghost key_of = { λ it. it };

    ghost order = { scope_cmp };

    ghost same = { same_scope };

    ghost order_is = { Prim.search rules };

    ghost ties = { λ _ _. refl };

    fn key(&self) -> Scope {
        *self
    }
}

impl Piece for BoxLine {
    fn copy(&self, alloc: Global) -> Result<BoxLine, Memory> {
        Ok(BoxLine {
            to: self.to,
            of: self.of,
            bytes: self.bytes.copy(alloc)?,
        })
    }
}
