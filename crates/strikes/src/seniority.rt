ghost use Rattle.std.specs.Prelude.{◌≡◌, [], List, ℕ, IfOk, OnErr, OnOk};
ghost use Rattle.strikes.specs.Noted.{is_smaller, noted, rank_of};

use std::alloc::Global;
use std::collections::BTreeMap;
use std::marker::Model;
use tg_text::{LinkName, Memory, UserName};

/// The seniority of users: of each the least place, a height and a name, of the links noted for him. The smaller it is, the more
/// senior is the user.
#[derive(Drop)]
pub struct Seniority {
    places: BTreeMap<UserName, (u32, LinkName)>,
}

impl Model for Seniority {
    ghost use Rattle.std.specs.Prelude.{ℕ, List};
    ghost use Rattle.team_sets.specs.Names.{Name};

    ghost Value = { List (Name × (ℕ × Name)) };

    ghost view = { λ it. it.places.entries };
}

impl Seniority {
    /// Nobody's. The allocator is kept for those to come.
    pub fn new(alloc: Global) -> Seniority
        ensures { result ≡ [] }
    {
        Seniority {
            places: BTreeMap::new(alloc),
        }
    }

    /// Notes the place of a link that brings the user in, and answers whether it is the user's first or smaller than all before.
    ///
    /// Where memory is short all is as before.
    pub fn note(&mut self, user: UserName, height: u32, name: LinkName) -> Result<bool, Memory>
        ensures answer { IfOk result (λ smaller. smaller ≡ is_smaller (height, name) (rank_of self.old user)) }
        ensures ok { OnOk result ((u : List ℕ) → rank_of self.new u ≡ noted user (height, name) (rank_of self.old) u) }
        ensures err { OnErr result (self.new ≡ self.old) }
    {
        if !self.is_smaller(&user, height, &name) {
            return Ok(false);
        }
        self.places.insert(user, (height, name))?;
        Ok(true)
    }

    fn is_smaller(&self, user: &UserName, height: u32, name: &LinkName) -> bool
        ensures { result ≡ is_smaller (height, name.now) (rank_of self.now user.now) }
    {
        match self.rank(user) {
            Some(place) => (height, *name).cmp(&place).is_lt(),
            None => true,
        }
    }

    /// The least place noted for a user, where one was. It takes no memory.
    pub fn rank(&self, user: &UserName) -> Option<(u32, LinkName)>
        ensures { result ≡ rank_of self.now user.now }
    {
        match self.places.get(user) {
            Some(place) => Some(*place),
            None => None,
        }
    }

    /// An equal value.
    pub fn copy(&self) -> Result<Seniority, Memory>
        ensures { IfOk result (λ it. it ≡ self.now) }
    {
        let places = self.places.clone()?;
        Ok(Seniority { places })
    }
}
