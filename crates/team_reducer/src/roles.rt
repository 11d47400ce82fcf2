//! The roles of one member, in ascending order.
ghost use Rattle.std.specs.Prelude.{◌≡◌, ◌≤◌, ◌∷◌, ◌++◌, drop, length, take, IfOk};
ghost use Rattle.team_sets.specs.Names.{name_lt, put_in};
ghost use Rattle.team_model.specs.State.{drop_row as rows_without, put_name};

use std::alloc::Global;
use tg_text::{Memory, RoleName};

/// The roles with one more, at its place.
pub(crate) fn roles_with(
    alloc: Global,
    roles: &[RoleName],
    role: &RoleName,
) -> Result<Vec<RoleName>, Memory>
    ensures { IfOk result (λ them. them.items ≡ put_name role.now roles.now) }
{
    let mut them = roles_without(alloc, roles, role)?;
    let place = place_of_role(them.as_slice(), role);
    them.insert(place, *role)?;
    Ok(them)
}

/// The roles but for one.
pub(crate) fn roles_without(
    alloc: Global,
    roles: &[RoleName],
    role: &RoleName,
) -> Result<Vec<RoleName>, Memory>
    ensures { IfOk result (λ them. them.items ≡ rows_without (λ r. r) role.now roles.now) }
{
    let mut without = Vec::new(alloc);
    for other in roles {
        if *other != *role {
            without.push(*other)?;
        }
    }
    Ok(without)
}

// Where a role belongs: before the first that comes after it.
fn place_of_role(roles: &[RoleName], role: &RoleName) -> usize
    ensures within { result ≤ length roles.now }
    ensures place { put_in name_lt role.now roles.now ≡ take result roles.now ++ role.now ∷ drop result roles.now }
{
    for i in 0..roles.len() {
        if role.cmp(&roles[i]).is_lt() {
            return i;
        }
    }
    roles.len()
}
