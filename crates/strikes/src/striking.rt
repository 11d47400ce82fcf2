ghost use Rattle.std.specs.Prelude.{◌≡◌, ◌&&◌, ◌||◌};
ghost use Rattle.sha2.specs.Sha256.{sha256};
ghost use Rattle.team_sets.specs.Names.{same_name};
ghost use Rattle.team_model.specs.State.{admin};
ghost use Rattle.team_model.specs.Strikes as words;
ghost use Rattle.acts.specs.Admin.{needs_admin};

use crate::brought::{brings_device, brings_user};
use acts::{Act, Entry, needs_admin};
use tg_text::{DeviceId, RoleName, UserName};

/// Whether an act strikes what was written beside it. It takes no memory.
pub fn is_striking(act: &Act) -> bool
    ensures { result ≡ words.is_striking act.now }
{
    matches!(
        act,
        Act::RemoveMember { .. } | Act::TakeRole { .. } | Act::RemoveDevice { .. }
    )
}

/// Whether one entry strikes another, where both are lawful: only where they are concurrent. It takes no memory.
pub fn strikes(x: &Entry, y: &Entry, concurrent: bool) -> bool
    ensures { result ≡ (concurrent && words.strikes x.now y.now) }
{
    concurrent && act_strikes(&x.act, y)
}

fn act_strikes(act: &Act, y: &Entry) -> bool
    ensures { result ≡ words.act_strikes sha256 act.now y.now }
{
    match act {
        Act::RemoveMember { user } => y.user == *user || brings_in(y, user),
        Act::TakeRole { user, role } => {
            is_by_admin(y, user, role) || gives_role(&y.act, user, role)
        }
        Act::RemoveDevice { hex, .. } => y.device == *hex || brings_device_in(y, hex),
        _ => false,
    }
}

fn brings_in(y: &Entry, user: &UserName) -> bool
    ensures { result ≡ words.brings_user y.now user.now }
{
    match brings_user(y) {
        Some(brought) => brought == *user,
        None => false,
    }
}

fn brings_device_in(y: &Entry, id: &DeviceId) -> bool
    ensures { result ≡ words.brings_device y.now id.now }
{
    match brings_device(y) {
        Some(brought) => brought == *id,
        None => false,
    }
}

/// Whether the role is `admin`, and the entry is by the user and needs it.
fn is_by_admin(y: &Entry, user: &UserName, role: &RoleName) -> bool
    ensures { result ≡ (same_name role.now admin && (same_name y.now.user user.now && needs_admin y.now)) }
{
    *role == RoleName::admin() && y.user == *user && needs_admin(y)
}

fn gives_role(act: &Act, user: &UserName, role: &RoleName) -> bool
    ensures { result ≡ words.gives_role act.now user.now role.now }
{
    match act {
        Act::GiveRole {
            user: given,
            role: gift,
        } => *given == *user && *gift == *role,
        _ => false,
    }
}
