ghost use Rattle.std.specs.Prelude.{◌≡◌};
ghost use Rattle.acts.specs.Admin.{is_of_members, is_shared, needs_admin};

use crate::entry::{Act, Entry, InviteKind};
use tg_text::Scope;

/// Whether only an admin may write this entry, whatever the state. It takes no memory.
pub fn needs_admin(entry: &Entry) -> bool
    ensures { result ≡ needs_admin entry.now }
{
    match &entry.act {
        Act::AddMember { .. } => true,
        Act::AddRole { .. } => true,
        Act::RemoveRole { .. } => true,
        Act::GiveRole { .. } => true,
        Act::InviteMember { .. } => true,
        Act::Title { .. } => true,
        Act::RemoveMember { user } => *user != entry.user,
        Act::TakeRole { user, .. } => *user != entry.user,
        Act::RemoveDevice { user, .. } => *user != entry.user,
        Act::Revoke { kind, .. } => is_of_members(kind),
        Act::Rotate { scope } => is_shared(scope),
        _ => false,
    }
}

fn is_of_members(kind: &InviteKind) -> bool
    ensures { result ≡ is_of_members kind.now }
{
    matches!(kind, InviteKind::Member)
}

fn is_shared(scope: &Scope) -> bool
    ensures { result ≡ is_shared scope.now }
{
    matches!(scope, Scope::Team | Scope::Role(_))
}
