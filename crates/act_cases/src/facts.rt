//! Facts of a state, as the tables name them.
//!
//!     title TITLE            the title
//!     member USER ROLE ..    a member who has these roles, in this order, and no others
//!     user USER              a member, whatever the roles
//!     role ROLE              a listed role
//!     device USER NAME       a device that is listed for the user
//!     row NAME               a device that was ever listed
//!     closed NAME            an invitation that is closed
//!     open NAME KIND USER USES USED EXPIRY
//!                            an open invitation with this row, in which USED has a bit for each used leaf
use crate::devices::id_of;
use acts::InviteKind;
use team_model::Invitation;
use team_reducer::TeamState;
use tg_text::{RoleName, Title, UserName, read_decimal};

/// Whether a fact is so; `None` where the text is no fact.
pub fn is_so(state: &TeamState, fact: &str) -> Option<bool> {
    let (kind, rest) = fact.split_once(' ')?;
    match kind {
        "title" => has_title(state, rest),
        "member" => has_member(state, rest),
        "user" => has_user(state, rest),
        "role" => has_role(state, rest),
        "device" => has_device(state, rest),
        "row" => Some(state.was_listed(&id_of(rest)?)),
        "closed" => is_closed(state, rest),
        "open" => is_open(state, rest),
        _ => None,
    }
}

fn has_title(state: &TeamState, title: &str) -> Option<bool> {
    let title = Title::read(title.as_bytes())?;
    match state.title() {
        Some(held) => Some(held.as_slice() == title.as_slice()),
        None => Some(false),
    }
}

fn has_user(state: &TeamState, user: &str) -> Option<bool> {
    let user = UserName::read(user.as_bytes())?;
    Some(state.lists_user(&user))
}

fn has_member(state: &TeamState, words: &str) -> Option<bool> {
    let (user, words) = words.split_once(' ').unwrap_or((words, ""));
    let user = UserName::read(user.as_bytes())?;
    let has_roles = are_roles(state.roles_of(&user), words)?;
    Some(has_roles && state.lists_user(&user))
}

// Whether the words, a space apart, are these roles in this order.
fn are_roles(roles: &[RoleName], words: &str) -> Option<bool> {
    if words.is_empty() {
        return Some(roles.is_empty());
    }
    let mut are_same = true;
    let mut count: usize = 0;
    for word in words.split(' ') {
        let role = RoleName::read(word.as_bytes())?;
        are_same = are_same && roles.get(count) == Some(&role);
        count = count.saturating_add(1);
    }
    Some(are_same && count == roles.len())
}

fn has_role(state: &TeamState, role: &str) -> Option<bool> {
    let role = RoleName::read(role.as_bytes())?;
    Some(state.lists_role(&role))
}

fn has_device(state: &TeamState, words: &str) -> Option<bool> {
    let (user, name) = words.split_once(' ')?;
    let user = UserName::read(user.as_bytes())?;
    Some(state.lists(&user, &id_of(name)?))
}

fn is_closed(state: &TeamState, name: &str) -> Option<bool> {
    let id = id_of(name)?;
    match state.invitation(&id.0) {
        Some(invitation) => Some(invitation.closed),
        None => Some(false),
    }
}

fn is_open(state: &TeamState, words: &str) -> Option<bool> {
    let (name, words) = words.split_once(' ')?;
    let (kind, words) = words.split_once(' ')?;
    let (user, words) = words.split_once(' ')?;
    let id = id_of(name)?;
    let user = UserName::read(user.as_bytes())?;
    let is_row = match state.invitation(&id.0) {
        Some(invitation) => {
            are_numbers(invitation, words)?
                && !invitation.closed
                && word_of(invitation.kind) == kind
                && invitation.user == user
        }
        None => false,
    };
    Some(is_row)
}

// Whether the words are the uses of an invitation, its used leaves and its expiry.
fn are_numbers(invitation: &Invitation, words: &str) -> Option<bool> {
    let (uses, words) = words.split_once(' ')?;
    let (used, expiry) = words.split_once(' ')?;
    let uses = read_decimal(uses.as_bytes())?;
    let used = read_decimal(used.as_bytes())?;
    let expiry = read_decimal(expiry.as_bytes())?;
    Some(
        u64::from(invitation.uses) == uses
            && u64::from(invitation.used) == used
            && invitation.expiry == expiry,
    )
}

fn word_of(kind: InviteKind) -> &'static str {
    match kind {
        InviteKind::Member => "member",
        InviteKind::Device => "device",
    }
}
