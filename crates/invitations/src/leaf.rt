//! What a token's leaf leads to.
ghost use Rattle.std.specs.Prelude.{◌≡◌, ◌↔◌, length, take, IsTrue};
ghost use Rattle.tg_text.specs.Spelling.{AreBytes};
ghost use Rattle.std.specs.Str.{bytes_eq};
ghost use Rattle.lms_tree.specs.Verifying.{id_in, root_in};
ghost use Rattle.invitations.specs.TokenText.{HasFields, IsFor, IsToken, root_from};

use crate::token::Token;
use acts::InviteKind;
use lms_ots::{OtsKind, public_of_secrets};
use lms_tree::{LmsKind, root_over};
use tg_text::{PublicKey, UserName};

// Whether values in their ranges are a token.
pub(crate) fn is_token(token: &Token) -> bool
    requires { HasFields token.now }
    ensures { IsTrue result ↔ IsToken token.now }
{
    is_for(token.kind, &token.user) && leads_to_root(token)
}

// Whether an invitation of this kind names this user, or nobody.
fn is_for(kind: InviteKind, user: &Option<UserName>) -> bool
    ensures { IsTrue result ↔ IsFor kind user.now }
{
    match (kind, user) {
        (InviteKind::Member, None) => true,
        (InviteKind::Device, Some(_)) => true,
        _ => false,
    }
}

fn leads_to_root(token: &Token) -> bool
    requires { HasFields token.now }
    ensures { result ≡ bytes_eq (root_from token.now) (root_in token.now.public) }
{
    root_of(token).as_slice() == token.public.as_slice().split_at(24).1
}

fn root_of(token: &Token) -> [u8; 32]
    requires { HasFields token.now }
    ensures { result ≡ root_from token.now }
{
    let id = id_of(&token.public);
    let key = public_of_secrets(OtsKind::W4, &id, token.leaf, token.secrets.as_slice());
    root_over(LmsKind::H5, &id, token.leaf, &key, token.path.as_slice())
}

// The identifier I of a public key.
pub(crate) fn id_of(key: &PublicKey) -> [u8; 16]
    ensures { result ≡ id_in key.now }
{
    let mut id = [0; 16];
    id.copy_from_slice(&key.as_slice()[8..24]);
    id
}

// The first half of a word.
pub(crate) fn front_half(word: &[u8; 32]) -> [u8; 16]
    ensures front { result ≡ take 16 word.now }
    ensures size { length result ≡ 16 }
    ensures bytes { AreBytes result }
{
    let mut half = [0; 16];
    half.copy_from_slice(word.split_at(16).0);
    half
}
