//! The tables of token files and proof files.
//!
//! Invitations here are made of the words 0x11 and 0x22, 32 times each, for 32 uses in the team 0x07 .. 07.
ghost use Rattle.std.specs.Prelude.{IfOk, IfSome};
ghost use Rattle.invitations.specs.TokenText.{IsToken, IsTokenFile};

use crate::tables::says;
use acts::InviteKind;
use invitations::{Invite, Proof, Token, TokenFile, make_invite, prove, used_text};
use std::alloc::Global;
use std::str;
use tg_outside::{ListEntropy, MakeFault};
use tg_text::{Bytes, LinkName, Memory, UserName, number_at};

pub fn token_file(alloc: Global, text: &[u8]) -> Result<Option<Bytes>, Memory> {
    match TokenFile::read(alloc, text)? {
        Some(TokenFile::Fresh(token)) => written(token.write(alloc)?),
        Some(TokenFile::Used) => written(Bytes::from_slice(alloc, used_text())?),
        None => Ok(None),
    }
}

pub fn proof_file(alloc: Global, text: &[u8]) -> Result<Option<Bytes>, Memory> {
    match Proof::read(alloc, text)? {
        Some(proof) => written(proof.write(alloc)?),
        None => Ok(None),
    }
}

/// The token that is made for the user and the leaf of the token in the text.
pub fn made_token(alloc: Global, text: &[u8]) -> Result<Option<Bytes>, Memory> {
    match TokenFile::read(alloc, text)? {
        Some(TokenFile::Fresh(token)) => token_text(alloc, token.user, token.leaf),
        _ => Ok(None),
    }
}

/// The proof that such a token makes of who comes in by the proof in the text.
pub fn made_proof(alloc: Global, text: &[u8]) -> Result<Option<Bytes>, Memory> {
    let Some(like) = Proof::read(alloc, text)? else {
        return Ok(None);
    };
    if like.signature.len() < 4 {
        return Ok(None);
    }
    let owner = match like.kind {
        InviteKind::Member => None,
        InviteKind::Device => Some(like.user),
    };
    let leaf = number_at(like.signature.as_slice(), 0);
    let token = fresh_token(alloc, owner, leaf)?;
    match token {
        Some(token) => {
            let proof = prove(alloc, &token, &like.user, &like.key, &like.seal)?;
            written(proof.write(alloc)?)
        }
        None => Ok(None),
    }
}

/// Whether the text of a member's token of leaf 2 is a token's still, once `OLD=>NEW` was done to it.
pub fn token_changed(alloc: Global, change: &[u8]) -> Result<Option<Bytes>, Memory> {
    let Some(text) = token_text(alloc, None, 2)? else {
        return Ok(None);
    };
    let Some(text) = changed(alloc, text.as_slice(), change)? else {
        return says(alloc, "unchanged");
    };
    match TokenFile::read(alloc, text.as_slice())? {
        Some(_) => says(alloc, "token"),
        None => Ok(None),
    }
}

fn written(text: Bytes) -> Result<Option<Bytes>, Memory> {
    Ok(Some(text))
}

// The text of the token of a leaf: a device's where a user is named, and else a member's.
fn token_text(alloc: Global, user: Option<UserName>, leaf: u32) -> Result<Option<Bytes>, Memory> {
    let Some(invite) = invitation_for(alloc, user)? else {
        return Ok(None);
    };
    match invite.tokens.as_slice().get(leaf as usize) {
        Some(token) => written(token.write(alloc)?),
        None => Ok(None),
    }
}

fn fresh_token(alloc: Global, user: Option<UserName>, leaf: u32) -> Result<Option<Token>, Memory>
    ensures { IfOk result (λ found. IfSome found IsToken) }
{
    let Some(text) = token_text(alloc, user, leaf)? else {
        return Ok(None);
    };
    let file = TokenFile::read(alloc, text.as_slice())?;
    Ok(fresh_in(file))
}

fn fresh_in(file: Option<TokenFile>) -> Option<Token>
    requires { IfSome file IsTokenFile }
    ensures { IfSome result IsToken }
{
    match file {
        Some(TokenFile::Fresh(token)) => Some(token),
        _ => None,
    }
}

fn invitation_for(alloc: Global, user: Option<UserName>) -> Result<Option<Invite>, Memory> {
    let words = [[0x11; 32], [0x22; 32]];
    let mut entropy = ListEntropy::new(&words, Vec::new(alloc));
    let team = LinkName([7; 32]);
    let made = match user {
        Some(owner) => {
            let owner = Some(owner);
            make_invite(alloc, &mut entropy, &team, InviteKind::Device, owner, 32)
        }
        None => make_invite(alloc, &mut entropy, &team, InviteKind::Member, None, 32),
    };
    match made {
        Ok(invite) => Ok(Some(invite)),
        Err(MakeFault::EntropyFault) => Ok(None),
        Err(MakeFault::Memory) => Err(Memory),
    }
}

// A text in which NEW stands in the place of the first OLD, by a change `OLD=>NEW`.
fn changed(alloc: Global, text: &[u8], change: &[u8]) -> Result<Option<Bytes>, Memory> {
    let (Ok(text), Ok(change)) = (str::from_utf8(text), str::from_utf8(change)) else {
        return Ok(None);
    };
    let Some((old, new)) = change.split_once("=>") else {
        return Ok(None);
    };
    let Some((front, back)) = text.split_once(old) else {
        return Ok(None);
    };
    let mut out = Bytes::from_slice(alloc, front.as_bytes())?;
    out.append(new.as_bytes())?;
    out.append(back.as_bytes())?;
    Ok(Some(out))
}
