//! The lines of a token, read part by part.
ghost use Rattle.std.specs.Prelude.{◌≡◌, IfOk};
ghost use Rattle.tg_text.specs.Reading.{Reads, Takes};
ghost use Rattle.invitations.specs.Parts.{AreInvited, AreNodes, AreOfLeaf, AreOfToken, invited_lines, made_token, nodes_lines, of_leaf_lines, of_token_lines, of_token_text};
ghost use Rattle.invitations.specs.TokenText.{HasFields};

use crate::lines::{next_hash, next_invitation, next_kind, next_leaf, next_team, next_user_if_any};
use crate::nodes::next_hashes;
use crate::token::Token;
use acts::InviteKind;
use std::alloc::Global;
use tg_text::{Items, Lines, LinkName, Memory, PublicKey, UserName, strip_front};

// The team, the kind, and whose device is invited.
type Invited = (LinkName, (InviteKind, Option<UserName>));

// The invitation's key, the leaf and its randomizer.
type OfLeaf = (PublicKey, (u32, [u8; 32]));

// The private elements and the path.
type Nodes = (Items<[u8; 32]>, Items<[u8; 32]>);

/// All parts of a token, in the order of its text.
pub(crate) type Parts = (Invited, (OfLeaf, Nodes));

// The parts of the text of a token.
pub(crate) fn read_parts(alloc: Global, text: &[u8]) -> Result<Option<Parts>, Memory>
    ensures { IfOk result (λ found. Reads AreOfToken of_token_text text.now found) }
{
    let Some(rest) = strip_front(text, b"team-token 1\n") else {
        return Ok(None);
    };
    let mut lines = Lines::new(rest);
    let parts = next_parts(alloc, &mut lines)?;
    if !lines.rest().is_empty() {
        return Ok(None);
    }
    Ok(parts)
}

// The token of its parts.
pub(crate) fn token_of_parts(parts: Parts) -> Token
    requires { AreOfToken parts }
    ensures made { result ≡ made_token parts }
    ensures fields { HasFields result }
{
    let (invited, (of_leaf, nodes)) = parts;
    let (team, (kind, user)) = invited;
    let (public, (leaf, random)) = of_leaf;
    let (secrets, path) = nodes;
    Token {
        team,
        kind,
        user,
        public,
        leaf,
        random,
        secrets,
        path,
    }
}

fn next_parts(alloc: Global, lines: &mut Lines) -> Result<Option<Parts>, Memory>
    ensures { IfOk result (λ found. Takes AreOfToken of_token_lines lines.old lines.new found) }
{
    let invited = next_invited(lines);
    let of_leaf = next_of_leaf(lines);
    let nodes = next_nodes(alloc, lines)?;
    Ok(invited.zip(of_leaf.zip(nodes)))
}

fn next_invited(lines: &mut Lines) -> Option<Invited>
    ensures { Takes AreInvited invited_lines lines.old lines.new result }
{
    next_team(lines).zip(next_kind(lines).zip(next_user_if_any(lines)))
}

fn next_of_leaf(lines: &mut Lines) -> Option<OfLeaf>
    ensures { Takes AreOfLeaf of_leaf_lines lines.old lines.new result }
{
    next_invitation(lines).zip(next_leaf(lines).zip(next_hash(lines, b"random")))
}

fn next_nodes(alloc: Global, lines: &mut Lines) -> Result<Option<Nodes>, Memory>
    ensures { IfOk result (λ found. Takes AreNodes nodes_lines lines.old lines.new found) }
{
    let secrets = next_hashes(alloc, lines, b"x", 67)?;
    let path = next_hashes(alloc, lines, b"path", 5)?;
    Ok(secrets.zip(path))
}
