//! Reading messages: the kind, the team, and then what a message of the kind says.
ghost use Rattle.std.specs.Prelude.{◌≡◌, IfOk};
ghost use Rattle.tg_text.specs.Reading.{Reads, Takes};
ghost use Rattle.tg_text.specs.Spelling.{AreBytes};
ghost use Rattle.handshake.specs.Messages.{IsClaim, IsContentOf, IsHead, IsMessage, IsNamed, claim_lines, content_lines, fault_line, head_lines, message_text, sign_line};

use crate::fault::GreetFault;
use crate::lines::{next_fault, next_hash, next_key, next_kind, next_signature, next_user};
use crate::message::{Claim, Content, Head, Kind, Message};
use std::alloc::Global;
use tg_text::{Bytes, Lines, LinkName, Memory};

/// The message that the bytes are. Memory is taken for a signature alone.
pub(crate) fn read_message(alloc: Global, bytes: &[u8]) -> Result<Option<Message>, Memory>
    ensures { IfOk result (λ found. Reads IsMessage message_text bytes.now found) }
{
    let mut lines = Lines::new(bytes);
    let Some(head) = next_head(&mut lines) else {
        return Ok(None);
    };
    match read_content(alloc, head.kind, lines.rest())? {
        Some(content) => Ok(Some(Message {
            team: head.team,
            content,
        })),
        None => Ok(None),
    }
}

// The first two lines of a message.
fn next_head(lines: &mut Lines) -> Option<Head>
    ensures { Takes IsHead head_lines lines.old lines.new result }
{
    let kind = next_kind(lines)?;
    let team = next_hash(lines, b"team")?;
    Some(Head {
        kind,
        team: LinkName(team),
    })
}

// What a message of a kind says, by the lines after that of the team.
fn read_content(alloc: Global, kind: Kind, text: &[u8]) -> Result<Option<Content>, Memory>
    ensures { IfOk result (λ found. Reads (IsContentOf kind) content_lines text.now found) }
{
    match kind {
        Kind::Claim => Ok(read_claims(text)),
        Kind::Proof => read_proves(alloc, text),
        Kind::Welcome => Ok(read_welcomes(text)),
        Kind::Refuse => Ok(read_refuses(text)),
    }
}

fn read_claims(text: &[u8]) -> Option<Content>
    ensures { Reads (IsContentOf Kind.Claim) content_lines text.now result }
{
    let claim = read_claim(text)?;
    Some(Content::Claims(claim))
}

fn read_claim(text: &[u8]) -> Option<Claim>
    ensures { Reads IsClaim claim_lines text.now result }
{
    let mut lines = Lines::new(text);
    let user = next_user(&mut lines)?;
    let key = next_key(&mut lines)?;
    let nonce = next_hash(&mut lines, b"nonce")?;
    if !lines.rest().is_empty() {
        return None;
    }
    Some(Claim { user, key, nonce })
}

fn read_proves(alloc: Global, text: &[u8]) -> Result<Option<Content>, Memory>
    ensures { IfOk result (λ found. Reads (IsContentOf Kind.Proof) content_lines text.now found) }
{
    match read_signature(alloc, text)? {
        Some(signature) => Ok(Some(Content::Proves(signature))),
        None => Ok(None),
    }
}

fn read_signature(alloc: Global, text: &[u8]) -> Result<Option<Bytes>, Memory>
    ensures { IfOk result (λ found. Reads AreBytes sign_line text.now found) }
{
    let mut lines = Lines::new(text);
    let signature = next_signature(alloc, &mut lines)?;
    if !lines.rest().is_empty() {
        return Ok(None);
    }
    Ok(signature)
}

fn read_welcomes(text: &[u8]) -> Option<Content>
    ensures { Reads (IsContentOf Kind.Welcome) content_lines text.now result }
{
    if !text.is_empty() {
        return None;
    }
    Some(Content::Welcomes)
}

fn read_refuses(text: &[u8]) -> Option<Content>
    ensures { Reads (IsContentOf Kind.Refuse) content_lines text.now result }
{
    let fault = read_refused(text)?;
    Some(Content::Refuses(fault))
}

fn read_refused(text: &[u8]) -> Option<GreetFault>
    ensures { Reads IsNamed fault_line text.now result }
{
    let mut lines = Lines::new(text);
    let fault = next_fault(&mut lines)?;
    if !lines.rest().is_empty() {
        return None;
    }
    Some(fault)
}
