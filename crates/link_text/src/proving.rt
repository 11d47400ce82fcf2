//! Whether a link proves what it says.
ghost use Rattle.tg_text.specs.Limits.{most_link_bytes};
ghost use Rattle.tg_text.specs.Reading.{Gives, IsExact};
ghost use Rattle.std.specs.Prelude.{◌≡◌, ◌<◌, ◌↔◌, length, IfOk, Err};
ghost use Rattle.link_text.specs.Faults.{IsBadText, IsUnproved};
ghost use Rattle.link_text.specs.LinkText.{IsLink, Reads, body, has_proof, is_admitted, proves};
ghost use Rattle.team_model.specs.declared.terms.Link.{Link};

use crate::fault::LinkFault;
use crate::reading::read_text;
use acts::{Act, Entry, InviteKind, proof_body};
use lms_tree::verify;
use std::alloc::Global;
use team_model::Link;
use tg_text::{LinkName, Memory};

// What stands around the signature in its line: the word `sign`, a space and the newline.
const AROUND: usize = 6;

/// The link that a text is, which proves what it says. Its signature is verified once, in place.
pub fn read_link(alloc: Global, bytes: &[u8]) -> Result<Link, LinkFault>
    ensures found { IfOk result (λ l. IsLink bytes.now l) }
    ensures only { (l : Link) → IsLink bytes.now l → Gives LinkFault.Memory l result }
    ensures too_long { (result ≡ Err LinkFault.TooLong) ↔ (most_link_bytes < length bytes.now) }
    ensures bad_text { IsExact LinkFault.Memory LinkFault.BadText (IsBadText bytes.now) result }
    ensures bad_signature { IsExact LinkFault.Memory LinkFault.BadSignature (IsUnproved bytes.now) result }
{
    let link = read_text(alloc, bytes)?;
    if proves(alloc, &link, bytes)? {
        Ok(link)
    } else {
        Err(LinkFault::BadSignature)
    }
}

/// Whether the signature of a link with this text verifies over its body, under its key, and an admission that it makes is proved.
/// The signature is asked first: a link by another is refused after one check.
pub fn proves(alloc: Global, link: &Link, bytes: &[u8]) -> Result<bool, Memory>
    requires { Reads bytes.now link.now }
    ensures { IfOk result (λ proved. proved ≡ proves link.now) }
{
    let body = signed_part(link, bytes);
    if !verify(link.key.as_slice(), body, link.signature.as_slice()) {
        return Ok(false);
    }
    has_proof(alloc, link)
}

// Whether an admission that the link makes is proved.
fn has_proof(alloc: Global, link: &Link) -> Result<bool, Memory>
    ensures { IfOk result (λ proved. proved ≡ has_proof link.now) }
{
    match &link.team {
        Some(team) => is_admitted(alloc, team, &link.entry),
        None => Ok(true),
    }
}

// Whether the proof of an admission verifies over its proof body with this team. Other acts show none.
fn is_admitted(alloc: Global, team: &LinkName, entry: &Entry) -> Result<bool, Memory>
    ensures { IfOk result (λ proved. proved ≡ is_admitted team.now entry.now entry.now.act) }
{
    match &entry.act {
        Act::AdmitMember {
            user,
            key,
            seal,
            by,
            proof,
        } => {
            let body = proof_body(alloc, team, InviteKind::Member, user, key, seal)?;
            Ok(verify(by.as_slice(), body.as_slice(), proof.as_slice()))
        }
        Act::AdmitDevice {
            key,
            seal,
            by,
            proof,
        } => {
            let body = proof_body(alloc, team, InviteKind::Device, &entry.user, key, seal)?;
            Ok(verify(by.as_slice(), body.as_slice(), proof.as_slice()))
        }
        _ => Ok(true),
    }
}

// All before the line of the signature, which ends the text: its length is that of the signature in base64, and six.
fn signed_part<'a>(link: &Link, bytes: &'a [u8]) -> &'a [u8]
    requires { Reads bytes.now link.now }
    ensures { result.now ≡ body link.now }
{
    let digits = link.signature.len().div_ceil(3) * 4;
    bytes.split_at(bytes.len() - (digits + AROUND)).0
}
