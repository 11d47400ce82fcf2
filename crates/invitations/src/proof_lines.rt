//! The lines of a proof, read part by part.
ghost use Rattle.std.specs.Prelude.{◌≡◌, IfOk};
ghost use Rattle.tg_text.specs.Reading.{Reads, Takes};
ghost use Rattle.invitations.specs.Parts.{AreAdmitted, AreOfDevice, AreOfProof, AreSigned, admitted_lines, made_proof, of_device_lines, of_proof_lines, of_proof_text, signed_lines};

use crate::lines::{next_hash, next_key, next_kind, next_signature, next_team, next_user};
use crate::proof::Proof;
use acts::InviteKind;
use std::alloc::Global;
use tg_text::{Bytes, Lines, LinkName, Memory, PublicKey, UserName, strip_front};

// The team, the kind of the invitation, and who comes in.
type Admitted = (LinkName, (InviteKind, UserName));

// The key and the seal of the device that comes in.
type OfDevice = (PublicKey, [u8; 32]);

// The invitation's key, and a signature.
type Signed = (PublicKey, Bytes);

/// All parts of a proof, in the order of its text.
pub(crate) type Parts = (Admitted, (OfDevice, Signed));

// The parts of the text of a proof.
pub(crate) fn read_proof_parts(alloc: Global, text: &[u8]) -> Result<Option<Parts>, Memory>
    ensures { IfOk result (λ found. Reads AreOfProof of_proof_text text.now found) }
{
    let Some(rest) = strip_front(text, b"team-proof-file 1\n") else {
        return Ok(None);
    };
    let mut lines = Lines::new(rest);
    let parts = next_parts(alloc, &mut lines)?;
    if !lines.rest().is_empty() {
        return Ok(None);
    }
    Ok(parts)
}

// The proof of its parts.
pub(crate) fn proof_of_parts(parts: Parts) -> Proof
    ensures { result ≡ made_proof parts }
{
    let (admitted, (of_device, signed)) = parts;
    let (team, (kind, user)) = admitted;
    let (key, seal) = of_device;
    let (by, signature) = signed;
    Proof {
        team,
        kind,
        user,
        key,
        seal,
        by,
        signature,
    }
}

fn next_parts(alloc: Global, lines: &mut Lines) -> Result<Option<Parts>, Memory>
    ensures { IfOk result (λ found. Takes AreOfProof of_proof_lines lines.old lines.new found) }
{
    let admitted = next_admitted(lines);
    let of_device = next_of_device(lines);
    let signed = next_signed(alloc, lines)?;
    Ok(admitted.zip(of_device.zip(signed)))
}

fn next_admitted(lines: &mut Lines) -> Option<Admitted>
    ensures { Takes AreAdmitted admitted_lines lines.old lines.new result }
{
    next_team(lines).zip(next_kind(lines).zip(next_user(lines)))
}

fn next_of_device(lines: &mut Lines) -> Option<OfDevice>
    ensures { Takes AreOfDevice of_device_lines lines.old lines.new result }
{
    next_key(lines, b"key").zip(next_hash(lines, b"seal"))
}

fn next_signed(alloc: Global, lines: &mut Lines) -> Result<Option<Signed>, Memory>
    ensures { IfOk result (λ found. Takes AreSigned signed_lines lines.old lines.new found) }
{
    let by = next_key(lines, b"by");
    let signature = next_signature(alloc, lines)?;
    Ok(by.zip(signature))
}
