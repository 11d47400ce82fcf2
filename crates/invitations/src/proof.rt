ghost use Rattle.std.specs.Prelude.{◌≡◌, Option, Some, IfOk, IfSome};
ghost use Rattle.tg_text.specs.Reading.{Reads};
ghost use Rattle.acts.specs.ProofText.{proof_body};
ghost use Rattle.lms_tree.specs.Verifying.{verifies};
ghost use Rattle.invitations.specs.Parts.{AreOfProof, Chooses, proof_parts};
ghost use Rattle.invitations.specs.ProofFile.{IsProof, admission_of, proof_text};
ghost use Rattle.invitations.specs.declared.proof.Proof.{Proof};

use crate::kind::word_of;
use crate::proof_lines::{Parts, proof_of_parts, read_proof_parts};
use acts::{InviteKind, proof_body};
use lms_tree::verify;
use std::alloc::Global;
use tg_text::{
    Bytes, LinkName, Memory, PublicKey, UserName, write_base64_line, write_hex_line,
    write_text_line,
};

/// What somebody shows to be admitted: a token's signature over who comes in.
#[derive(Debug, Drop)]
pub struct Proof {
    pub team: LinkName,
    /// The kind of the invitation.
    pub kind: InviteKind,
    /// The user who comes in, or whose device does.
    pub user: UserName,
    /// The public key of the device that comes in.
    pub key: PublicKey,
    /// The sealing public of that device.
    pub seal: [u8; 32],
    /// The public key of the invitation.
    pub by: PublicKey,
    /// The signature under `by`.
    pub signature: Bytes,
}

impl Proof {
    /// The proof that the text of a proof file spells: None exactly where the bytes are no proof file's. The signature is
    /// verified.
    pub fn read(alloc: Global, bytes: &[u8]) -> Result<Option<Proof>, Memory>
        ensures { IfOk result (λ found. Reads IsProof proof_text bytes.now found) }
    {
        let found = read_proof_parts(alloc, bytes)?;
        let proof = proof_in(alloc, found)?;
        Ok(proof)
    }

    /// The text of the proof file.
    pub fn write(&self, alloc: Global) -> Result<Bytes, Memory>
        ensures text { IfOk result (λ bytes. bytes ≡ proof_text self.now) }
        ensures read_again { IfOk result (λ bytes. IsProof self.now → (found : Option Proof) → Reads IsProof proof_text bytes found → found ≡ Some self.now) }
    {
        let mut out = Bytes::new(alloc);
        out.append(b"team-proof-file 1\n")?;
        write_hex_line(&mut out, b"team", self.team.as_slice())?;
        write_text_line(&mut out, b"kind", word_of(self.kind))?;
        write_text_line(&mut out, b"user", self.user.as_slice())?;
        write_base64_line(&mut out, b"key", self.key.as_slice())?;
        write_hex_line(&mut out, b"seal", &self.seal)?;
        write_base64_line(&mut out, b"by", self.by.as_slice())?;
        write_base64_line(&mut out, b"sign", self.signature.as_slice())?;
        Ok(out)
    }
}

// The proof of these parts, where they are those of one.
fn proof_in(alloc: Global, found: Option<Parts>) -> Result<Option<Proof>, Memory>
    requires { IfSome found AreOfProof }
    ensures { IfOk result (λ proof. Chooses IsProof proof_parts found proof) }
{
    match found {
        Some(parts) => {
            let proof = proof_of_parts(parts);
            let verifies = check_proof(alloc, &proof)?;
            if verifies { Ok(Some(proof)) } else { Ok(None) }
        }
        None => Ok(None),
    }
}

/// Whether the signature of a proof verifies over the proof's body under the invitation's key.
pub fn check_proof(alloc: Global, proof: &Proof) -> Result<bool, Memory>
    ensures { IfOk result (λ it. it ≡ verifies proof.now.by (proof_body (admission_of proof.now)) proof.now.signature) }
{
    let body = proof_body(
        alloc,
        &proof.team,
        proof.kind,
        &proof.user,
        &proof.key,
        &proof.seal,
    )?;
    Ok(verify(
        proof.by.as_slice(),
        body.as_slice(),
        proof.signature.as_slice(),
    ))
}
