ghost use Rattle.std.specs.Prelude.{◌≡◌, IfOk, IsTrue};
ghost use Rattle.tg_text.specs.Spelling.{IsPublicKey};
ghost use Rattle.lms_tree.specs.Verifying.{verifies};
ghost use Rattle.invitations.specs.ProofFile.{IsProof, IsSigned, proof_by};
ghost use Rattle.invitations.specs.TokenText.{IsToken, signature_by};

use crate::leaf::id_of;
use crate::proof::Proof;
use crate::token::Token;
use acts::proof_body;
use lms_ots::{OtsKind, ots_sign};
use lms_tree::LmsKind;
use std::alloc::Global;
use tg_text::{Bytes, Memory, PublicKey, UserName};

/// Signs with a token that a user with this key and seal comes in. A token must sign no two messages: whoever proves with it
/// writes `used_text` over its file first.
pub fn prove(
    alloc: Global,
    token: &Token,
    user: &UserName,
    key: &PublicKey,
    seal: &[u8; 32],
) -> Result<Proof, Memory>
    requires { IsToken token.now }
    ensures proof { IfOk result (λ proof. proof ≡ proof_by token.now user.now key.now seal.now) }
    ensures verifies { IfOk result (λ proof. IsSigned proof) }
    ensures range { IsPublicKey key.now → IfOk result (λ proof. IsProof proof) }
{
    // A law: it does nothing at run time.
    user.as_slice();
    let body = proof_body(alloc, &token.team, token.kind, user, key, seal)?;
    let signature = sign(alloc, token, body.as_slice())?;
    Ok(Proof {
        team: token.team,
        kind: token.kind,
        user: *user,
        key: *key,
        seal: *seal,
        by: token.public,
        signature,
    })
}

// The signature of a message by the token's leaf, in the form of RFC 8554 section 5.4.
fn sign(alloc: Global, token: &Token, message: &[u8]) -> Result<Bytes, Memory>
    requires { IsToken token.now }
    ensures bytes { IfOk result (λ signature. signature ≡ signature_by token.now message.now) }
    ensures verifies { IfOk result (λ signature. IsTrue (verifies token.now.public message.now signature)) }
{
    let mut one_time = [0; 2180];
    ots_sign(
        OtsKind::W4,
        &id_of(&token.public),
        token.leaf,
        token.secrets.as_slice(),
        &token.random,
        message,
        &mut one_time,
    );
    let mut out = Bytes::new(alloc);
    out.append(&token.leaf.to_be_bytes())?;
    out.append(&one_time)?;
    out.append(&LmsKind::H5.number().to_be_bytes())?;
    out.append(token.path.as_slice().as_flattened())?;
    Ok(out)
}
