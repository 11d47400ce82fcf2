ghost use Rattle.std.specs.Prelude.{◌≡◌, ◌+◌, ◌-◌, ◌*◌, ◌^◌, ◌<◌, ◌≤◌, ◌↔◌, ◌++◌, length, take, drop, IsSome, IfSome, IsTrue};
ghost use Rattle.sha2.specs.Sha256.{sha256};
ghost use Rattle.lms_ots.specs.Kinds.{ots_row, ots_length};
ghost use Rattle.lms_ots.specs.Digits.{u32str, u16str, d_pblc, coef};
ghost use Rattle.lms_ots.specs.Ots.{ots_key, ots_public, ots_signature, candidate, is_ots, starts, ends, pieces};

use crate::chains::{chain, fill_secrets, front_of};
use crate::digits::{coef, message_digits};
use crate::kind::OtsKind;
use sha2::{Digest, Sha256};
use tg_text::number_at;

const D_PBLC: u16 = 0x8080;

/// The public key K of a leaf whose private elements are those of the seed (RFC 8554 section 4.3).
pub fn ots_public(kind: OtsKind, id: &[u8; 16], q: u32, seed: &[u8; 32]) -> [u8; 32]
    ensures { result ≡ ots_public kind id.now q seed.now }
{
    let mut secrets = [[0; 32]; 265];
    let secrets = &mut secrets[..kind.p()];
    fill_secrets(kind, id, q, seed, secrets);
    public_of_secrets(kind, id, q, secrets)
}

/// The public key K of a leaf with these private elements, for whoever holds them and no seed.
pub fn public_of_secrets(kind: OtsKind, id: &[u8; 16], q: u32, secrets: &[[u8; 32]]) -> [u8; 32]
    requires { length secrets.now ≡ (ots_row kind).p }
    ensures { result ≡ ots_key kind id.now q secrets.now }
{
    let mut hasher = Sha256::new();
    hasher.update(&front_of(id, q, D_PBLC));
    for (i, secret) in secrets.iter().enumerate() {
        hasher.update(&chain(id, q, i as u16, 0, kind.steps(), secret));
    }
    hasher.finalize()
}

/// Writes the signature of a message by the private elements of a leaf (RFC 8554 section 4.5).
pub fn ots_sign(
    kind: OtsKind,
    id: &[u8; 16],
    q: u32,
    secrets: &[[u8; 32]],
    c: &[u8; 32],
    message: &[u8],
    out: &mut [u8],
)
    requires secrets { length secrets.now ≡ (ots_row kind).p }
    requires room { length out.old ≡ ots_length kind }
    ensures bytes { out.new ≡ ots_signature kind id.now q secrets.now c.now message.now }
    ensures form { IsTrue (is_ots kind out.new) }
    ensures leads { candidate kind id.now q message.now out.new ≡ ots_key kind id.now q secrets.now }
{
    let digits = message_digits(kind, id, q, c, message);
    let (head, ys) = out.split_at_mut(36);
    write_head(kind, c, head);
    write_starts(kind, id, q, secrets, &digits, ys);
}

/// The key to which a signature of the message leads (RFC 8554 section 4.6).
pub fn ots_candidate(
    kind: OtsKind,
    id: &[u8; 16],
    q: u32,
    message: &[u8],
    signature: &[u8],
) -> Option<[u8; 32]>
    ensures form { IsSome result ↔ IsTrue (is_ots kind signature.now) }
    ensures key { IfSome result (λ key. key ≡ candidate kind id.now q message.now signature.now) }
{
    if signature.len() != kind.length() || number_at(signature, 0) != kind.number() {
        return None;
    }
    let digits = message_digits(kind, id, q, &signature[4..36], message);
    Some(key_of_starts(kind, id, q, &digits, signature.split_at(36).1))
}

fn write_head(kind: OtsKind, c: &[u8; 32], out: &mut [u8])
    requires { length out.old ≡ 36 }
    ensures { out.new ≡ u32str (ots_row kind).number ++ c.now }
{
    let (number, random) = out.split_at_mut(4);
    number.copy_from_slice(&kind.number().to_be_bytes());
    random.copy_from_slice(c);
}

fn write_starts(
    kind: OtsKind,
    id: &[u8; 16],
    q: u32,
    secrets: &[[u8; 32]],
    digits: &[u8; 34],
    out: &mut [u8],
)
    requires secrets { length secrets.now ≡ (ots_row kind).p }
    requires room { length out.old ≡ 32 * (ots_row kind).p }
    ensures { out.new ≡ starts kind id.now q digits.now 0 secrets.now }
{
    for (i, secret) in secrets.iter().enumerate() {
        let digit = digit_of(kind, digits, i);
        let start = chain(id, q, i as u16, 0, digit, secret);
        out[32 * i..32 * i + 32].copy_from_slice(&start);
    }
}

fn key_of_starts(kind: OtsKind, id: &[u8; 16], q: u32, digits: &[u8; 34], ys: &[u8]) -> [u8; 32]
    requires { length ys.now ≡ 32 * (ots_row kind).p }
    ensures { result ≡ sha256 (id.now ++ u32str q ++ u16str d_pblc ++ ends kind id.now q digits.now 0 (pieces (ots_row kind).p ys.now)) }
{
    let mut hasher = Sha256::new();
    hasher.update(&front_of(id, q, D_PBLC));
    for i in 0..kind.p() {
        let start = array_at(ys, 32 * i);
        hasher.update(&chain(
            id,
            q,
            i as u16,
            digit_of(kind, digits, i),
            kind.steps(),
            &start,
        ));
    }
    hasher.finalize()
}

fn digit_of(kind: OtsKind, digits: &[u8; 34], i: usize) -> u16
    requires { i < (ots_row kind).p }
    ensures value { result ≡ coef digits.now i (ots_row kind).w }
    ensures within { result ≤ 2 ^ (ots_row kind).w - 1 }
{
    u16::from(coef(digits, i as u32, kind.w()))
}

/// The 32 bytes from a place on.
pub fn array_at(bytes: &[u8], at: usize) -> [u8; 32]
    requires { at + 32 ≤ length bytes.now }
    ensures { result ≡ take 32 (drop at bytes.now) }
{
    let mut array = [0; 32];
    array.copy_from_slice(&bytes[at..at + 32]);
    array
}
