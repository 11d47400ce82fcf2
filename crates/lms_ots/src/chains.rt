ghost use Rattle.std.specs.Prelude.{◌≡◌, ◌-◌, ◌≤◌, ◌++◌, [], ◌∷◌, length};
ghost use Rattle.sha2.specs.Sha256.{sha256};
ghost use Rattle.lms_ots.specs.Kinds.{ots_row};
ghost use Rattle.lms_ots.specs.Digits.{u32str, u16str};
ghost use Rattle.lms_ots.specs.Chains.{chain, secret, ots_secrets, randomizer};

use crate::kind::OtsKind;
use sha2::{Digest, Sha256};

/// The number that stands for the randomizer where those of private elements stand.
const RANDOMIZER: u16 = 0xfffd;

/// The step number of a private element, which no chain reaches.
const SECRET: u8 = 0xff;

/// Runs chain i from one step to another (RFC 8554 section 4.3): the steps j with `from <= j < to`.
pub fn chain(id: &[u8; 16], q: u32, i: u16, from: u16, to: u16, start: &[u8; 32]) -> [u8; 32]
    requires order { from ≤ to }
    requires last { to ≤ 255 }
    ensures { result ≡ chain id.now q i from (to - from) start.now }
{
    let front = front_of(id, q, i);
    let mut value = *start;
    for j in from..to {
        value = hash_step(&front, j as u8, &value);
    }
    value
}

/// The private element x_q[i] of a seed (RFC 8554, Appendix A).
pub fn ots_secret(id: &[u8; 16], q: u32, i: u16, seed: &[u8; 32]) -> [u8; 32]
    ensures { result ≡ secret id.now q i seed.now }
{
    hash_step(&front_of(id, q, i), SECRET, seed)
}

/// Writes the private elements of a leaf of a seed, x_q[0] to x_q[p - 1].
pub fn fill_secrets(kind: OtsKind, id: &[u8; 16], q: u32, seed: &[u8; 32], secrets: &mut [[u8; 32]])
    requires { length secrets.old ≡ (ots_row kind).p }
    ensures { secrets.new ≡ ots_secrets kind id.now q seed.now }
{
    for (i, secret) in secrets.iter_mut().enumerate() {
        *secret = ots_secret(id, q, i as u16, seed);
    }
}

/// The randomizer C of a leaf, a function of the seed, so that signing twice gives the same bytes. It is this repository's own:
/// RFC 8554 section 4.5 draws C at random.
pub fn ots_random(id: &[u8; 16], q: u32, seed: &[u8; 32]) -> [u8; 32]
    ensures { result ≡ randomizer id.now q seed.now }
{
    ots_secret(id, q, RANDOMIZER, seed)
}

/// What every hash begins with: I, a number of 32 bits and one of 16.
pub fn front_of(id: &[u8; 16], q: u32, i: u16) -> [u8; 22]
    ensures { result ≡ id.now ++ u32str q ++ u16str i }
{
    let mut front = [0; 22];
    front[..16].copy_from_slice(id);
    front[16..].copy_from_slice(&numbers(q, i));
    front
}

fn numbers(q: u32, i: u16) -> [u8; 6]
    ensures { result ≡ u32str q ++ u16str i }
{
    let mut numbers = [0; 6];
    numbers[..4].copy_from_slice(&q.to_be_bytes());
    numbers[4..].copy_from_slice(&i.to_be_bytes());
    numbers
}

/// The hash of 55 bytes, which with their padding are one block.
fn hash_step(front: &[u8; 22], j: u8, value: &[u8; 32]) -> [u8; 32]
    ensures { result ≡ sha256 (front.now ++ j ∷ [] ++ value.now) }
{
    let mut message = [0; 55];
    message[..22].copy_from_slice(front);
    message[22] = j;
    message[23..].copy_from_slice(value);
    Sha256::digest(&message)
}
