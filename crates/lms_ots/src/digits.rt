ghost use Rattle.std.specs.Prelude.{◌≡◌, ◌+◌, ◌*◌, ◌/◌, ◌<◌, ◌++◌, length};
ghost use Rattle.lms_ots.specs.Kinds.{IsWidth};
ghost use Rattle.lms_ots.specs.Digits.{coef, checksum, message_digits};

use crate::chains::front_of;
use crate::kind::OtsKind;
use sha2::{Digest, Sha256};

const D_MESG: u16 = 0x8181;

/// The i-th digit of w bits of a string (RFC 8554 section 3.1.3).
pub fn coef(s: &[u8], i: u32, w: u32) -> u8
    requires width { IsWidth w }
    requires within { i * w / 8 < length s.now }
    ensures { result ≡ coef s.now i w }
{
    let byte = s[i as usize * w as usize / 8];
    let above = w * (i % (8 / w)) + w;
    (byte >> (8 - above)) & (u8::MAX >> (8 - w))
}

/// The checksum of the digits of a hash (RFC 8554 section 4.4).
pub fn checksum(kind: OtsKind, q: &[u8; 32]) -> u16
    ensures { result ≡ checksum kind q.now }
{
    let w = kind.w();
    let mut sum: u16 = 0;
    for i in 0..256 / w {
        sum += kind.steps() - u16::from(coef(q, i, w));
    }
    sum << kind.ls()
}

/// The hash of the message and its checksum, whose digits say how far each chain runs.
pub fn message_digits(kind: OtsKind, id: &[u8; 16], q: u32, c: &[u8], message: &[u8]) -> [u8; 34]
    ensures { result ≡ message_digits kind id.now q c.now message.now }
{
    let mut hasher = Sha256::new();
    hasher.update(&front_of(id, q, D_MESG));
    hasher.update(c);
    hasher.update(message);
    let hashed = hasher.finalize();
    let mut digits = [0; 34];
    digits[..32].copy_from_slice(&hashed);
    digits[32..].copy_from_slice(&checksum(kind, &hashed).to_be_bytes());
    digits
}
