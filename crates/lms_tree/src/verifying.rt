ghost use Rattle.std.specs.Prelude.{◌≡◌, ◌+◌, ◌-◌, ◌*◌, ◌<◌, ◌≤◌, length, IsTrue};
ghost use Rattle.lms_ots.specs.Ots.{pieces};
ghost use Rattle.lms_tree.specs.LmsKinds.{lms_row, leaves_of};
ghost use Rattle.lms_tree.specs.Verifying.{parent, climb, root_over, root_of, is_signature, IsSignature, leads_to, verifies};

use crate::lms_kind::LmsKind;
use crate::nodes::{inner_hash, leaf_hash};
use lms_ots::{OtsKind, array_at, ots_candidate};
use tg_text::number_at;

/// Whether a signature of the message verifies under a public key (RFC 8554 section 5.4.2). Nothing is asked of the bytes.
pub fn verify(public: &[u8], message: &[u8], signature: &[u8]) -> bool
    ensures { result ≡ verifies public.now message.now signature.now }
{
    if public.len() != 56 {
        return false;
    }
    let Some(lms) = LmsKind::of(number_at(public, 0)) else {
        return false
    };
    let Some(ots) = OtsKind::of(number_at(public, 4)) else {
        return false
    };
    leads_to(lms, ots, public, message, signature)
}

fn leads_to(lms: LmsKind, ots: OtsKind, public: &[u8], message: &[u8], signature: &[u8]) -> bool
    requires { length public.now ≡ 56 }
    ensures { result ≡ leads_to lms ots public.now message.now signature.now }
{
    let mut id = [0; 16];
    id.copy_from_slice(&public[8..24]);
    is_signature(lms, ots, signature)
        && public.split_at(24).1 == root_of(lms, ots, &id, message, signature).as_slice()
}

fn is_signature(lms: LmsKind, ots: OtsKind, signature: &[u8]) -> bool
    ensures { result ≡ is_signature lms ots signature.now }
{
    if signature.len() != lms.signature_length(ots) || number_at(signature, 0) >= lms.leaves() {
        return false;
    }
    number_at(signature, 4) == ots.number()
        && number_at(signature, 4 + ots.length()) == lms.number()
}

fn root_of(lms: LmsKind, ots: OtsKind, id: &[u8; 16], message: &[u8], signature: &[u8]) -> [u8; 32]
    requires { IsSignature lms ots signature.now }
    ensures { result ≡ root_of lms ots id.now message.now signature.now }
{
    let q = number_at(signature, 0);
    let end = 4 + ots.length();
    let Some(key) = ots_candidate(ots, id, q, message, &signature[4..end]) else {
        unreachable!()
    };
    let leaf = lms.leaves() + q;
    climb(
        lms.height(),
        id,
        leaf,
        &leaf_hash(id, leaf, &key),
        signature.split_at(end + 4).1,
    )
}

/// The root to which a leaf leads, by its one-time key and the other nodes from the leaf up.
pub fn root_over(lms: LmsKind, id: &[u8; 16], q: u32, key: &[u8; 32], path: &[[u8; 32]]) -> [u8; 32]
    requires { q < leaves_of lms }
    ensures { result ≡ root_over lms id.now q key.now path.now }
{
    let leaf = lms.leaves() + q;
    climb(
        path.len(),
        id,
        leaf,
        &leaf_hash(id, leaf, key),
        path.as_flattened(),
    )
}

fn climb(height: usize, id: &[u8; 16], leaf: u32, hash: &[u8; 32], path: &[u8]) -> [u8; 32]
    requires { length path.now ≡ 32 * height }
    ensures { result ≡ climb id.now leaf hash.now (pieces height path.now) }
{
    let mut r = leaf;
    let mut node = *hash;
    for i in 0..height {
        node = parent(id, r, &node, &array_at(path, 32 * i));
        r /= 2;
    }
    node
}

fn parent(id: &[u8; 16], r: u32, node: &[u8; 32], other: &[u8; 32]) -> [u8; 32]
    ensures { result ≡ parent id.now r node.now other.now }
{
    if r % 2 == 1 {
        inner_hash(id, r / 2, other, node)
    } else {
        inner_hash(id, r / 2, node, other)
    }
}
