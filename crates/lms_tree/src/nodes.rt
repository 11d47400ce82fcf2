ghost use Rattle.std.specs.Prelude.{◌≡◌, ◌*◌, ◌+◌, ◌≤◌, ◌<◌, ◌%◌, length, IfOk};
ghost use Rattle.lms_tree.specs.LmsKinds.{lms_row, leaves_of};
ghost use Rattle.lms_tree.specs.Nodes.{HoldsFrom, IsTree, leaf_hash, inner_hash, sibling};

use crate::tree_key::TreeKey;
use lms_ots::{front_of, ots_public};
use sha2::{Digest, Sha256};
use std::alloc::Global;
use tg_text::Memory;

const D_LEAF: u16 = 0x8282;

const D_INTR: u16 = 0x8383;

/// The hash of a leaf, of its one-time key.
pub fn leaf_hash(id: &[u8; 16], r: u32, key: &[u8; 32]) -> [u8; 32]
    ensures { result ≡ leaf_hash id.now r key.now }
{
    let mut hasher = Sha256::new();
    hasher.update(&front_of(id, r, D_LEAF));
    hasher.update(key);
    hasher.finalize()
}

/// The hash of a node, of the two below it.
pub fn inner_hash(id: &[u8; 16], r: u32, left: &[u8; 32], right: &[u8; 32]) -> [u8; 32]
    ensures { result ≡ inner_hash id.now r left.now right.now }
{
    let mut hasher = Sha256::new();
    hasher.update(&front_of(id, r, D_INTR));
    hasher.update(left);
    hasher.update(right);
    hasher.finalize()
}

/// The other node below the same one.
pub fn sibling(r: u32) -> u32
    requires { r < 2147483648 }
    ensures { result ≡ sibling r }
{
    if r % 2 == 1 { r - 1 } else { r + 1 }
}

/// All nodes of a tree, each at its number.
pub fn make_nodes(alloc: Global, key: &TreeKey) -> Result<Vec<[u8; 32]>, Memory>
    requires { (lms_row key.now.lms).h ≤ 15 }
    ensures { IfOk result (λ nodes. IsTree key.now nodes.items) }
{
    let mut nodes = vec![in alloc; [0; 32]; 2 * key.lms.leaves() as usize]?;
    fill_leaves(key, nodes.as_mut_slice());
    fill_inner(key, nodes.as_mut_slice());
    Ok(nodes)
}

fn fill_leaves(key: &TreeKey, nodes: &mut [[u8; 32]])
    requires low { (lms_row key.now.lms).h ≤ 15 }
    requires size { length nodes.old ≡ 2 * leaves_of key.now.lms }
    ensures { HoldsFrom key.now (leaves_of key.now.lms) nodes.new }
{
    let leaves = key.lms.leaves();
    for q in 0..leaves {
        let public = ots_public(key.ots, &key.id, q, &key.seed);
        nodes[(leaves + q) as usize] = leaf_hash(&key.id, leaves + q, &public);
    }
}

fn fill_inner(key: &TreeKey, nodes: &mut [[u8; 32]])
    requires low { (lms_row key.now.lms).h ≤ 15 }
    requires size { length nodes.old ≡ 2 * leaves_of key.now.lms }
    requires leaves { HoldsFrom key.now (leaves_of key.now.lms) nodes.old }
    ensures { HoldsFrom key.now 1 nodes.new }
{
    let mut r = key.lms.leaves();
    while r > 1 {
        r -= 1;
        let below = 2 * r as usize;
        nodes[r as usize] = inner_hash(&key.id, r, &nodes[below], &nodes[below + 1]);
    }
}
