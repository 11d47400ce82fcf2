ghost use Rattle.std.specs.Prelude.{◌≡◌, ◌+◌, ◌-◌, ◌*◌, ◌<◌, ◌≤◌, ◌↔◌, ◌++◌, length, IfOk, IsTrue};
ghost use Rattle.std.specs.List.{concat};
ghost use Rattle.lms_ots.specs.Kinds.{ots_row, ots_length};
ghost use Rattle.lms_ots.specs.Digits.{u32str};
ghost use Rattle.lms_tree.specs.LmsKinds.{lms_row, lms_length, leaves_of};
ghost use Rattle.lms_tree.specs.Making.{AreTypes, IsMadeFrom};
ghost use Rattle.lms_tree.specs.Nodes.{path_of};
ghost use Rattle.lms_tree.specs.Signatures.{public_key, leaf_signature, signature_of};
ghost use Rattle.lms_tree.specs.Verifying.{verifies};

use crate::fault::TreeFault;
use crate::lms_kind::LmsKind;
use crate::nodes::{make_nodes, sibling};
use crate::tree_key::TreeKey;
use lms_ots::{OtsKind, fill_secrets, ots_random, ots_sign};
use std::alloc::Global;
use std::marker::Model;
use tg_text::{Bytes, Memory, PublicKey};

/// A tree with all its nodes, which signs once with each leaf. Whoever holds it keeps count of the leaves used.
#[derive(Drop)]
pub struct Tree {
    key: TreeKey,
    nodes: Vec<[u8; 32]>,
}

impl Model for Tree {
    ghost use Rattle.lms_tree.specs.declared.tree_key.TreeKey.{TreeKey};
    ghost use Rattle.lms_tree.specs.Nodes.{IsTree};

    ghost Value = { TreeKey };

    ghost view = { λ it. it.key };

    ghost invariant = { λ it. IsTree it.key it.nodes.items };
}

impl Tree {
    /// Makes the tree of two type numbers, an id and a seed, which takes 540 to 8,700 hashes a leaf, by the type.
    pub fn make(
        alloc: Global,
        lms: u32,
        ots: u32,
        id: &[u8; 16],
        seed: &[u8; 32],
    ) -> Result<Tree, TreeFault>
        ensures kind { (result ≡ Err TreeFault.Kind) ↔ (AreTypes lms ots → ⊥) }
        ensures height { (result ≡ Err TreeFault.Height) ↔ (AreTypes lms ots × (8 ≤ lms)) }
        ensures made { IfOk result (λ tree. IsMadeFrom lms ots id.now seed.now tree) }
    {
        let Some(lms) = LmsKind::of(lms) else {
            return Err(TreeFault::Kind)
        };
        let Some(ots) = OtsKind::of(ots) else {
            return Err(TreeFault::Kind)
        };
        if lms.height() > 15 {
            return Err(TreeFault::Height);
        }
        let key = TreeKey {
            lms,
            ots,
            id: *id,
            seed: *seed,
        };
        let nodes = make_nodes(alloc, &key)?;
        Ok(Tree { key, nodes })
    }

    /// The public key: the two type numbers, the id and the root (RFC 8554 section 5.3).
    pub fn public(&self) -> PublicKey
        ensures { result ≡ public_key self.now }
    {
        let mut bytes = [0; 56];
        write_public(&self.key, &self.nodes[1], &mut bytes);
        PublicKey(bytes)
    }

    /// The number of leaves.
    pub fn leaves(&self) -> u32
        ensures { result ≡ leaves_of self.now.lms }
    {
        self.key.lms.leaves()
    }

    /// The length of a signature, in bytes.
    pub fn length(&self) -> usize
        ensures { result ≡ lms_length self.now.lms self.now.ots }
    {
        self.key.lms.signature_length(self.key.ots)
    }

    /// Signs with the leaf q. The same leaf and message give the same bytes; a leaf must sign no two messages.
    pub fn sign(&self, alloc: Global, q: u32, message: &[u8]) -> Result<Bytes, Memory>
        requires { q < leaves_of self.now.lms }
        ensures bytes { IfOk result (λ signature. signature ≡ signature_of self.now q message.now) }
        ensures verifies { IfOk result (λ signature. IsTrue (verifies (public_key self.now) message.now signature)) }
    {
        let mut out = vec![in alloc; 0; self.length()]?;
        self.sign_into(q, message, out.as_mut_slice());
        Ok(Bytes::from_vec(out))
    }

    /// Writes what `sign` gives.
    pub fn sign_into(&self, q: u32, message: &[u8], out: &mut [u8])
        requires leaf { q < leaves_of self.now.lms }
        requires room { length out.old ≡ lms_length self.now.lms self.now.ots }
        ensures bytes { out.new ≡ signature_of self.now q message.now }
        ensures verifies { IsTrue (verifies (public_key self.now) message.now out.new) }
    {
        let (leaf, rest) = out.split_at_mut(4);
        let (signature, rest) = rest.split_at_mut(self.key.ots.length());
        let (number, path) = rest.split_at_mut(4);
        leaf.copy_from_slice(&q.to_be_bytes());
        sign_leaf(&self.key, q, message, signature);
        number.copy_from_slice(&self.key.lms.number().to_be_bytes());
        self.write_path(q, path);
    }

    /// The siblings of the nodes from the leaf q up to below the root.
    pub fn path(&self, alloc: Global, q: u32) -> Result<Vec<[u8; 32]>, Memory>
        requires { q < leaves_of self.now.lms }
        ensures { IfOk result (λ path. path.items ≡ path_of self.now q) }
    {
        let mut path = vec![in alloc; [0; 32]; self.key.lms.height()]?;
        self.fill_path(q, path.as_mut_slice());
        Ok(path)
    }

    fn write_path(&self, q: u32, out: &mut [u8])
        requires leaf { q < leaves_of self.now.lms }
        requires room { length out.old ≡ 32 * (lms_row self.now.lms).h }
        ensures { out.new ≡ concat (path_of self.now q) }
    {
        let mut path = [[0; 32]; 15];
        let path = &mut path[..self.key.lms.height()];
        self.fill_path(q, path);
        out.copy_from_slice(path.as_flattened());
    }

    fn fill_path(&self, q: u32, path: &mut [[u8; 32]])
        requires leaf { q < leaves_of self.now.lms }
        requires room { length path.old ≡ (lms_row self.now.lms).h }
        ensures { path.new ≡ path_of self.now q }
    {
        let mut r = self.key.lms.leaves() + q;
        for node in path.iter_mut() {
            *node = self.nodes[sibling(r) as usize];
            r /= 2;
        }
    }
}

fn write_public(key: &TreeKey, root: &[u8; 32], out: &mut [u8])
    requires { length out.old ≡ 56 }
    ensures { out.new ≡ u32str (lms_row key.now.lms).number ++ u32str (ots_row key.now.ots).number ++ key.now.id ++ root.now }
{
    let (lms, rest) = out.split_at_mut(4);
    let (ots, rest) = rest.split_at_mut(4);
    let (id, node) = rest.split_at_mut(16);
    lms.copy_from_slice(&key.lms.number().to_be_bytes());
    ots.copy_from_slice(&key.ots.number().to_be_bytes());
    id.copy_from_slice(&key.id);
    node.copy_from_slice(root);
}

fn sign_leaf(key: &TreeKey, q: u32, message: &[u8], out: &mut [u8])
    requires { length out.old ≡ ots_length key.now.ots }
    ensures { out.new ≡ leaf_signature key.now q message.now }
{
    let mut secrets = [[0; 32]; 265];
    let secrets = &mut secrets[..key.ots.p()];
    fill_secrets(key.ots, &key.id, q, &key.seed, secrets);
    let random = ots_random(&key.id, q, &key.seed);
    ots_sign(key.ots, &key.id, q, secrets, &random, message, out);
}
