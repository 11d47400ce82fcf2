use crate::fault::SampleFault;
use link_text::finish;
use lms_tree::Tree;
use std::alloc::Global;
use tg_text::Bytes;

/// Ann's key: types 5 and 3, the id of sixteen bytes 0x11 and the seed of 32 bytes 0x22. It has 32 leaves.
pub fn own_key(alloc: Global) -> Result<Tree, SampleFault> {
    Ok(Tree::make(alloc, 5, 3, &[0x11; 16], &[0x22; 32])?)
}

/// The key of somebody who isn't on the team: types 5 and 3, the id of sixteen bytes 0x44 and the seed of 32 bytes 0x55.
pub fn other_key(alloc: Global) -> Result<Tree, SampleFault> {
    Ok(Tree::make(alloc, 5, 3, &[0x44; 16], &[0x55; 32])?)
}

/// The key of the shipped team: types 6 and 3, and the id and seed of `own_key`. It has 1,024 leaves.
pub fn tall_key(alloc: Global) -> Result<Tree, SampleFault> {
    Ok(Tree::make(alloc, 6, 3, &[0x11; 16], &[0x22; 32])?)
}

/// The text of a link: a body, signed by a leaf. A leaf past the last is `NoKey`.
pub fn sign(alloc: Global, key: &Tree, leaf: u32, body: &[u8]) -> Result<Bytes, SampleFault> {
    if leaf >= key.leaves() {
        return Err(SampleFault::NoKey);
    }
    let signature = key.sign(alloc, leaf, body)?;
    Ok(finish(alloc, body, signature.as_slice())?)
}
