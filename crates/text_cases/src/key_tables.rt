//! The tables of key files, and of the types of trees.
use crate::tables::says;
use lms_keep::KeyState;
use lms_tree::{Tree, TreeFault};
use std::alloc::Global;
use tg_text::{Bytes, Memory, read_decimal, split_once};

pub fn key_file(alloc: Global, text: &[u8]) -> Result<Option<Bytes>, Memory> {
    let Some(key) = KeyState::read(text) else {
        return Ok(None);
    };
    let text = key.write(alloc)?;
    Ok(Some(text))
}

/// What hinders a tree of an LMS type and, after a space, an LM-OTS type.
pub fn tree(alloc: Global, text: &[u8]) -> Result<Option<Bytes>, Memory> {
    let Some((lms, ots)) = types_of(text) else {
        return Ok(None);
    };
    match Tree::make(alloc, lms, ots, &[7; 16], &[9; 32]) {
        Ok(_) => says(alloc, "made"),
        Err(TreeFault::Kind) => says(alloc, "Kind"),
        Err(TreeFault::Height) => says(alloc, "Height"),
        Err(TreeFault::Memory) => Err(Memory),
    }
}

fn types_of(text: &[u8]) -> Option<(u32, u32)> {
    let (lms, ots) = split_once(text, b' ')?;
    let lms = u32::try_from(read_decimal(lms)?).ok()?;
    let ots = u32::try_from(read_decimal(ots)?).ok()?;
    Some((lms, ots))
}
