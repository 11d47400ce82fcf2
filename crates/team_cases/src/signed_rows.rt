//! Cases about who signs a link.
use link_text::name_of;
use lms_tree::Tree;
use std::alloc::Global;
use team_samples::{SampleFault, other_key, own_key, read_pieces, sign, tall_key};
use tg_outside::Files;
use tg_text::read_hex32;

/// Whether a row `KEY LEAF NAME HEX` holds: the file is its body, signed by that leaf of that key, and has this name as a link.
pub fn signed_holds<F: Files>(alloc: Global, data: &mut F, row: &str) -> Result<bool, SampleFault> {
    let words: Vec<&str> = row.split(' ').collect(alloc)?;
    let [key, leaf, file, name] = words.as_slice() else {
        return Err(SampleFault::BadWord);
    };
    let key = key_of(alloc, key)?;
    let leaf = leaf.parse::<u32>().ok().ok_or(SampleFault::BadWord)?;
    let name = read_hex32(name.as_bytes()).ok_or(SampleFault::BadWord)?;
    let text = read_pieces(alloc, data, file)?;
    let signed = sign(alloc, &key, leaf, body_of(text.as_slice()))?;
    Ok(signed == text && name_of(text.as_slice()).0 == name)
}

fn key_of(alloc: Global, word: &str) -> Result<Tree, SampleFault> {
    match word {
        "own" => own_key(alloc),
        "other" => other_key(alloc),
        "tall" => tall_key(alloc),
        _ => Err(SampleFault::NoKey),
    }
}

// All lines of a link before that of its signature; nothing where there is no such line.
fn body_of(text: &[u8]) -> &[u8] {
    let mut at: usize = 0;
    for line in text.split(|byte| *byte == b'\n') {
        if line.starts_with(b"sign ") {
            return text.get(..at).unwrap_or(b"");
        }
        at = at.saturating_add(line.len()).saturating_add(1);
    }
    b""
}
