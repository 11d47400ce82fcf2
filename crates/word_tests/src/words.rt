//! What lists and words keep, and how bytes are ordered.
use std::alloc::Global;
use std::test::Fail;
use tg_text::{Bytes, Items, LinkName, Memory, Word};

// Whether a list and a word are what they got.
fn are_kept(alloc: Global) -> Result<bool, Memory> {
    let mut names = Items::new(alloc);
    names.push(LinkName([7; 32]))?;
    let word = Word::new(alloc, "title")?;
    Ok(names.as_slice() == [LinkName([7; 32])].as_slice() && word.as_str() == "title")
}

#[test]
fn lists_and_words_keep_what_they_get(rt: HostRuntime) -> Result<(), Fail> {
    let alloc = rt.alloc();
    assert!(rt; are_kept(alloc)?);
    let copy = Bytes::from_slice(alloc, b"ab")?.copy(alloc)?;
    assert!(rt; copy < Bytes::from_slice(alloc, b"abc")?);
    assert!(rt; format!(in alloc; "{}", Memory)?.as_str() == "out of memory");
    Ok(())
}
