//! Keys made of words that are drawn.
use lms_keep::make_key;
use std::alloc::Global;
use std::test::Fail;
use tg_outside::{ListEntropy, MakeFault};
use tg_text::{Memory, UserName};

// A new key of Ann's, of a first word of bytes 0x11, a second of 0x22 and a third of 0x33.
const MADE: &str =
    "team-key 1\nuser ann\nkinds 6 3\nid 11111111111111111111111111111111\nseed 2222222222222222222222222222222222222222222222222222222222222222\nsecret 3333333333333333333333333333333333333333333333333333333333333333\nnext 0\n";

#[test]
fn a_key_is_made_of_three_words(rt: HostRuntime) -> Result<(), Fail> {
    let alloc = rt.alloc();
    let words = [[0x11; 32], [0x22; 32], [0x33; 32], [0x44; 32]];
    let mut entropy = ListEntropy::new(&words, Vec::new(alloc));
    let user = UserName::read(b"ann").ok_or("no user name")?;
    let made = make_key(&mut entropy, user).ok().ok_or("no key")?;
    assert!(rt; made.write(alloc)?.as_slice() == MADE.as_bytes());
    Ok(())
}

// Whether no key is made of two words, of which this draw fails.
fn is_refused(alloc: Global, user: UserName, failing: u64) -> Result<bool, Memory> {
    let words = [[0x11; 32], [0x22; 32]];
    let mut entropy = ListEntropy::new(&words, vec![in alloc; failing]?);
    Ok(make_key(&mut entropy, user).err() == Some(MakeFault::EntropyFault))
}

// Each of the three draws fails in turn, by the list's end or by itself.
#[test]
fn no_key_is_made_of_fewer_words(rt: HostRuntime) -> Result<(), Fail> {
    let user = UserName::read(b"ann").ok_or("no user name")?;
    for failing in [0, 1, 2, 9] {
        assert!(rt; is_refused(rt.alloc(), user, failing)?);
    }
    Ok(())
}
