//! Bundles as they come.
use std::alloc::Global;
use std::test::Fail;
use team_files::{Bundle, Item};
use tg_text::{Bytes, Memory};

// 4,096 pieces of 65,536 bytes, as many bytes as are judged; the first one begins a frame that is longer. How many items they
// give. (Built with a sanitizer, as `rt try` does, this is slow.)
fn feed_all(alloc: Global, bundle: &mut Bundle) -> Result<usize, Memory> {
    let mut piece = Bytes::from_slice(alloc, b"link 999999999\n")?;
    for _ in piece.len()..65536 {
        piece.append(b"x")?;
    }
    let mut count = 0usize;
    for _ in 0..4096 {
        count = count.saturating_add(bundle.feed(piece.as_slice())?.len());
    }
    Ok(count)
}

#[test]
fn as_many_bytes_as_are_judged(rt: HostRuntime) -> Result<(), Fail> {
    let alloc = rt.alloc();
    let mut bundle = Bundle::new(alloc);
    assert_eq!(rt; feed_all(alloc, &mut bundle)?, 0);
    assert!(rt; bundle.end() == Some(Item::Cut));
    let mut bundle = Bundle::new(alloc);
    assert_eq!(rt; feed_all(alloc, &mut bundle)?, 0);
    assert!(rt; bundle.feed(b"x")?.as_slice() == [Item::Long].as_slice());
    assert_eq!(rt; bundle.feed(b"x")?.len(), 0);
    assert!(rt; bundle.end().is_none());
    Ok(())
}
