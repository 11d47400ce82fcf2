//! The files in memory, known and sure, and their failing calls.
use crate::contents::has;
use std::alloc::Global;
use std::test::Fail;
use tg_outside::{Fault, Files, MemoryFiles, SureFiles};

// Whether files hold what was put there last, and no others.
fn hold_the_last<F: Files>(alloc: Global, files: &mut F) -> Result<bool, Fault> {
    files.replace(alloc, "a", b"old")?;
    files.replace(alloc, "b", b"other")?;
    files.replace(alloc, "a", b"new")?;
    let is_new = has(alloc, files, "a", b"new")?;
    let is_other = has(alloc, files, "b", b"other")?;
    Ok(is_new && is_other && files.read(alloc, "c")?.is_none())
}

#[test]
fn memory_files_hold_what_was_put_last(rt: HostRuntime) -> Result<(), Fail> {
    let alloc = rt.alloc();
    let mut files = MemoryFiles::new(alloc, Vec::new(alloc));
    files.put(alloc, "a", b"first")?;
    assert!(rt; hold_the_last(alloc, &mut files)? && files.get("a").is_some());
    Ok(())
}

#[test]
fn sure_files_hold_what_was_put_last(rt: HostRuntime) -> Result<(), Fail> {
    let alloc = rt.alloc();
    let mut files = SureFiles::new(alloc);
    assert!(rt; hold_the_last(alloc, &mut files)?);
    Ok(())
}

// Calls 1 and 2 fail, and change nothing.
fn fail_where_named(alloc: Global, files: &mut MemoryFiles) -> Result<bool, Fault> {
    files.replace(alloc, "a", b"old")?;
    let is_unwritten = files.replace(alloc, "a", b"new") == Err(Fault::Failed);
    let is_unread = matches!(files.read(alloc, "a"), Err(Fault::Failed));
    Ok(is_unwritten && is_unread && has(alloc, files, "a", b"old")?)
}

#[test]
fn memory_files_fail_at_the_named_calls(rt: HostRuntime) -> Result<(), Fail> {
    let alloc = rt.alloc();
    let mut files = MemoryFiles::new(alloc, vec![in alloc; 1, 2]?);
    assert!(rt; fail_where_named(alloc, &mut files)?);
    Ok(())
}
