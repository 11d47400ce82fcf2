//! The files of the system, each test in a folder of its own.
use crate::contents::has;
use std::fs::{self, Permissions};
use std::os::unix::fs::{MetadataExt, PermissionsExt, symlink};
use std::test::Fail;
use tg_outside::{Fault, Files, RealFiles};

// Only what isn't found is absent.
#[test]
fn what_is_found_is_read(rt: HostRuntime) -> Result<(), Fail> {
    let alloc = rt.alloc();
    let mut files = RealFiles::new(&rt);
    assert!(rt; files.read(alloc, "no such file")?.is_none());
    assert!(rt; has(alloc, &mut files, "/dev/null", b"")?);
    for name in ["/", "/dev/null/a"] {
        assert!(rt;
            matches!(files.read(alloc, name), Err(Fault::Failed)),
            "at {name}"
        );
    }
    Ok(())
}

// A file beside that has the first name tried stays as it was.
#[test]
fn a_replaced_file_has_the_bytes_given_last(rt: HostRuntime) -> Result<(), Fail> {
    let alloc = rt.alloc();
    let mut files = RealFiles::new(&rt);
    fs::create_dir(&rt, "replaced.test")?;
    fs::write(&rt, "replaced.test/a.new0", "not mine")?;
    files.replace(alloc, "replaced.test/a", b"old")?;
    files.replace(alloc, "replaced.test/a", b"new")?;
    assert!(rt; has(alloc, &mut files, "replaced.test/a", b"new")?);
    assert!(rt; has(alloc, &mut files, "replaced.test/a.new0", b"not mine")?);
    assert!(rt; files.read(alloc, "replaced.test/a.new1")?.is_none());
    assert_eq!(rt;
        files.replace(alloc, "replaced.test/none/a", b"new"),
        Err(Fault::Failed)
    );
    fs::remove_dir_all(&rt, "replaced.test")?;
    Ok(())
}

// Who else may read a file of a team is as the system's mask says.
#[test]
fn a_key_file_is_its_owners_alone(rt: HostRuntime) -> Result<(), Fail> {
    let alloc = rt.alloc();
    let mut files = RealFiles::new(&rt);
    fs::create_dir(&rt, "owned.test")?;
    for text in ["team-key 1\n", "team-token 1\n"] {
        fs::write(&rt, "owned.test/a", "team-file 1 ")?;
        files.replace(alloc, "owned.test/a", text.as_bytes())?;
        assert_eq!(rt; fs::metadata(&rt, "owned.test/a")?.mode() & 0o777, 0o600);
    }
    fs::remove_dir_all(&rt, "owned.test")?;
    Ok(())
}

// The permission bits of a file that had these and was replaced.
fn bits_after(rt: &HostRuntime, bits: u32) -> Result<u32, Fail> {
    fs::write(rt, "bits.test", "old")?;
    fs::set_permissions(rt, "bits.test", Permissions::from_mode(bits))?;
    RealFiles::new(rt).replace(rt.alloc(), "bits.test", b"new")?;
    let kept = fs::metadata(rt, "bits.test")?.mode() & 0o777;
    fs::remove_file(rt, "bits.test")?;
    Ok(kept)
}

#[test]
fn a_replaced_file_keeps_its_mode_bits(rt: HostRuntime) -> Result<(), Fail> {
    for bits in [0o600, 0o640, 0o666] {
        assert_eq!(rt; bits_after(&rt, bits)?, bits);
    }
    Ok(())
}

// Replaces a file by the name of a link, in a folder that is made. The link stays, and the file that it leads to has the bytes.
fn is_followed(rt: &HostRuntime, folder: &str, link: &str, file: &str) -> Result<bool, Fail> {
    fs::create_dir(rt, folder)?;
    symlink(rt, "a", link)?;
    let mut files = RealFiles::new(rt);
    files.replace(rt.alloc(), link, b"new")?;
    let stays = fs::symlink_metadata(rt, link)?.is_symlink();
    let written = has(rt.alloc(), &mut files, file, b"new")?;
    fs::remove_dir_all(rt, folder)?;
    Ok(stays && written)
}

// A link to a name that no file has.
#[test]
fn a_link_is_followed(rt: HostRuntime) -> Result<(), Fail> {
    assert!(rt; is_followed(&rt, "link.test", "link.test/b", "link.test/a")?);
    Ok(())
}
