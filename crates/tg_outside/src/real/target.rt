// Where a file that is replaced stands.
use std::alloc::Global;
use std::io::{Error, ErrorKind};
use std::os::unix::fs::MetadataExt;
use std::path::PathBuf;
use std::{fs, io, rt};

// How many links are followed: as many as the system follows.
const MOST_LINKS: u32 = 40;

// A name that is no link, and the permission bits of the file that has it, if one does.
#[derive(Drop)]
pub struct Target {
    pub name: String,
    pub bits: Option<u32>,
}

// Follows a name to a file, or to where none is. Anything else that is there is an error, and so are links in a ring.
pub fn target_of<R: rt::Files>(rt: &R, alloc: Global, name: &str) -> io::Result<Target> {
    let mut path = PathBuf::from_str(alloc, name)?;
    for _ in 0..=MOST_LINKS {
        match fs::symlink_metadata(rt, path.as_path()) {
            Ok(found) if found.is_symlink() => follow(rt, alloc, &mut path)?,
            Ok(found) if found.is_file() => {
                return Ok(Target {
                    name: path.into_string(),
                    bits: Some(found.mode() & 0o777),
                });
            }
            Ok(_) => return Err(Error::from(ErrorKind::InvalidInput)),
            Err(error) if error.kind() == ErrorKind::NotFound => {
                return Ok(Target {
                    name: path.into_string(),
                    bits: None,
                });
            }
            Err(error) => return Err(error),
        }
    }
    Err(Error::from(ErrorKind::FilesystemLoop))
}

// Puts what a link says in its place. It is read from the folder in which the link stands.
fn follow<R: rt::Files>(rt: &R, alloc: Global, link: &mut PathBuf) -> io::Result<()> {
    let said = rt.read_link(alloc, link.as_str())?;
    link.pop();
    link.push(said.as_path())?;
    Ok(())
}
