ghost use Rattle.std.specs.Prelude.{◌≡◌, ◌≤◌, None};
ghost use Rattle.tg_outside.specs.Causes.{Rose};
ghost use Rattle.tg_outside.specs.declared.fault.Fault.TheVariants.{Failed as has_failed};

use crate::fault::Fault;
use crate::files::Files;
use crate::real::target::target_of;
use std::alloc::Global;
use std::fs::{OpenFile, OpenOptions, Permissions};
use std::io::{Error, ErrorKind, Read, Write};
use std::os::unix::fs::{OpenOptionsExt, PermissionsExt};
use std::{fs, io, rt};
use tg_text::Bytes;

// The most bytes of a file that are read: one more than a file of the product may have.
const MOST_BYTES: u64 = 268_435_457;

// How the files begin that hold secrets: those of keys and of tokens.
const SECRET_STARTS: [&[u8]; 2] = [b"team-key ", b"team-token "];

// How many names are tried for the file that is written beside.
const MOST_TRIES: u32 = 1_000;

/// The files of the system, whose contents aren't known.
///
/// Only a file that isn't found is absent. A directory, a name with a file as a folder in it and a file that may not be
/// read are failed reads. A read gives at most the first 268,435,457 bytes.
///
/// A replace follows links to the file that the name leads to, writes a new file beside that one, under a name that no file
/// has, and renames it. What is there and is no file, as a folder or a device, is a failed replace. The new file has the
/// permission bits of the one that it replaces, where the system lets it; who may read a file where none was is as the
/// system's mask says. A file that begins as those do that hold secrets has no bits but its owner's.
#[derive(Drop)]
pub struct RealFiles<'a, R: rt::Files> {
    rt: &'a R,
    faults: u64,
}

impl<'a, R: rt::Files> RealFiles<'a, R> {
    /// No fault counted yet.
    pub fn new(rt: &'a R) -> RealFiles<'a, R>
        ensures { ⟦<RealFiles<'a, R> as Files>⟧.faults result ≡ 0 }
    {
        RealFiles { rt, faults: 0 }
    }

    // What an error is answered as. It is a fault, and counted, unless it is want of memory.
    fn fault_of(&mut self, error: &Error) -> Fault
        ensures later { self.old.faults ≤ self.new.faults }
        ensures rose { result ≡ has_failed → Rose self.old.faults self.new.faults }
    {
        if error.kind() == ErrorKind::OutOfMemory {
            return Fault::Memory;
        }
        self.faults = self.faults.saturating_add(1);
        Fault::Failed
    }
}

impl<R: rt::Files> Files for RealFiles<'_, R> {
    ghost files = { λ _. None };

    ghost faults = { λ it. it.faults };

    fn read(&mut self, alloc: Global, name: &str) -> Result<Option<Bytes>, Fault> {
        match read_file(self.rt, alloc, name) {
            Ok(bytes) => Ok(Some(Bytes::from_vec(bytes))),
            Err(error) if error.kind() == ErrorKind::NotFound => Ok(None),
            Err(error) => Err(self.fault_of(&error)),
        }
    }

    fn replace(&mut self, alloc: Global, name: &str, bytes: &[u8]) -> Result<(), Fault> {
        match replace_file(self.rt, alloc, name, bytes) {
            Ok(()) => Ok(()),
            Err(error) => Err(self.fault_of(&error)),
        }
    }
}

// Room for the whole file is made at once, by the size that the system tells.
fn read_file<R: rt::Files>(rt: &R, alloc: Global, name: &str) -> io::Result<Vec<u8>> {
    let file = fs::open(rt, name)?;
    let size = file.metadata()?.len().min(MOST_BYTES);
    let room = usize::try_from(size)
        .unwrap_or(usize::MAX)
        .saturating_add(1);
    let mut bytes = Vec::with_capacity(alloc, room)?;
    file.take(MOST_BYTES).read_to_end(&mut bytes)?;
    Ok(bytes)
}

fn replace_file<R: rt::Files>(rt: &R, alloc: Global, name: &str, bytes: &[u8]) -> io::Result<()> {
    let target = target_of(rt, alloc, name)?;
    let name = target.name.as_str();
    let allowed = allowed_bits(bytes);
    // Until it has the bits that are kept it is its owner's alone.
    let first = if target.bits.is_some() {
        0o600
    } else {
        0o666 & allowed
    };
    let (beside, file) = create_beside(rt, alloc, name, first)?;
    let done = match write_file(file, bytes, target.bits.map(|bits| bits & allowed)) {
        Ok(()) => fs::rename(rt, beside.as_str(), name),
        Err(error) => Err(error),
    };
    if done.is_err() {
        // What was written beside is no use now, and whether it goes changes nothing of the answer.
        let _gone = fs::remove_file(rt, beside.as_str()).is_ok();
    }
    done
}

// The permission bits that a file of these bytes may have.
fn allowed_bits(bytes: &[u8]) -> u32 {
    for start in SECRET_STARTS {
        if bytes.starts_with(start) {
            return 0o700;
        }
    }
    0o777
}

// Makes a file beside, under a name that no file has.
fn create_beside<R: rt::Files>(
    rt: &R,
    alloc: Global,
    name: &str,
    mode: u32,
) -> io::Result<(String, R::File)> {
    let mut options = OpenOptions::new();
    options.write(true).create_new(true).mode(mode);
    for number in 0..MOST_TRIES {
        let beside = format!(in alloc; "{name}.new{number}")?;
        match options.open(rt, beside.as_str()) {
            Ok(file) => return Ok((beside, file)),
            Err(error) if error.kind() == ErrorKind::AlreadyExists => {}
            Err(error) => return Err(error),
        }
    }
    Err(Error::from(ErrorKind::AlreadyExists))
}

// The bytes are with the system before the file is closed. A system that lets nobody set the bits is no fault.
fn write_file<F: Write + OpenFile + Drop>(
    mut file: F,
    bytes: &[u8],
    bits: Option<u32>,
) -> io::Result<()> {
    file.write_all(bytes)?;
    if let Some(bits) = bits {
        let _kept = file.set_permissions(Permissions::from_mode(bits)).is_ok();
    }
    file.sync_all()
}
