use std::alloc::Global;
use tg_outside::{Fault, Files};

/// Whether a file has these bytes, as its read says.
pub fn has<F: Files>(alloc: Global, files: &mut F, name: &str, want: &[u8]) -> Result<bool, Fault> {
    match files.read(alloc, name)? {
        Some(bytes) => Ok(bytes.as_slice() == want),
        None => Ok(false),
    }
}
