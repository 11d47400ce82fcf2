//! Cases about team files.
use sha2::{Digest, Sha256};
use std::alloc::Global;
use team_files::{FileFault, read_file, read_graph};
use team_samples::{SampleFault, read_pieces};
use tg_outside::Files;
use tg_text::{read_decimal, read_hex32};

/// Whether a row `VERDICT PIECE ..` holds. The verdict is how many links the file has, or `BadFile`.
pub fn file_holds<F: Files>(alloc: Global, data: &mut F, row: &str) -> Result<bool, SampleFault> {
    let (verdict, pieces) = row.split_once(' ').unwrap_or((row, ""));
    let bytes = read_pieces(alloc, data, pieces)?;
    let viewed = match read_file(alloc, bytes.as_slice()) {
        Ok(view) => Some(view.frames.len() as u64),
        Err(FileFault::BadFile) => None,
        Err(FileFault::Memory) => return Err(SampleFault::Memory),
    };
    let held = match read_graph(alloc, bytes.as_slice()) {
        Ok(graph) => Some(u64::from(graph.held())),
        Err(FileFault::BadFile) => None,
        Err(FileFault::Memory) => return Err(SampleFault::Memory),
    };
    let wanted = read_decimal(verdict.as_bytes());
    let is_verdict = wanted.is_some() || verdict == "BadFile";
    Ok(is_verdict && viewed == wanted && held == wanted)
}

/// Whether a row `HEX PIECE ..` holds: the SHA-256 of the pieces' bytes.
pub fn sum_holds<F: Files>(alloc: Global, data: &mut F, row: &str) -> Result<bool, SampleFault> {
    let (sum, pieces) = row.split_once(' ').ok_or(SampleFault::BadWord)?;
    let sum = read_hex32(sum.as_bytes()).ok_or(SampleFault::BadWord)?;
    let bytes = read_pieces(alloc, data, pieces)?;
    Ok(Sha256::digest(bytes.as_slice()) == sum)
}
