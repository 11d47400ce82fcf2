//! What a session says of a run.
use crate::line::{Line, read_line};
use sha2::{Digest, Sha256};
use std::alloc::Global;
use team_samples::{SampleFault, read_pieces};
use tg_outside::{Files, MemoryFiles};
use tg_text::{Bytes, read_hex32};

/// What a run prints, by the lines after it.
pub fn text_of(alloc: Global, lines: &str) -> Result<Bytes, SampleFault> {
    let mut text = Bytes::new(alloc);
    for line in lines.lines() {
        match read_line(line)? {
            Line::Prints(whole) => {
                text.append(whole.as_bytes())?;
                text.append(b"\n")?;
            }
            Line::PrintsPart(part) => text.append(part.as_bytes())?,
            _ => {}
        }
    }
    Ok(text)
}

/// Whether a line is right where it says what a file holds. A line that says nothing of files is.
pub fn is_right<F: Files>(
    alloc: Global,
    data: &mut F,
    files: &MemoryFiles,
    line: &str,
) -> Result<bool, SampleFault> {
    match read_line(line)? {
        Line::File(name, sum) => has_sum(files, name, sum),
        Line::Holds(name, pieces) => {
            let wanted = read_pieces(alloc, data, pieces)?;
            Ok(files.get(name) == Some(&wanted))
        }
        _ => Ok(true),
    }
}

// Whether a file has this SHA-256, or is absent where the sum is `gone`.
fn has_sum(files: &MemoryFiles, name: &str, sum: &str) -> Result<bool, SampleFault> {
    match files.get(name) {
        None => Ok(sum == "gone"),
        Some(_) if sum == "gone" => Ok(false),
        Some(bytes) => {
            let wanted = read_hex32(sum.as_bytes()).ok_or(SampleFault::BadWord)?;
            Ok(Sha256::digest(bytes.as_slice()) == wanted)
        }
    }
}
