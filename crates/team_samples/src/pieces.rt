use crate::escapes::read_word;
use crate::fault::SampleFault;
use std::alloc::Global;
use team_files::write_frame;
use tg_outside::Files;
use tg_text::{Bytes, read_decimal};

/// The bytes of pieces, one after another, which stand a space apart. A piece is the name of a file of the data; `+NAME`, the frame
/// of the link that is that file; or `N*WORD`, the bytes of a word as `read_word` has it, N times.
pub fn read_pieces<F: Files>(
    alloc: Global,
    data: &mut F,
    pieces: &str,
) -> Result<Bytes, SampleFault> {
    let mut bytes = Bytes::new(alloc);
    for piece in pieces.split(' ') {
        if !piece.is_empty() {
            add_piece(alloc, data, &mut bytes, piece)?;
        }
    }
    Ok(bytes)
}

fn add_piece<F: Files>(
    alloc: Global,
    data: &mut F,
    bytes: &mut Bytes,
    piece: &str,
) -> Result<(), SampleFault> {
    if let Some((count, word)) = piece.split_once('*') {
        return add_times(alloc, bytes, count, word);
    }
    if let Some(name) = piece.strip_prefix('+') {
        let text = data.read(alloc, name)?.ok_or(SampleFault::NoFile)?;
        return Ok(write_frame(bytes, text.as_slice())?);
    }
    let file = data.read(alloc, piece)?.ok_or(SampleFault::NoFile)?;
    Ok(bytes.append(file.as_slice())?)
}

fn add_times(alloc: Global, bytes: &mut Bytes, count: &str, word: &str) -> Result<(), SampleFault> {
    let count = read_decimal(count.as_bytes()).ok_or(SampleFault::BadWord)?;
    let word = read_word(alloc, word)?;
    for _ in 0..count {
        bytes.append(word.as_slice())?;
    }
    Ok(())
}
