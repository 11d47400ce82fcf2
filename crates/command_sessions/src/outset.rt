//! What a world begins with.
use crate::line::{Line, read_line};
use std::alloc::Global;
use team_samples::{SampleFault, read_pieces};
use tg_outside::Files;
use tg_text::{Bytes, read_decimal, read_hex32};

/// What a world's lines say of all of its runs.
#[derive(Debug, Drop)]
pub struct Outset {
    pub moment: u64,
    pub draws: Vec<[u8; 32]>,
    pub input: Bytes,
    /// The most bytes that the output takes in a call.
    pub most: usize,
    /// The calls of the output that fail, in each run.
    pub failing_output: Vec<u64>,
}

/// Reads what the lines say of all runs, in whatever place they stand. A line of no known form is a `BadWord`.
pub fn read_outset<F: Files>(
    alloc: Global,
    data: &mut F,
    lines: &str,
) -> Result<Outset, SampleFault> {
    let mut outset = Outset {
        moment: 0,
        draws: Vec::new(alloc),
        input: Bytes::new(alloc),
        most: usize::MAX,
        failing_output: failing(alloc, lines, "output")?,
    };
    for line in lines.lines() {
        match read_line(line)? {
            Line::Moment(number) => outset.moment = number_of(number)?,
            Line::Draw(word) => outset
                .draws
                .push(read_hex32(word.as_bytes()).ok_or(SampleFault::BadWord)?)?,
            Line::Input(pieces) => outset.input = read_pieces(alloc, data, pieces)?,
            Line::Most(number) => outset.most = number_of(number)? as usize,
            _ => {}
        }
    }
    Ok(outset)
}

/// The numbers of the calls of a kind that fail.
pub fn failing(alloc: Global, lines: &str, kind: &str) -> Result<Vec<u64>, SampleFault> {
    let mut numbers = Vec::new(alloc);
    for line in lines.lines() {
        match read_line(line)? {
            Line::Fail(of, words) if of == kind => {
                for word in words.split(' ') {
                    numbers.push(number_of(word)?)?;
                }
            }
            _ => {}
        }
    }
    Ok(numbers)
}

/// The number that a text is.
pub fn number_of(text: &str) -> Result<u64, SampleFault> {
    read_decimal(text.as_bytes()).ok_or(SampleFault::BadWord)
}
