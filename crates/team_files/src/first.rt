//! What bytes begin with that stand where an item is due. Nothing here takes memory.
ghost use Rattle.std.specs.Prelude.{◌≡◌, ◌≢◌, ◌↔◌, ◌<◌, ◌^◌, ◌++◌, List, ℕ, IsTrue, MatchOption, false};
ghost use Rattle.std.specs.List.{list_all};
ghost use Rattle.tg_text.specs.Reading.{Reads};
ghost use Rattle.tg_text.specs.Spelling.{has_newline};
ghost use Rattle.team_files.specs.Bundles.{IsFront};
ghost use Rattle.team_files.specs.Frames.{length_fields};
ghost use Rattle.team_files.specs.Parts.{IsFirst};
ghost use Rattle.team_files.specs.LineFronts.{IsHeaderFront, IsLengthFront, is_lower_digit};

use crate::frames::{read_header, read_length};
use tg_text::Lines;

// A length has at most nine digits.
const LENGTHS: u64 = 1_000_000_000;

const HEX_DIGITS: usize = 64;

/// What bytes begin with, and what stands behind it.
#[derive(Debug, Drop)]
pub enum First<'a> {
    /// A header line.
    Header(&'a [u8]),
    /// The first line of a frame, with the length of its text.
    Frame(usize, &'a [u8]),
    /// Less than a line, with which an item may begin.
    Open,
    /// No item begins so.
    Bad,
}

/// Looks at the first line alone.
pub fn first_of(bytes: &[u8]) -> First<'_>
    ensures { IsFirst bytes.now result }
{
    let mut lines = Lines::new(bytes);
    let Some(line) = lines.next_line() else {
        return if is_line_front(bytes) {
            First::Open
        } else {
            First::Bad
        };
    };
    if read_header(line).is_some() {
        return First::Header(lines.rest());
    }
    match read_short_length(line) {
        Some(length) => First::Frame(length as usize, lines.rest()),
        None => First::Bad,
    }
}

// The length that a frame's line names, where it has at most nine digits.
fn read_short_length(line: &[u8]) -> Option<u64>
    ensures { Reads (λ n. n < 10 ^ 9) length_fields line.now result }
{
    let length = read_length(line)?;
    if length < LENGTHS { Some(length) } else { None }
}

// Whether bytes without a newline are less than the first line of an item.
fn is_line_front(bytes: &[u8]) -> bool
    ensures { has_newline bytes.now ≡ false → IsTrue result ↔ IsFront bytes.now }
{
    is_length_front(bytes) || is_header_front(bytes)
}

fn is_length_front(bytes: &[u8]) -> bool
    ensures { IsTrue result ↔ IsLengthFront bytes.now }
{
    begins_with(b"link ", bytes) || read_short_length(bytes).is_some()
}

fn is_header_front(bytes: &[u8]) -> bool
    ensures { IsTrue result ↔ IsHeaderFront bytes.now }
{
    let words = b"team-file 1 ";
    match strip(bytes, words) {
        Some(digits) => digits.len() <= HEX_DIGITS && are_lower_digits(digits),
        None => begins_with(words, bytes),
    }
}

fn begins_with(text: &[u8], front: &[u8]) -> bool
    ensures { IsTrue result ↔ ((more : List ℕ) × (text.now ≡ front.now ++ more)) }
{
    text.starts_with(front)
}

// What stands behind the prefix.
fn strip<'a>(text: &'a [u8], prefix: &[u8]) -> Option<&'a [u8]>
    ensures { MatchOption result ((rest : List ℕ) → text.now ≢ prefix.now ++ rest) (λ rest. text.now ≡ prefix.now ++ rest.now) }
{
    text.strip_prefix(prefix)
}

fn are_lower_digits(bytes: &[u8]) -> bool
    ensures { result ≡ list_all is_lower_digit bytes.now }
{
    bytes.iter().all(is_digit)
}

fn is_digit(byte: &u8) -> bool
    ensures { result ≡ is_lower_digit byte.now }
{
    b"0123456789abcdef".contains(byte)
}
