use crate::fault::SampleFault;
use std::alloc::Global;
use tg_text::Bytes;

/// The bytes of a word. In it `\s` stands for a space, `\n` for a newline, `\r` and `\t` for what they do in Rust, `\xHH` for the
/// byte of two lower-case digits, and `\e` for nothing. Any other backslash is a `BadWord`.
pub fn read_word(alloc: Global, word: &str) -> Result<Bytes, SampleFault> {
    let (front, rest) = word.split_once('\\').unwrap_or((word, "e"));
    let mut bytes = Bytes::from_slice(alloc, front.as_bytes())?;
    for part in rest.split('\\') {
        add_escaped(&mut bytes, part.as_bytes())?;
    }
    Ok(bytes)
}

// Adds what stands after a backslash, up to the next one.
fn add_escaped(bytes: &mut Bytes, part: &[u8]) -> Result<(), SampleFault> {
    let (byte, rest) = match part {
        [b'e', rest @ ..] => return Ok(bytes.append(rest)?),
        [b's', rest @ ..] => (b' ', rest),
        [b'n', rest @ ..] => (b'\n', rest),
        [b'r', rest @ ..] => (b'\r', rest),
        [b't', rest @ ..] => (b'\t', rest),
        [b'x', high, low, rest @ ..] => {
            (byte_of(*high, *low).ok_or(SampleFault::BadWord)?, rest)
        }
        _ => return Err(SampleFault::BadWord),
    };
    bytes.append(&[byte])?;
    Ok(bytes.append(rest)?)
}

fn byte_of(high: u8, low: u8) -> Option<u8> {
    let (high, low) = (digit_of(high)?, digit_of(low)?);
    Some((high << 4) | low)
}

fn digit_of(character: u8) -> Option<u8> {
    match character {
        b'0'..=b'9' => Some(character - b'0'),
        b'a'..=b'f' => Some(character - b'a' + 10),
        _ => None,
    }
}
