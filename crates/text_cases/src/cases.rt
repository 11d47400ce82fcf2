use crate::tables::written;
use std::alloc::Global;
use tg_text::{Bytes, Memory};

/// The table of a line.
pub fn table_of(line: &str) -> &str {
    match line.split_once(' ') {
        Some((table, _)) => table,
        None => line,
    }
}

/// Whether the call of the line's table answers what the line says. It doesn't where the line has no text, or one that
/// can't be read.
pub fn agrees(alloc: Global, line: &str) -> Result<bool, Memory> {
    let Some((table, rest)) = line.split_once(' ') else {
        return Ok(false);
    };
    let Some((answer, text)) = rest.split_once(' ') else {
        return Ok(false);
    };
    let Some(text) = unescape(alloc, text)? else {
        return Ok(false);
    };
    let given = written(alloc, table, text.as_slice())?;
    Ok(is_answer(answer, text.as_slice(), &given))
}

fn is_answer(answer: &str, text: &[u8], given: &Option<Bytes>) -> bool {
    match given {
        Some(bytes) if answer == "found" => bytes.as_slice() == text,
        Some(bytes) => bytes.as_slice() == answer.as_bytes(),
        None => answer == "none",
    }
}

// The bytes that a text of the tables stands for.
fn unescape(alloc: Global, text: &str) -> Result<Option<Bytes>, Memory> {
    let mut out = Bytes::new(alloc);
    if text == "-" {
        return Ok(Some(out));
    }
    let mut parts = text.split("\\x");
    out.append(parts.next().unwrap_or("").as_bytes())?;
    for part in parts {
        let Some((digits, plain)) = part.split_at_checked(2) else {
            return Ok(None);
        };
        let mut byte = [0];
        if hex::decode_to_slice(digits.as_bytes(), &mut byte).is_err() {
            return Ok(None);
        }
        out.append(&byte)?;
        out.append(plain.as_bytes())?;
    }
    Ok(Some(out))
}
