//! Lines that stand for many, one for each number.
use std::alloc::Global;
use tg_text::{Memory, read_decimal};

/// Of `FIRST LAST LINE` the first number, that after the last, and the line.
pub fn read_each(text: &str) -> Option<(u64, u64, &str)> {
    let (first, rest) = text.split_once(' ')?;
    let (last, line) = rest.split_once(' ')?;
    let first = read_decimal(first.as_bytes())?;
    let end = read_decimal(last.as_bytes())?.saturating_add(1);
    if first < end {
        Some((first, end, line))
    } else {
        None
    }
}

/// The line with the number in place of each `{}`.
pub fn numbered(alloc: Global, line: &str, number: u64) -> Result<String, Memory> {
    let mut text = String::new(alloc);
    let mut parts = line.split("{}");
    text.push_str(parts.next().unwrap_or(""))?;
    for part in parts {
        let digits = format!(in alloc; "{number}")?;
        text.push_str(digits.as_str())?;
        text.push_str(part)?;
    }
    Ok(text)
}
