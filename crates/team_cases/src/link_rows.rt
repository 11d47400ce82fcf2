//! Cases about the text of one link.
use link_text::{LinkFault, TextFault, name_of, read_link, read_text, write_link};
use std::alloc::Global;
use team_samples::{SampleFault, read_word};
use tg_text::{Bytes, read_hex32};

/// Whether a row `VERDICT OLD => NEW` holds of what is read of the base.
pub fn text_holds(alloc: Global, base: &[u8], row: &str) -> Result<bool, SampleFault> {
    let (verdict, edit) = row.split_once(' ').unwrap_or((row, ""));
    let text = edited(alloc, base, edit)?;
    match read_text(alloc, text.as_slice()) {
        Ok(link) => {
            let written = write_link(alloc, &link)?;
            Ok(verdict == "ok" && written.as_slice() == text.as_slice())
        }
        Err(TextFault::TooLong) => Ok(verdict == "TooLong"),
        Err(TextFault::BadText) => Ok(verdict == "BadText"),
        Err(TextFault::Memory) => Err(SampleFault::Memory),
    }
}

/// Whether a row `VERDICT OLD => NEW` holds of what is read of the base, its signature included.
pub fn link_holds(alloc: Global, base: &[u8], row: &str) -> Result<bool, SampleFault> {
    let (verdict, edit) = row.split_once(' ').unwrap_or((row, ""));
    let text = edited(alloc, base, edit)?;
    match read_link(alloc, text.as_slice()) {
        Ok(_) => Ok(verdict == "ok"),
        Err(LinkFault::TooLong) => Ok(verdict == "TooLong"),
        Err(LinkFault::BadText) => Ok(verdict == "BadText"),
        Err(LinkFault::BadSignature) => Ok(verdict == "BadSignature"),
        Err(LinkFault::Memory) => Err(SampleFault::Memory),
    }
}

/// Whether the base is read under the name of a row.
pub fn name_holds(alloc: Global, base: &[u8], row: &str) -> Result<bool, SampleFault> {
    let name = read_hex32(row.as_bytes()).ok_or(SampleFault::BadWord)?;
    match read_text(alloc, base) {
        Ok(link) => Ok(link.name.0 == name && name_of(base).0 == name),
        Err(TextFault::Memory) => Err(SampleFault::Memory),
        Err(_) => Ok(false),
    }
}

// The base with one part replaced, as the words `OLD => NEW` say; as it is where there are none.
fn edited(alloc: Global, base: &[u8], edit: &str) -> Result<Bytes, SampleFault> {
    if edit.is_empty() {
        return Ok(Bytes::from_slice(alloc, base)?);
    }
    let (old, new) = edit.split_once(" => ").ok_or(SampleFault::BadWord)?;
    let (old, new) = (read_word(alloc, old)?, read_word(alloc, new)?);
    let base = str::from_utf8(base).ok().ok_or(SampleFault::BadWord)?;
    let old = str::from_utf8(old.as_slice())
        .ok()
        .ok_or(SampleFault::BadWord)?;
    let (front, back) = base.split_once(old).ok_or(SampleFault::BadWord)?;
    let mut text = Bytes::from_slice(alloc, front.as_bytes())?;
    text.append(new.as_slice())?;
    text.append(back.as_bytes())?;
    Ok(text)
}
