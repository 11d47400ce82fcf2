//! The lines of a team file, and the frames between them.
ghost use Rattle.std.specs.Prelude.{◌≡◌, ◌<◌, ◌^◌, ℕ, List, ◌++◌, length, Some, IfSome, MatchOption};
ghost use Rattle.tg_text.specs.Reading.{Reads};
ghost use Rattle.tg_text.specs.Spelling.{IsHash};
ghost use Rattle.link_text.specs.TeamFile.{frame, header};
ghost use Rattle.team_files.specs.Frames.{header_fields, length_fields};

use tg_text::{Lines, LinkName, read_decimal, read_hex32};

/// The team that the header names, which is the next line.
pub fn next_header(lines: &mut Lines) -> Option<LinkName>
    ensures found { IfSome result (λ team. IsHash team × (lines.old ≡ header team ++ lines.new)) }
    ensures only { (team rest : List ℕ) → IsHash team → lines.old ≡ header team ++ rest → (result ≡ Some team) × (lines.new ≡ rest) }
{
    let line = lines.next_line()?;
    read_header(line)
}

/// The team that a header's line names.
pub fn read_header(line: &[u8]) -> Option<LinkName>
    ensures { Reads IsHash header_fields line.now result }
{
    let digits = line.strip_prefix(b"team-file 1 ")?;
    match read_hex32(digits) {
        Some(name) => Some(LinkName(name)),
        None => None,
    }
}

/// The text in the first frame, and what stands behind the frame.
pub fn split_frame(bytes: &[u8]) -> Option<(&[u8], &[u8])>
    ensures found { IfSome result (λ found. bytes.now ≡ frame found.0.now ++ found.1.now) }
    ensures only { (inner rest : List ℕ) → length inner < 2 ^ 64 → bytes.now ≡ frame inner ++ rest → MatchOption result ⊥ (λ found. (found.0.now ≡ inner) × (found.1.now ≡ rest)) }
{
    let mut lines = Lines::new(bytes);
    let line = lines.next_line()?;
    let length = read_length(line)?;
    let rest = lines.rest();
    if length > rest.len() as u64 {
        return None;
    }
    Some(rest.split_at(length as usize))
}

/// The length that a frame's line names.
pub fn read_length(line: &[u8]) -> Option<u64>
    ensures { Reads (λ n. n < 2 ^ 64) length_fields line.now result }
{
    read_decimal(line.strip_prefix(b"link ")?)
}
