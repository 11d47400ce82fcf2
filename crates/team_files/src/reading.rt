ghost use Rattle.std.specs.Prelude.{◌≡◌, ◌++◌, ℕ, List, IfOk, Err};
ghost use Rattle.link_text.specs.TeamFile.{IsFileOf};
ghost use Rattle.team_files.specs.Frames.{AreInOrder, AreTexts, IsViewOf, StandsAt, frames};
ghost use Rattle.team_model.specs.declared.terms.Link.{Link};
ghost use Rattle.team_sets.specs.Names.{Name};

use crate::fault::FileFault;
use crate::frames::{next_header, split_frame};
use crate::links::{may_stand, read_link_of};
use std::alloc::Global;
use tg_text::{Items, Lines, LinkName, MOST_FILE_BYTES};

/// What a team file says: the team, and where its links stand, in ascending order of names.
#[derive(Debug, Drop)]
pub struct FileView {
    pub team: LinkName,
    /// Of each link the offset of its text in the file, and the length of the text.
    pub frames: Items<(usize, usize)>,
}

/// Reads a team file, in time in proportion to its bytes. What it answers takes two numbers a link, and copies no text.
///
/// The frames are those of the one set whose file it is.
pub fn read_file(alloc: Global, bytes: &[u8]) -> Result<FileView, FileFault>
    ensures found { IfOk result (λ view. (links : List Link) × IsViewOf bytes.now view.team view.frames links) }
    ensures bad { result ≡ Err FileFault.BadFile → (team : Name) (links : List Link) → ¬ IsFileOf bytes.now team links }
{
    if bytes.len() as u64 > MOST_FILE_BYTES {
        return Err(FileFault::BadFile);
    }
    let mut lines = Lines::new(bytes);
    let Some(team) = next_header(&mut lines) else {
        return Err(FileFault::BadFile);
    };
    let frames = read_frames(alloc, &team, bytes, lines.rest())?;
    Ok(FileView { team, frames })
}

// Where the texts stand of frames that follow one another at the end of the bytes.
fn read_frames(
    alloc: Global,
    team: &LinkName,
    bytes: &[u8],
    at_end: &[u8],
) -> Result<Items<(usize, usize)>, FileFault>
    requires { (head : List ℕ) × (bytes.now ≡ head ++ at_end.now) }
    ensures found { IfOk result (λ places. (links : List Link) × AreInOrder team.now links × (at_end.now ≡ frames links) × AreTexts bytes.now places links) }
    ensures bad { result ≡ Err FileFault.BadFile → (links : List Link) → AreInOrder team.now links → at_end.now ≡ frames links → ⊥ }
{
    let mut places = Items::new(alloc);
    let mut last = None;
    let mut rest = at_end;
    while !rest.is_empty() {
        let Some((inner, after)) = split_frame(rest) else {
            return Err(FileFault::BadFile);
        };
        let link = read_link_of(alloc, team, inner)?;
        if !may_stand(places.len(), last, &link.name) {
            return Err(FileFault::BadFile);
        }
        places.push(place_of(bytes, inner, after))?;
        last = Some(link.name);
        rest = after;
    }
    Ok(places)
}

// Where a text stands in bytes that end with it and with what is after it, and how long it is.
fn place_of(bytes: &[u8], content: &[u8], after: &[u8]) -> (usize, usize)
    requires { (front : List ℕ) × (bytes.now ≡ front ++ (content.now ++ after.now)) }
    ensures { StandsAt bytes.now result.0 result.1 content.now }
{
    let end = bytes.len() - after.len();
    let start = end - content.len();
    (start, content.len())
}
