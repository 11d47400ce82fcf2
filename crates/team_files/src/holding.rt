//! The graph of a team file: what is read is held at once, and verified once.
ghost use Rattle.std.specs.Prelude.{◌≡◌, ◌≤◌, ◌+◌, ◌++◌, [], ◌∷◌, List, length, IfOk, OnOk, Err};
ghost use Rattle.tg_text.specs.Limits.{most_file_bytes};
ghost use Rattle.link_text.specs.LinkText.{IsValid};
ghost use Rattle.link_text.specs.TeamFile.{IsFileOf, by_name, frame, header};
ghost use Rattle.team_files.specs.Frames.{AreInOrder, MayFollow, frames};
ghost use Rattle.team_model.specs.declared.terms.Link.{Link};
ghost use Rattle.team_sets.specs.Names.{Name};

use crate::fault::FileFault;
use crate::frames::{next_header, split_frame};
use crate::links::{may_follow, read_link_of};
use link_graph::Graph;
use std::alloc::Global;
use team_model::Link;
use tg_text::{Lines, LinkName, MOST_FILE_BYTES};

/// The graph of a team file. Each link is read and verified once, and its text is copied once.
///
/// The links stand in ascending order of names. They are those of the one set whose file it is.
pub fn read_graph(alloc: Global, bytes: &[u8]) -> Result<Graph, FileFault>
    ensures found { IfOk result (λ graph. IsFileOf bytes.now graph.team graph.links) }
    ensures ascending { IfOk result (λ graph. by_name graph.links ≡ graph.links) }
    ensures bad { result ≡ Err FileFault.BadFile → (team : Name) (links : List Link) → ¬ IsFileOf bytes.now team links }
{
    if bytes.len() as u64 > MOST_FILE_BYTES {
        return Err(FileFault::BadFile);
    }
    let mut lines = Lines::new(bytes);
    let Some(team) = next_header(&mut lines) else {
        return Err(FileFault::BadFile);
    };
    let graph = hold_frames(alloc, team, lines.rest())?;
    Ok(graph)
}

// The graph of the links of frames that stand one behind the other.
fn hold_frames(alloc: Global, team: LinkName, bytes: &[u8]) -> Result<Graph, FileFault>
    requires short { length (header team) + length bytes.now ≤ most_file_bytes }
    ensures team { IfOk result (λ graph. graph.team ≡ team) }
    ensures found { IfOk result (λ graph. AreInOrder team graph.links) }
    ensures spelled { IfOk result (λ graph. bytes.now ≡ frames graph.links) }
    ensures bad { result ≡ Err FileFault.BadFile → (links : List Link) → AreInOrder team links → bytes.now ≡ frames links → ⊥ }
{
    let mut graph = Graph::new(alloc, team);
    let mut rest = bytes;
    while !rest.is_empty() {
        let Some((inner, after)) = split_frame(rest) else {
            return Err(FileFault::BadFile);
        };
        let link = read_link_of(alloc, &team, inner)?;
        hold_next(&mut graph, inner, link)?;
        rest = after;
    }
    Ok(graph)
}

// Holds a link behind the others, where the team has room and the names ascend.
fn hold_next(graph: &mut Graph, bytes: &[u8], link: Link) -> Result<(), FileFault>
    requires valid { IsValid graph.old.team bytes.now link }
    requires order { AreInOrder graph.old.team graph.old.links }
    requires short { length (header graph.old.team) + length (frames graph.old.links) + length (frame bytes.now) ≤ most_file_bytes }
    ensures ok { OnOk result (graph.new ≡ record graph.old { links = graph.old.links ++ link ∷ [] }) }
    ensures may { OnOk result (MayFollow graph.old.links link) }
    ensures bad { result ≡ Err FileFault.BadFile → ¬ MayFollow graph.old.links link }
{
    if !may_follow(graph.links(), &link) {
        return Err(FileFault::BadFile);
    }
    graph.hold(bytes, link)?;
    Ok(())
}
