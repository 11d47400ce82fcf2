//! The text of a team file: the header, and the frames of the held links in ascending order of names.
ghost use Rattle.std.specs.Prelude.{◌≡◌, ◌++◌, List, ℕ, IfOk, OnOk, OnErr};
ghost use Rattle.link_text.specs.TeamFile.{file_text, frame, header};
ghost use Rattle.team_files.specs.Frames.{frame_named, frames_named};

use crate::names::ascending_names;
use link_graph::Graph;
use std::alloc::Global;
use tg_text::{Bytes, LinkName, Memory, write_decimal, write_hex};

/// Appends the header of a team's file, or nothing where memory is short.
pub fn write_header(out: &mut Bytes, team: &LinkName) -> Result<(), Memory>
    ensures ok { OnOk result (out.new ≡ out.old ++ header team.now) }
    ensures err { OnErr result (out.new ≡ out.old) }
{
    let before = out.len();
    let written = extend_header(out, team);
    out.keep_whole(before, written)
}

// As `write_header`, but a front of the header stays where memory is short.
fn extend_header(out: &mut Bytes, team: &LinkName) -> Result<(), Memory>
    ensures ok { OnOk result (out.new ≡ out.old ++ header team.now) }
    ensures err { OnErr result ((more : List ℕ) × (out.new ≡ out.old ++ more)) }
{
    out.append(b"team-file ")?;
    out.append(b"1 ")?;
    write_hex(out, team.as_slice())?;
    out.append(b"\n")
}

/// Appends the frame of a link's text, or nothing where memory is short.
pub fn write_frame(out: &mut Bytes, text: &[u8]) -> Result<(), Memory>
    ensures ok { OnOk result (out.new ≡ out.old ++ frame text.now) }
    ensures err { OnErr result (out.new ≡ out.old) }
{
    let before = out.len();
    let written = extend_frame(out, text);
    out.keep_whole(before, written)
}

// As `write_frame`, but a front of the frame stays where memory is short.
fn extend_frame(out: &mut Bytes, text: &[u8]) -> Result<(), Memory>
    ensures ok { OnOk result (out.new ≡ out.old ++ frame text.now) }
    ensures err { OnErr result ((more : List ℕ) × (out.new ≡ out.old ++ more)) }
{
    out.append(b"link ")?;
    write_decimal(out, text.len() as u64)?;
    out.append(b"\n")?;
    out.append(text)
}

/// The team file of what a graph holds, in time and memory in proportion to its bytes, and in the time that sorting the names takes.
pub fn file_text(alloc: Global, graph: &Graph) -> Result<Bytes, Memory>
    ensures { IfOk result (λ bytes. bytes ≡ file_text graph.now.team graph.now.links) }
{
    graph.is_held();
    let names = ascending_names(alloc, graph.links())?;
    let mut out = Bytes::from_vec(Vec::with_capacity(alloc, graph.file_bytes() as usize)?);
    write_header(&mut out, &graph.team())?;
    write_frames(&mut out, graph, names.as_slice())?;
    Ok(out)
}

// Appends the frames of the texts of these names.
fn write_frames(out: &mut Bytes, graph: &Graph, names: &[LinkName]) -> Result<(), Memory>
    ensures { OnOk result (out.new ≡ out.old ++ frames_named graph.now.links names.now) }
{
    for name in names {
        write_frame_of(out, graph, name)?;
    }
    Ok(())
}

// Appends the frame of the text of a name, if it is held.
fn write_frame_of(out: &mut Bytes, graph: &Graph, name: &LinkName) -> Result<(), Memory>
    ensures { OnOk result (out.new ≡ out.old ++ frame_named graph.now.links name.now) }
{
    match graph.text_of(name) {
        Some(text) => write_frame(out, text),
        None => Ok(()),
    }
}
