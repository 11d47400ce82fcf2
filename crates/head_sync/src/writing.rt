//! The texts of messages are written line by line.
ghost use Rattle.std.specs.Prelude.{◌≡◌, ◌<◌, ◌++◌, All, IfOk, OnOk, length};
ghost use Rattle.link_graph.specs.Held.{arrived_of};
ghost use Rattle.head_sync.specs.Messages.{ask, done, frames_of, give, hello, kind_line, message_text, more_line, name_lines, team_line};
ghost use Rattle.head_sync.specs.Texts.{texts_at};

use link_graph::LinkKeeper;
use std::alloc::Global;
use team_files::write_frame;
use tg_text::{Bytes, LinkName, Memory, write_hex_line, write_text_line};

/// The message that greets with these heads.
pub(crate) fn hello_text(
    alloc: Global,
    team: &LinkName,
    heads: &[LinkName],
) -> Result<Bytes, Memory>
    ensures { IfOk result (λ out. out ≡ message_text team.now (hello heads.now)) }
{
    let mut out = Bytes::new(alloc);
    write_front(&mut out, b"hello", team)?;
    write_names(&mut out, b"head", heads)?;
    Ok(out)
}

/// The message that asks for these names, with marks.
pub(crate) fn ask_text(
    alloc: Global,
    team: &LinkName,
    names: &[LinkName],
    marks: &[LinkName],
) -> Result<Bytes, Memory>
    ensures { IfOk result (λ out. out ≡ message_text team.now (ask names.now marks.now)) }
{
    let mut out = Bytes::new(alloc);
    write_front(&mut out, b"ask", team)?;
    write_names(&mut out, b"name", names)?;
    write_names(&mut out, b"mark", marks)?;
    Ok(out)
}

/// The message that says that an end with these heads is done.
pub(crate) fn done_text(alloc: Global, team: &LinkName, heads: &[LinkName]) -> Result<Bytes, Memory>
    ensures { IfOk result (λ out. out ≡ message_text team.now (done heads.now)) }
{
    let mut out = Bytes::new(alloc);
    write_front(&mut out, b"done", team)?;
    write_names(&mut out, b"head", heads)?;
    Ok(out)
}

/// The message that gives the links of these positions, and says whether more follow.
pub(crate) fn give_text<H: LinkKeeper>(
    alloc: Global,
    keeper: &H,
    more: bool,
    positions: &[u32],
) -> Result<Bytes, Memory>
    requires given { All (λ p. p < length (arrived_of (H.held keeper.now).links)) positions.now }
    ensures { IfOk result (λ out. out ≡ message_text (H.held keeper.now).team (give more (texts_at (H.held keeper.now).links positions.now))) }
{
    let mut out = Bytes::new(alloc);
    write_front(&mut out, b"give", &keeper.team())?;
    write_more(&mut out, more)?;
    write_frames(&mut out, keeper, positions)?;
    Ok(out)
}

// The lines of the kind and of the team.
fn write_front(out: &mut Bytes, kind: &[u8], team: &LinkName) -> Result<(), Memory>
    ensures { OnOk result (out.new ≡ out.old ++ (kind_line kind.now ++ team_line team.now)) }
{
    write_text_line(out, b"team-sync 1", kind)?;
    write_hex_line(out, b"team", team.as_slice())
}

fn write_names(out: &mut Bytes, word: &[u8], names: &[LinkName]) -> Result<(), Memory>
    ensures { OnOk result (out.new ≡ out.old ++ name_lines word.now names.now) }
{
    for name in names {
        write_hex_line(out, word, name.as_slice())?;
    }
    Ok(())
}

fn write_more(out: &mut Bytes, more: bool) -> Result<(), Memory>
    ensures { OnOk result (out.new ≡ out.old ++ more_line more) }
{
    if more {
        write_text_line(out, b"more", b"yes")
    } else {
        write_text_line(out, b"more", b"no")
    }
}

// The frames of the links of these positions.
fn write_frames<H: LinkKeeper>(out: &mut Bytes, keeper: &H, positions: &[u32]) -> Result<(), Memory>
    requires given { All (λ p. p < length (arrived_of (H.held keeper.now).links)) positions.now }
    ensures { OnOk result (out.new ≡ out.old ++ frames_of (texts_at (H.held keeper.now).links positions.now)) }
{
    for position in positions {
        write_frame(out, keeper.text_at(*position))?;
    }
    Ok(())
}
