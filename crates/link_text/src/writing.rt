//! Writing links: the body, and the line of the signature after it.
ghost use Rattle.std.specs.Prelude.{◌≡◌, ◌++◌, flat_map, IfOk, OnOk};
ghost use Rattle.link_text.specs.Drafts.{draft_body};
ghost use Rattle.link_text.specs.LinkText.{first_line, team_line, prev_line, user_line, key_line, time_line, act_line, new_line, box_line, sign_line, text};
ghost use Rattle.link_text.specs.Takes.{key_lines};
ghost use Rattle.tg_text.specs.Spelling.{line_of};

use crate::draft::Draft;
use acts::{Act, Entry};
use std::alloc::Global;
use team_model::Link;
use tg_text::{
    BoxLine, Bytes, KeyId, KeyLines, LinkName, Memory, PublicKey, write_base64, write_base64_line,
    write_decimal_line, write_hex_line, write_key_id, write_text_line,
};

/// The body of a link that is to be signed, which is what its signature is over.
pub fn body_of(alloc: Global, draft: &Draft) -> Result<Bytes, Memory>
    ensures { IfOk result (λ bytes. bytes ≡ draft_body draft.now) }
{
    let mut out = Bytes::new(alloc);
    write_head(&mut out, &draft.team, draft.prev.as_slice())?;
    write_entry(&mut out, &draft.key, &draft.entry)?;
    Ok(out)
}

/// The text of a link, of its body and its signature.
pub fn finish(alloc: Global, body: &[u8], signature: &[u8]) -> Result<Bytes, Memory>
    ensures { IfOk result (λ bytes. bytes ≡ body.now ++ sign_line signature.now) }
{
    let mut out = Bytes::from_slice(alloc, body)?;
    write_base64_line(&mut out, b"sign", signature)?;
    Ok(out)
}

/// The text of a link.
pub fn write_link(alloc: Global, link: &Link) -> Result<Bytes, Memory>
    ensures { IfOk result (λ bytes. bytes ≡ text link.now) }
{
    let mut out = Bytes::new(alloc);
    write_head(&mut out, &link.team, link.prev.as_slice())?;
    write_entry(&mut out, &link.key, &link.entry)?;
    write_base64_line(&mut out, b"sign", link.signature.as_slice())?;
    Ok(out)
}

// The lines before that of the user.
fn write_head(out: &mut Bytes, team: &Option<LinkName>, prev: &[LinkName]) -> Result<(), Memory>
    ensures { OnOk result (out.new ≡ out.old ++ (line_of first_line ++ (team_line team.now ++ flat_map prev_line prev.now))) }
{
    out.append(b"team-link 1\n")?;
    write_team(out, team)?;
    write_parents(out, prev)
}

fn write_team(out: &mut Bytes, team: &Option<LinkName>) -> Result<(), Memory>
    ensures { OnOk result (out.new ≡ out.old ++ team_line team.now) }
{
    match team {
        Some(name) => write_hex_line(out, b"team", name.as_slice()),
        None => write_text_line(out, b"team", b"-"),
    }
}

fn write_parents(out: &mut Bytes, prev: &[LinkName]) -> Result<(), Memory>
    ensures { OnOk result (out.new ≡ out.old ++ flat_map prev_line prev.now) }
{
    for name in prev {
        write_hex_line(out, b"prev", name.as_slice())?;
    }
    Ok(())
}

// The lines from that of the user up to the signature.
fn write_entry(out: &mut Bytes, key: &PublicKey, entry: &Entry) -> Result<(), Memory>
    ensures { OnOk result (out.new ≡ out.old ++ (user_line entry.now.user ++ (key_line key.now ++ (time_line entry.now.time ++ (act_line entry.now.act ++ key_lines entry.now.lines))))) }
{
    write_text_line(out, b"user", entry.user.as_slice())?;
    write_base64_line(out, b"key", key.as_slice())?;
    write_decimal_line(out, b"time", entry.time)?;
    write_act(out, &entry.act)?;
    write_key_lines(out, &entry.lines)
}

fn write_act(out: &mut Bytes, act: &Act) -> Result<(), Memory>
    ensures { OnOk result (out.new ≡ out.old ++ act_line act.now) }
{
    out.append(b"act ")?;
    act.write(out)?;
    out.append(b"\n")
}

fn write_key_lines(out: &mut Bytes, lines: &KeyLines) -> Result<(), Memory>
    ensures { OnOk result (out.new ≡ out.old ++ key_lines lines.now) }
{
    write_news(out, lines.news.as_slice())?;
    write_boxes(out, lines.boxes.as_slice())
}

fn write_news(out: &mut Bytes, news: &[KeyId]) -> Result<(), Memory>
    ensures { OnOk result (out.new ≡ out.old ++ flat_map new_line news.now) }
{
    for key in news {
        write_new(out, key)?;
    }
    Ok(())
}

fn write_new(out: &mut Bytes, key: &KeyId) -> Result<(), Memory>
    ensures { OnOk result (out.new ≡ out.old ++ new_line key.now) }
{
    out.append(b"new ")?;
    write_key_id(out, key)?;
    out.append(b"\n")
}

fn write_boxes(out: &mut Bytes, boxes: &[BoxLine]) -> Result<(), Memory>
    ensures { OnOk result (out.new ≡ out.old ++ flat_map box_line boxes.now) }
{
    for line in boxes {
        write_box(out, line)?;
    }
    Ok(())
}

fn write_box(out: &mut Bytes, line: &BoxLine) -> Result<(), Memory>
    ensures { OnOk result (out.new ≡ out.old ++ box_line line.now) }
{
    out.append(b"box ")?;
    write_key_id(out, &line.to)?;
    out.append(b" ")?;
    write_key_id(out, &line.of)?;
    out.append(b" ")?;
    write_base64(out, line.bytes.as_slice())?;
    out.append(b"\n")
}
