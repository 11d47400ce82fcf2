//! Playing the worlds of a session, run by run.
use crate::expected::{is_right, text_of};
use crate::line::{Line, read_line};
use crate::outset::{Outset, failing, number_of, read_outset};
use crate::run::{Outside, run_line};
use std::alloc::Global;
use team_samples::{SampleFault, read_pieces};
use tg_outside::{Files, FixedClock, ListEntropy, MemoryFiles, MemorySource};

/// What a session came to.
#[derive(Debug, Drop)]
pub struct Played {
    /// How many runs agree.
    pub agreed: u64,
    /// A line for each fact that differs.
    pub differing: Vec<String>,
}

/// Plays all worlds of a session. A line of no known form, or a piece that is absent, is an error.
pub fn play_session<F: Files>(
    alloc: Global,
    data: &mut F,
    text: &str,
) -> Result<Played, SampleFault> {
    let mut played = Played {
        agreed: 0,
        differing: Vec::new(alloc),
    };
    for world in text.split("\n= ").skip(1) {
        play_world(alloc, data, &mut played, world)?;
    }
    Ok(played)
}

fn play_world<F: Files>(
    alloc: Global,
    data: &mut F,
    played: &mut Played,
    world: &str,
) -> Result<(), SampleFault> {
    let title = world.lines().next().unwrap_or("");
    let lines = world.strip_prefix(title).unwrap_or("");
    let outset = read_outset(alloc, data, lines)?;
    let mut outside = Outside {
        files: MemoryFiles::new(alloc, failing(alloc, lines, "files")?),
        entropy: ListEntropy::new(outset.draws.as_slice(), failing(alloc, lines, "draws")?),
        clock: FixedClock::new(outset.moment),
        input: MemorySource::new(outset.input.as_slice(), failing(alloc, lines, "input")?),
    };
    let mut parts = lines.split("\n$");
    if let Some(front) = parts.next() {
        give_files(alloc, data, &mut outside.files, front)?;
    }
    for part in parts {
        let differing = played.differing.len();
        play_run(alloc, data, played, &outset, &mut outside, title, part)?;
        if played.differing.len() == differing {
            played.agreed = played.agreed.saturating_add(1);
        }
    }
    Ok(())
}

// Puts the files there that the lines give.
fn give_files<F: Files>(
    alloc: Global,
    data: &mut F,
    files: &mut MemoryFiles,
    lines: &str,
) -> Result<(), SampleFault> {
    for line in lines.lines() {
        if let Line::Give(name, pieces) = read_line(line)? {
            let bytes = read_pieces(alloc, data, pieces)?;
            files.put(alloc, name, bytes.as_slice())?;
        }
    }
    Ok(())
}

// Does a run, compares what comes of it, and puts the files there that are given after it.
fn play_run<F: Files>(
    alloc: Global,
    data: &mut F,
    played: &mut Played,
    outset: &Outset,
    outside: &mut Outside<'_>,
    title: &str,
    part: &str,
) -> Result<(), SampleFault> {
    let (words, lines) = part.split_once('\n').unwrap_or((part, ""));
    let (status, out) = run_line(alloc, outset, outside, words)?;
    if out.bytes() != text_of(alloc, lines)?.as_slice() {
        let said = str::from_utf8(out.bytes()).unwrap_or("no text");
        let line = format!(in alloc; "{title}: ${words} prints {said}")?;
        played.differing.push(line)?;
    }
    if status_of(lines)? != Some(u64::from(status)) {
        let line = format!(in alloc; "{title}: ${words} ends with {status}")?;
        played.differing.push(line)?;
    }
    for fact in lines.lines() {
        if !is_right(alloc, data, &outside.files, fact)? {
            let line = format!(in alloc; "{title}: ${words} leaves not: {fact}")?;
            played.differing.push(line)?;
        }
    }
    give_files(alloc, data, &mut outside.files, lines)
}

// The status that the lines say.
fn status_of(lines: &str) -> Result<Option<u64>, SampleFault> {
    for line in lines.lines() {
        if let Line::Status(number) = read_line(line)? {
            return Ok(Some(number_of(number)?));
        }
    }
    Ok(None)
}
