//! One run of the program's top call.
use crate::outset::Outset;
use lockboxes::SymbolicKeeper;
use std::alloc::Global;
use team_run::run;
use team_samples::{SampleFault, read_word};
use tg_outside::{FixedClock, ListEntropy, MemoryFiles, MemorySink, MemorySource, Silent, Steps};

/// What is outside of the runs of a world, but for the output.
#[derive(Drop)]
pub struct Outside<'a> {
    pub files: MemoryFiles,
    pub entropy: ListEntropy<'a>,
    pub clock: FixedClock,
    pub input: MemorySource<'a>,
}

/// Runs the words of a line, which are those after a `$`, and answers the status and what was printed.
pub fn run_line(
    alloc: Global,
    outset: &Outset,
    outside: &mut Outside<'_>,
    line: &str,
) -> Result<(u8, MemorySink), SampleFault> {
    let words = words_of(alloc, line)?;
    let failing = Vec::from_slice(alloc, outset.failing_output.as_slice())?;
    let mut out = MemorySink::new(alloc, failing);
    out.set_most(outset.most);
    let status = run(
        alloc,
        &words,
        &mut outside.files,
        &mut outside.entropy,
        &mut outside.clock,
        &mut outside.input,
        &mut out,
        &SymbolicKeeper,
        &mut Steps::new(Silent),
    );
    Ok((status, out))
}

// The words that stand after a `$`, each after a space.
fn words_of(alloc: Global, line: &str) -> Result<Vec<String>, SampleFault> {
    let mut words = Vec::new(alloc);
    if let Some(line) = line.strip_prefix(' ') {
        for word in line.split(' ') {
            let bytes = read_word(alloc, word)?;
            let text = str::from_utf8(bytes.as_slice())
                .ok()
                .ok_or(SampleFault::BadWord)?;
            words.push(String::from_str(alloc, text)?)?;
        }
    }
    Ok(words)
}
