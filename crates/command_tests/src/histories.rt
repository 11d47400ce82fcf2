//! A long history, merged in any order.
use lockboxes::SymbolicKeeper;
use std::alloc::Global;
use std::test::Fail;
use team_files::{write_frame, write_header};
use team_run::run;
use team_samples::{Draws, History, SampleFault, make_history, shuffled};
use tg_outside::{FixedClock, ListEntropy, MemoryFiles, MemorySink, MemorySource, Silent, Steps};
use tg_text::Bytes;

// The header of a history's team, and the frames of these of its links.
fn file_of(alloc: Global, history: &History, places: &[usize]) -> Result<Bytes, SampleFault> {
    let mut file = Bytes::new(alloc);
    write_header(&mut file, &history.team)?;
    for place in places {
        let text = history.texts.get(*place).ok_or(SampleFault::NoKey)?;
        write_frame(&mut file, text.as_slice())?;
    }
    Ok(file)
}

// The places of the links in ascending order of names.
fn by_name(alloc: Global, history: &History) -> Result<Vec<usize>, SampleFault> {
    let mut names = Vec::from_slice(alloc, history.names.as_slice())?;
    names.sort()?;
    let mut places = Vec::new(alloc);
    for name in names.as_slice() {
        for (place, held) in history.names.as_slice().iter().enumerate() {
            if held == name {
                places.push(place)?;
            }
        }
    }
    Ok(places)
}

// Runs `merge a.team bundle` with these two files, and answers the status and the text.
fn merge(alloc: Global, files: &mut MemoryFiles) -> Result<(u8, MemorySink), SampleFault> {
    let mut words = Vec::new(alloc);
    for word in ["merge", "a.team", "bundle"] {
        words.push(String::from_str(alloc, word)?)?;
    }
    let mut out = MemorySink::new(alloc, Vec::new(alloc));
    let status = run(
        alloc,
        &words,
        files,
        &mut ListEntropy::new(&[], Vec::new(alloc)),
        &mut FixedClock::new(1_000_000),
        &mut MemorySource::new(b"", Vec::new(alloc)),
        &mut out,
        &SymbolicKeeper,
        &mut Steps::new(Silent),
    );
    Ok((status, out))
}

// 200 links, of which 40 come twice, in five orders.
#[test]
fn a_history_leaves_one_file_in_any_order(rt: HostRuntime) -> Result<(), Fail> {
    let alloc = rt.alloc();
    let history = make_history(alloc, 7, 200)?;
    let places = by_name(alloc, &history)?;
    let file = file_of(alloc, &history, places.as_slice())?;
    let header = file_of(alloc, &history, &[])?;
    let mut order = Vec::new(alloc);
    for place in 0..240 {
        order.push(place % 200)?;
    }
    let mut draws = Draws { state: 7 };
    for _ in 0..5 {
        let bundle = file_of(alloc, &history, order.as_slice())?;
        let mut files = MemoryFiles::new(alloc, Vec::new(alloc));
        files.put(alloc, "a.team", header.as_slice())?;
        files.put(alloc, "bundle", bundle.as_slice())?;
        let (status, out) = merge(alloc, &mut files)?;
        assert_eq!(rt; status, 0);
        assert!(rt; out.bytes().ends_with(b" again 40 refused 0\n"));
        assert!(rt; files.get("a.team") == Some(&file));
        order = shuffled(alloc, &mut draws, order.as_slice())?;
    }
    Ok(())
}
