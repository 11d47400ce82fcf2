//! Sinks, sources, draws, clocks and steps in memory, and their failing calls.
use std::alloc::Global;
use std::test::Fail;
use tg_outside::{
    Clock, Entropy, Failed, FixedClock, ListEntropy, MemorySink, MemorySource, Silent, Sink,
    Source, Steps, SureEntropy, SureSink, SureSource, Tally, write_all,
};
use tg_text::{Memory, read_hex32};

// Whether writing all of the bytes ends so, and leaves the sink with these.
fn leaves(sink: &mut MemorySink, bytes: &[u8], end: Result<(), Failed>, all: &[u8]) -> bool {
    write_all(sink, bytes) == end && sink.bytes() == all
}

// One byte in a call, of which call 9 fails.
fn are_written(alloc: Global) -> Result<bool, Memory> {
    let mut sink = MemorySink::new(alloc, vec![in alloc; 9]?);
    sink.set_most(1);
    Ok(
        leaves(&mut sink, b"one ", Ok(()), b"one ")
            && leaves(&mut sink, b"", Ok(()), b"one ")
            && leaves(&mut sink, b"two", Ok(()), b"one two")
            && leaves(&mut sink, b"word", Err(Failed), b"one twowo")
            && leaves(&mut sink, b"!", Ok(()), b"one twowo!"),
    )
}

#[test]
fn a_sink_takes_a_front_before_a_fault(rt: HostRuntime) -> Result<(), Fail> {
    assert!(rt; are_written(rt.alloc())?);
    Ok(())
}

#[test]
fn a_sink_takes_nothing_or_all(rt: HostRuntime) {
    let mut none = MemorySink::new(rt.alloc(), Vec::new(rt.alloc()));
    none.set_most(0);
    assert!(rt; leaves(&mut none, b"word", Err(Failed), b"") && none.write(b"") == Ok(0));
    let mut sure = SureSink::new();
    assert!(rt; sure.write(b"word") == Ok(4) && write_all(&mut sure, b"word").is_ok());
}

// Whether a read answers so, and leaves the buffer with these bytes.
fn gives<S: Source>(
    source: &mut S,
    buffer: &mut [u8; 6],
    answer: Result<usize, Failed>,
    bytes: &[u8; 6],
) -> bool {
    source.read(buffer) == answer && *buffer == *bytes
}

// Three bytes in a call, of which call 1 fails and takes nothing.
fn is_read(alloc: Global) -> Result<bool, Memory> {
    let mut source = MemorySource::new(b"words", vec![in alloc; 1]?);
    source.set_most(3);
    let mut buffer = [b'-'; 6];
    Ok(
        gives(&mut source, &mut buffer, Ok(3), b"wor---")
            && gives(&mut source, &mut buffer, Err(Failed), b"wor---")
            && source.read(&mut []) == Ok(0)
            && gives(&mut source, &mut buffer, Ok(2), b"dsr---")
            && gives(&mut source, &mut buffer, Ok(0), b"dsr---"),
    )
}

#[test]
fn a_source_is_read_to_its_end(rt: HostRuntime) -> Result<(), Fail> {
    assert!(rt; is_read(rt.alloc())?);
    Ok(())
}

#[test]
fn a_source_gives_nothing_or_all(rt: HostRuntime) {
    let mut none = MemorySource::new(b"a", Vec::new(rt.alloc()));
    none.set_most(0);
    let mut buffer = [b'-'; 6];
    assert!(rt;
        gives(&mut none, &mut buffer, Err(Failed), b"------") && none.read(&mut []) == Ok(0)
    );
    let mut sure = SureSource::new(b"words");
    assert!(rt; gives(&mut sure, &mut buffer, Ok(5), b"words-"));
    assert!(rt; gives(&mut sure, &mut buffer, Ok(0), b"words-"));
}

// Whether the next draws answer so.
fn draws<E: Entropy>(entropy: &mut E, answers: &[Result<[u8; 32], Failed>]) -> bool {
    for answer in answers {
        if entropy.draw() != *answer {
            return false;
        }
    }
    true
}

// Call 1 fails and takes nothing; then the second word comes, and then none is left.
#[test]
fn words_are_drawn_in_order(rt: HostRuntime) -> Result<(), Fail> {
    let words = [[7; 32], [8; 32]];
    let mut entropy = ListEntropy::new(&words, vec![in rt.alloc(); 1]?);
    let answers = [
        Ok([7; 32]),
        Err(Failed),
        Ok([8; 32]),
        Err(Failed),
        Err(Failed),
    ];
    assert!(rt; draws(&mut entropy, &answers));
    Ok(())
}

// The SHA-256 of 32 bytes 0x22 and then eight bytes that are 0 and 1, computed by another program.
#[test]
fn sure_entropy_counts(rt: HostRuntime) -> Result<(), Fail> {
    let first = b"f91b337d83bdbe27156e7edd977a126af56ea98b487e19dd6fa114eeac042a8a";
    let second = b"f74af55dd92b27b15e2a2ddac2b0713c3734edb8646f520b1a591fb5f738db52";
    let first = read_hex32(first).ok_or("no word")?;
    let second = read_hex32(second).ok_or("no word")?;
    let mut entropy = SureEntropy::new([0x22; 32]);
    assert!(rt; draws(&mut entropy, &[Ok(first), Ok(second)]));
    Ok(())
}

#[test]
fn clocks_and_steps_are_counted(rt: HostRuntime) {
    let mut clock = FixedClock::new(1_000_000);
    let mut steps = Steps::new(Tally::new());
    let mut silent = Steps::new(Silent);
    steps.tick();
    silent.tick();
    steps.tick();
    silent.tick();
    assert!(rt; clock.now() == 1_000_000 && clock.now() == 1_000_000);
    assert!(rt; steps.ledger().marks() == 2);
}
