//! The system's words and clock, and readers and writers of the standard library.
use std::alloc::Global;
use std::test::Fail;
use tg_outside::{
    Clock, Entropy, Failed, Input, Output, RealClock, RealEntropy, Source, write_all,
};

fn are_two<E: Entropy>(entropy: &mut E) -> Result<bool, Failed> {
    let first = entropy.draw()?;
    Ok(first != entropy.draw()?)
}

// Two words that are alike don't come in anybody's life.
#[test]
fn the_systems_words_differ(rt: HostRuntime) -> Result<(), Fail> {
    let mut entropy = RealEntropy::new(&rt);
    assert!(rt; are_two(&mut entropy)?);
    Ok(())
}

// After November 2023, and before the year 2286.
#[test]
fn the_systems_clock_says_seconds(rt: HostRuntime) {
    let now = RealClock::new(&rt).now();
    assert!(rt; 1_700_000_000 < now && now < 10_000_000_000);
}

fn is_written(alloc: Global) -> Result<bool, Failed> {
    let mut bytes = Vec::new(alloc);
    write_all(&mut Output::new(&mut bytes), b"word")?;
    Ok(bytes.as_slice() == b"word".as_slice())
}

#[test]
fn output_writes_through(rt: HostRuntime) -> Result<(), Fail> {
    assert!(rt; is_written(rt.alloc())?);
    Ok(())
}

fn gives<S: Source>(source: &mut S, count: usize) -> bool {
    let mut buffer = [0; 3];
    source.read(&mut buffer) == Ok(count)
}

#[test]
fn input_reads_through(rt: HostRuntime) {
    let mut input = Input::new(b"word".as_slice());
    assert!(rt; gives(&mut input, 3) && gives(&mut input, 1) && gives(&mut input, 0));
}
