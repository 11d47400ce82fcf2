//! Files replaced, words drawn and answers printed, with calls that fail.
ghost use Rattle.std.specs.Prelude.{◌<◌, IfSome};
ghost use Rattle.outcomes.specs.Ending.{answer_of};

use outcomes::{Answer, Put, Stop, conclude, draw_word, replace_all, replace_one};
use std::alloc::Global;
use std::test::Fail;
use tg_outside::{Failed, Fault, ListEntropy, MemoryFiles, MemorySink};
use tg_text::{Bytes, Memory, Word};

fn put(alloc: Global, name: &str, bytes: &[u8]) -> Result<Put, Memory> {
    Ok(Put {
        name: Word::new(alloc, name)?,
        bytes: Bytes::from_slice(alloc, bytes)?,
    })
}

fn puts(alloc: Global) -> Result<Vec<Put>, Memory> {
    let mut all = Vec::new(alloc);
    all.push(put(alloc, "a", b"1")?)?;
    all.push(put(alloc, "b", b"2")?)?;
    all.push(put(alloc, "c", b"3")?)?;
    Ok(all)
}

fn is_file(files: &MemoryFiles, name: &str, want: &[u8]) -> bool {
    match files.get(name) {
        Some(bytes) => bytes.as_slice() == want,
        None => false,
    }
}

// Whether the first two files are there, and the third one is or isn't.
fn are_files(files: &MemoryFiles, has_third: bool) -> bool {
    let is_third = if has_third {
        is_file(files, "c", b"3")
    } else {
        files.get("c").is_none()
    };
    is_third && is_file(files, "a", b"1") && is_file(files, "b", b"2")
}

#[test]
fn files_are_replaced_up_to_the_first_fault(rt: HostRuntime) -> Result<(), Fail> {
    let alloc = rt.alloc();
    let mut files = MemoryFiles::new(alloc, vec![in alloc; 3]?);
    let all = puts(alloc)?;
    replace_one(alloc, &mut files, "b", b"0")?;
    let end = replace_all(alloc, &mut files, &all);
    assert!(rt; end == Err(Fault::Failed) && are_files(&files, false));
    replace_all(alloc, &mut files, &all)?;
    assert!(rt; are_files(&files, true));
    Ok(())
}

#[test]
fn an_answer_is_printed(rt: HostRuntime) -> Result<(), Fail> {
    let alloc = rt.alloc();
    let mut out = MemorySink::new(alloc, Vec::new(alloc));
    let answer = Answer::say(alloc, 3, b"fault a NoFile\n")?;
    let status = conclude(&mut out, Ok(answer));
    assert!(rt; status == 3 && out.bytes() == b"fault a NoFile\n".as_slice());
    Ok(())
}

// Whether the answer ends so.
fn ends(out: &mut MemorySink, answer: Result<Answer, Stop>, status: u8) -> bool
    requires { IfSome (answer_of answer) (λ a. a.status < 5) }
{
    conclude(out, answer) == status && out.bytes() == b"team".as_slice()
}

#[test]
fn a_fault_ends_the_printing(rt: HostRuntime) -> Result<(), Fail> {
    let alloc = rt.alloc();
    let mut out = MemorySink::new(alloc, vec![in alloc; 4]?);
    out.set_most(1);
    let answer = Answer::say(alloc, 0, b"team\n")?;
    assert!(rt; ends(&mut out, Ok(answer), 5));
    assert!(rt; ends(&mut out, Err(Stop::Failed), 5) && ends(&mut out, Err(Stop::Memory), 6));
    Ok(())
}

fn draws(entropy: &mut ListEntropy<'_>, answer: Result<[u8; 32], Failed>) -> bool {
    draw_word(entropy) == answer
}

#[test]
fn a_word_is_drawn(rt: HostRuntime) -> Result<(), Fail> {
    let words = [[7; 32]];
    let mut entropy = ListEntropy::new(&words, vec![in rt.alloc(); 0]?);
    for answer in [Err(Failed), Ok([7; 32]), Err(Failed)] {
        assert!(rt; draws(&mut entropy, answer));
    }
    Ok(())
}
