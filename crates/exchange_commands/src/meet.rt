//! `meet FILE1 FILE2`: the teams of two files exchange what the other lacks, by messages.
ghost use Rattle.std.specs.Prelude.{◌≡◌, ◌<◌, ◌∷◌, ◌++◌, [], Contains, IfOk, IfSome, OnOk};
ghost use Rattle.link_text.specs.TeamFile.{file_text};
ghost use Rattle.outcomes.specs.Steps.{put};
ghost use Rattle.outcomes.specs.Seeing.{WithFiles, contents_of, counts_of};
ghost use Rattle.outcomes.specs.Ending.{HasCauseOrStop, IsBodyOf, IsCaused, Runs, answer_of};
ghost use Rattle.team_words.specs.Words.{IsMeet};
ghost use Rattle.exchange_commands.specs.Meet.{IsOtherTeam, does_meet, meeting, meets, met_status, met_text, passed_line, refused_line};

use crate::laws::meet_is_one;
use head_sync::{Met, meet};
use link_graph::Graph;
use lockboxes::Sealer;
use openers::open_team;
use outcomes::{Answer, DONE, ITEM_REFUSED, Put, REFUSED, Stop, conclude, replace_all};
use std::alloc::Global;
use team_files::file_text;
use team_words::Command;
use tg_outside::{Clock, Entropy, Files, Sink, Source, StepLedger, Steps};
use tg_text::{Bytes, Memory, Word, write_decimal, write_decimal_line, write_hex};

// All of `meet` but the printing.
fn answer_meet<F: Files, L: StepLedger>(
    alloc: Global,
    files: &mut F,
    file: &str,
    other: &str,
    steps: &mut Steps<L>,
) -> Result<Answer, Stop>
    ensures body { WithFiles (F.files files.old) (F.files files.new) (λ old new. IsBodyOf (meets file.now other.now) old new result) }
    ensures cause { HasCauseOrStop (F.faults files.old) (F.faults files.new) result }
    ensures status { IfSome (answer_of result) (λ a. Contains (0 ∷ 1 ∷ 3 ∷ 4 ∷ []) a.status) }
{
    let mut one = open_team(alloc, files, file)?;
    let mut two = open_team(alloc, files, other)?;
    meet_opened(alloc, files, file, other, &mut one, &mut two, steps)
}

// What is done once both files are opened.
fn meet_opened<F: Files, L: StepLedger>(
    alloc: Global,
    files: &mut F,
    file: &str,
    other: &str,
    one: &mut Graph,
    two: &mut Graph,
    steps: &mut Steps<L>,
) -> Result<Answer, Stop>
    ensures body { WithFiles (F.files files.old) (F.files files.new) (λ old new. IsBodyOf (meeting file.now other.now one.old two.old) old new result) }
    ensures cause { HasCauseOrStop (F.faults files.old) (F.faults files.new) result }
    ensures status { IfSome (answer_of result) (λ a. Contains (0 ∷ 1 ∷ 3 ∷ 4 ∷ []) a.status) }
{
    if one.team() != two.team() {
        return Err(refuse_other_team(alloc));
    }
    let (first, second) = (one.held(), two.held());
    let met = meet(alloc, one, two, steps)?;
    let first_new = one.held().saturating_sub(first);
    let second_new = two.held().saturating_sub(second);
    let text = met_text(alloc, first_new, second_new, &met)?;
    let status = met_status(&met);
    let first_put = put(alloc, file, one)?;
    let second_put = put(alloc, other, two)?;
    let puts = [first_put, second_put];
    replace_all(alloc, files, &puts)?;
    Ok(Answer { status, text })
}

// The file of what a graph holds, to stand under a name.
fn put(alloc: Global, name: &str, graph: &Graph) -> Result<Put, Memory>
    ensures { IfOk result (λ it. it ≡ put name.now (file_text graph.now.team graph.now.links)) }
{
    let name = Word::new(alloc, name)?;
    let bytes = file_text(alloc, graph)?;
    Ok(Put { name, bytes })
}

// Two teams don't meet.
fn refuse_other_team(alloc: Global) -> Stop
    ensures { IsOtherTeam result }
{
    match Answer::say(alloc, REFUSED, b"fault OtherTeam\n") {
        Ok(answer) => Stop::Refused(answer),
        Err(Memory) => Stop::Memory,
    }
}

// What is printed of a meeting, where the ends came to hold so many links more.
fn met_text(alloc: Global, first: u32, second: u32, met: &Met) -> Result<Bytes, Memory>
    ensures { IfOk result (λ text. text ≡ met_text first second met.now) }
{
    let mut out = Bytes::new(alloc);
    write_passed(&mut out, met)?;
    write_decimal_line(&mut out, b"1 new", u64::from(first))?;
    write_decimal_line(&mut out, b"2 new", u64::from(second))?;
    write_refused(&mut out, b"1 refused", met.refused_by_first)?;
    write_refused(&mut out, b"2 refused", met.refused_by_second)?;
    Ok(out)
}

// How many messages passed, and their digest.
fn write_passed(out: &mut Bytes, met: &Met) -> Result<(), Memory>
    ensures { OnOk result (out.new ≡ out.old ++ passed_line met.now) }
{
    out.append(b"passed ")?;
    write_decimal(out, met.messages)?;
    out.append(b" ")?;
    write_hex(out, &met.digest)?;
    out.append(b"\n")
}

// How many links an end refused, if it did.
fn write_refused(out: &mut Bytes, words: &[u8], count: u32) -> Result<(), Memory>
    ensures { OnOk result (out.new ≡ out.old ++ refused_line words.now count) }
{
    if count == 0 {
        return Ok(());
    }
    write_decimal_line(out, words, u64::from(count))
}

// 1 where an end refused a link, else 0.
fn met_status(met: &Met) -> u8
    ensures { result ≡ met_status met.now }
{
    if met.refused_by_first == 0 && met.refused_by_second == 0 {
        DONE
    } else {
        ITEM_REFUSED
    }
}

/// Lets two ends meet that hold the links of two files, replaces both files, and prints how many messages passed and how many links were new.
pub fn run_meet<F: Files, E: Entropy, C: Clock, I: Source, O: Sink, K: Sealer, L: StepLedger>(
    alloc: Global,
    command: &Command,
    files: &mut F,
    entropy: &mut E,
    clock: &mut C,
    input: &mut I,
    out: &mut O,
    sealer: &K,
    steps: &mut Steps<L>,
) -> u8
    requires { IsMeet command.now }
    ensures runs { Runs (does_meet command.now)
        (contents_of F.files E.left C.moment I.left O.taken files.old entropy.old clock.old input.old out.old)
        (contents_of F.files E.left C.moment I.left O.taken files.new entropy.new clock.new input.new out.new) result }
    ensures cause { IsCaused (counts_of F.faults E.faults I.faults O.faults files.old entropy.old input.old out.old)
        (counts_of F.faults E.faults I.faults O.faults files.new entropy.new input.new out.new) result }
    ensures status { result < 5 → Contains (0 ∷ 1 ∷ 3 ∷ 4 ∷ []) result }
{
    // A law: it does nothing at run time.
    meet_is_one();
    match command {
        Command::Meet { file, other } => conclude(
            out,
            answer_meet(alloc, files, file.as_str(), other.as_str(), steps),
        ),
        _ => unreachable!(),
    }
}
