//! `log FILE`: what became of each link in a file.
ghost use Rattle.std.specs.Prelude.{◌≡◌, ◌<◌, ◌∷◌, [], Contains, IfOk, IfSome};
ghost use Rattle.outcomes.specs.Seeing.{WithFiles, contents_of, counts_of};
ghost use Rattle.outcomes.specs.Ending.{HasCauseOrStop, IsBodyOf, IsCaused, Runs, answer_of};
ghost use Rattle.team_report.specs.LogText.{log_text};
ghost use Rattle.team_words.specs.Words.{IsLog};
ghost use Rattle.report_commands.specs.Log.{does_log, logs};

use crate::laws::log_is_one;
use link_graph::Graph;
use lockboxes::Sealer;
use openers::open_team;
use outcomes::{Answer, DONE, Stop, conclude};
use replica::Replica;
use std::alloc::Global;
use team_report::{log_text, texts_are_of_set};
use team_words::Command;
use tg_outside::{Clock, Entropy, Files, Sink, Source, StepLedger, Steps};
use tg_text::{Bytes, Memory};

// The text of log of the links that a graph holds.
fn log_graph(alloc: Global, graph: Graph) -> Result<Bytes, Memory>
    ensures { IfOk result (λ out. out ≡ log_text graph.links) }
{
    let replica = Replica::with_graph(alloc, graph)?;
    log_text(alloc, &replica)
}

// All of `log` but the printing.
fn answer_log<F: Files>(alloc: Global, files: &mut F, file: &str) -> Result<Answer, Stop>
    ensures body { WithFiles (F.files files.old) (F.files files.new) (λ old new. IsBodyOf (logs file.now) old new result) }
    ensures cause { HasCauseOrStop (F.faults files.old) (F.faults files.new) result }
    ensures status { IfSome (answer_of result) (λ a. Contains (0 ∷ 3 ∷ []) a.status) }
{
    let graph = open_team(alloc, files, file)?;
    let text = log_graph(alloc, graph)?;
    Ok(Answer { status: DONE, text })
}

/// Prints what became of each link in a file.
pub fn run_log<F: Files, E: Entropy, C: Clock, I: Source, O: Sink, K: Sealer, L: StepLedger>(
    alloc: Global,
    command: &Command,
    files: &mut F,
    entropy: &mut E,
    clock: &mut C,
    input: &mut I,
    out: &mut O,
    sealer: &K,
    steps: &mut Steps<L>,
) -> u8
    requires { IsLog command.now }
    ensures runs { Runs (does_log command.now)
        (contents_of F.files E.left C.moment I.left O.taken files.old entropy.old clock.old input.old out.old)
        (contents_of F.files E.left C.moment I.left O.taken files.new entropy.new clock.new input.new out.new) result }
    ensures cause { IsCaused (counts_of F.faults E.faults I.faults O.faults files.old entropy.old input.old out.old)
        (counts_of F.faults E.faults I.faults O.faults files.new entropy.new input.new out.new) result }
    ensures status { result < 5 → Contains (0 ∷ 3 ∷ []) result }
{
    // Laws: they do nothing at run time.
    texts_are_of_set();
    log_is_one();
    match command {
        Command::Log { file } => conclude(out, answer_log(alloc, files, file.as_str())),
        _ => unreachable!(),
    }
}
