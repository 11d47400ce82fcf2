//! `heads FILE`: the heads of the links in a file.
ghost use Rattle.std.specs.Prelude.{◌≡◌, ◌<◌, ◌∷◌, [], Contains, IfOk, IfSome};
ghost use Rattle.outcomes.specs.Seeing.{WithFiles, contents_of, counts_of};
ghost use Rattle.outcomes.specs.Ending.{HasCauseOrStop, IsBodyOf, IsCaused, Runs, answer_of};
ghost use Rattle.team_report.specs.HeadsText.{heads_text};
ghost use Rattle.team_words.specs.Words.{IsHeads};
ghost use Rattle.report_commands.specs.Heads.{does_heads, lists_heads};

use crate::laws::heads_is_one;
use link_graph::Graph;
use lockboxes::Sealer;
use openers::open_team;
use outcomes::{Answer, DONE, Stop, conclude};
use replica::Replica;
use std::alloc::Global;
use team_report::{heads_text, texts_are_of_set};
use team_words::Command;
use tg_outside::{Clock, Entropy, Files, Sink, Source, StepLedger, Steps};
use tg_text::{Bytes, Memory};

// The text of heads of the links that a graph holds.
fn heads_graph(alloc: Global, graph: Graph) -> Result<Bytes, Memory>
    ensures { IfOk result (λ out. out ≡ heads_text graph.links) }
{
    let replica = Replica::with_graph(alloc, graph)?;
    heads_text(alloc, &replica)
}

// All of `heads` but the printing.
fn answer_heads<F: Files>(alloc: Global, files: &mut F, file: &str) -> Result<Answer, Stop>
    ensures body { WithFiles (F.files files.old) (F.files files.new) (λ old new. IsBodyOf (lists_heads file.now) old new result) }
    ensures cause { HasCauseOrStop (F.faults files.old) (F.faults files.new) result }
    ensures status { IfSome (answer_of result) (λ a. Contains (0 ∷ 3 ∷ []) a.status) }
{
    let graph = open_team(alloc, files, file)?;
    let text = heads_graph(alloc, graph)?;
    Ok(Answer { status: DONE, text })
}

/// Prints the heads of the links in a file.
pub fn run_heads<F: Files, E: Entropy, C: Clock, I: Source, O: Sink, K: Sealer, L: StepLedger>(
    alloc: Global,
    command: &Command,
    files: &mut F,
    entropy: &mut E,
    clock: &mut C,
    input: &mut I,
    out: &mut O,
    sealer: &K,
    steps: &mut Steps<L>,
) -> u8
    requires { IsHeads command.now }
    ensures runs { Runs (does_heads command.now)
        (contents_of F.files E.left C.moment I.left O.taken files.old entropy.old clock.old input.old out.old)
        (contents_of F.files E.left C.moment I.left O.taken files.new entropy.new clock.new input.new out.new) result }
    ensures cause { IsCaused (counts_of F.faults E.faults I.faults O.faults files.old entropy.old input.old out.old)
        (counts_of F.faults E.faults I.faults O.faults files.new entropy.new input.new out.new) result }
    ensures status { result < 5 → Contains (0 ∷ 3 ∷ []) result }
{
    // Laws: they do nothing at run time.
    texts_are_of_set();
    heads_is_one();
    match command {
        Command::Heads { file } => conclude(out, answer_heads(alloc, files, file.as_str())),
        _ => unreachable!(),
    }
}
