//! `why FILE NAME`: what is known of a link in a file.
ghost use Rattle.std.specs.Prelude.{◌≡◌, ◌<◌, ◌∷◌, [], false, Contains, IfOk, IfSome};
ghost use Rattle.team_sets.specs.Names.{has_name};
ghost use Rattle.team_sets.specs.Order.{names};
ghost use Rattle.team_model.specs.Judging.{name_of};
ghost use Rattle.outcomes.specs.Steps.{saying};
ghost use Rattle.outcomes.specs.Seeing.{WithFiles, contents_of, counts_of};
ghost use Rattle.outcomes.specs.Ending.{HasCauseOrStop, IsBodyOf, IsCaused, Runs, answer_of};
ghost use Rattle.team_words.specs.Words.{IsWhy};
ghost use Rattle.report_commands.specs.Why.{does_why, explaining, explains};

use crate::laws::why_is_one;
use link_graph::Graph;
use lockboxes::Sealer;
use openers::open_team;
use outcomes::{Answer, DONE, REFUSED, Stop, conclude};
use replica::Replica;
use std::alloc::Global;
use team_report::{texts_are_of_set, why_text};
use team_words::Command;
use tg_outside::{Clock, Entropy, Files, Sink, Source, StepLedger, Steps};
use tg_text::{LinkName, Memory};

// What is answered of the link of a name, among those that a graph holds.
fn explain(alloc: Global, graph: Graph, name: &LinkName) -> Result<Answer, Memory>
    ensures said { IfOk result (λ a. explaining graph.links name.now ≡ saying a.status a.text) }
    ensures status { IfOk result (λ a. Contains (0 ∷ 3 ∷ 4 ∷ []) a.status) }
{
    if !graph.holds(name) {
        return refuse_unheld(alloc, &graph, name);
    }
    let replica = Replica::with_graph(alloc, graph)?;
    let text = why_text(alloc, &replica, name)?;
    Ok(Answer { status: DONE, text })
}

// The answer where no held link has the name.
fn refuse_unheld(alloc: Global, graph: &Graph, name: &LinkName) -> Result<Answer, Memory>
    requires unheld { has_name (names name_of graph.now.links) name.now ≡ false }
    ensures said { IfOk result (λ a. explaining graph.now.links name.now ≡ saying a.status a.text) }
    ensures status { IfOk result (λ a. Contains (0 ∷ 3 ∷ 4 ∷ []) a.status) }
{
    Answer::say(alloc, REFUSED, b"fault NotHeld\n")
}

// All of `why` but the printing.
fn answer_why<F: Files>(
    alloc: Global,
    files: &mut F,
    file: &str,
    name: &LinkName,
) -> Result<Answer, Stop>
    ensures body { WithFiles (F.files files.old) (F.files files.new) (λ old new. IsBodyOf (explains file.now name.now) old new result) }
    ensures cause { HasCauseOrStop (F.faults files.old) (F.faults files.new) result }
    ensures status { IfSome (answer_of result) (λ a. Contains (0 ∷ 3 ∷ 4 ∷ []) a.status) }
{
    let graph = open_team(alloc, files, file)?;
    Ok(explain(alloc, graph, name)?)
}

/// Prints what is known of a link in a file: its author, its act, its height and what became of it. A name that isn't held is refused.
pub fn run_why<F: Files, E: Entropy, C: Clock, I: Source, O: Sink, K: Sealer, L: StepLedger>(
    alloc: Global,
    command: &Command,
    files: &mut F,
    entropy: &mut E,
    clock: &mut C,
    input: &mut I,
    out: &mut O,
    sealer: &K,
    steps: &mut Steps<L>,
) -> u8
    requires { IsWhy command.now }
    ensures runs { Runs (does_why command.now)
        (contents_of F.files E.left C.moment I.left O.taken files.old entropy.old clock.old input.old out.old)
        (contents_of F.files E.left C.moment I.left O.taken files.new entropy.new clock.new input.new out.new) result }
    ensures cause { IsCaused (counts_of F.faults E.faults I.faults O.faults files.old entropy.old input.old out.old)
        (counts_of F.faults E.faults I.faults O.faults files.new entropy.new input.new out.new) result }
    ensures status { result < 5 → Contains (0 ∷ 3 ∷ 4 ∷ []) result }
{
    // Laws: they do nothing at run time.
    texts_are_of_set();
    why_is_one();
    match command {
        Command::Why { file, name } => {
            conclude(out, answer_why(alloc, files, file.as_str(), name))
        }
        _ => unreachable!(),
    }
}
