//! `merge FILE BUNDLE`: the links of a bundle are given to the team of a file.
ghost use Rattle.std.specs.Prelude.{◌≡◌, ◌<◌, ◌∷◌, [], Contains, IfSome};
ghost use Rattle.outcomes.specs.Seeing.{WithFiles, contents_of, counts_of};
ghost use Rattle.outcomes.specs.Ending.{HasCauseOrStop, IsBodyOf, IsCaused, Runs, answer_of};
ghost use Rattle.team_words.specs.Words.{IsMerge};
ghost use Rattle.exchange_commands.specs.Merge.{does_merge, merges};

use crate::laws::merge_is_one;
use link_intake::{give_bundle, merge_is_union, merges_in_any_order, results_status, results_text};
use lockboxes::Sealer;
use openers::open_team;
use outcomes::{Answer, Stop, conclude, open_bytes, replace_one};
use std::alloc::Global;
use team_files::file_text;
use team_words::Command;
use tg_outside::{Clock, Entropy, Files, Sink, Source, StepLedger, Steps};

// All of `merge` but the printing.
fn answer_merge<F: Files>(
    alloc: Global,
    files: &mut F,
    file: &str,
    bundle: &str,
) -> Result<Answer, Stop>
    ensures body { WithFiles (F.files files.old) (F.files files.new) (λ old new. IsBodyOf (merges file.now bundle.now) old new result) }
    ensures cause { HasCauseOrStop (F.faults files.old) (F.faults files.new) result }
    ensures status { IfSome (answer_of result) (λ a. Contains (0 ∷ 1 ∷ 3 ∷ []) a.status) }
{
    let mut graph = open_team(alloc, files, file)?;
    let given = open_bytes(alloc, files, bundle)?;
    let results = give_bundle(alloc, &mut graph, given.as_slice())?;
    let text = results_text(alloc, results.as_slice())?;
    let status = results_status(results.as_slice());
    let bytes = file_text(alloc, &graph)?;
    replace_one(alloc, files, file, bytes.as_slice())?;
    Ok(Answer { status, text })
}

/// Gives the links of a bundle to the team of a file, and prints which items were refused and how many were new.
pub fn run_merge<F: Files, E: Entropy, C: Clock, I: Source, O: Sink, K: Sealer, L: StepLedger>(
    alloc: Global,
    command: &Command,
    files: &mut F,
    entropy: &mut E,
    clock: &mut C,
    input: &mut I,
    out: &mut O,
    sealer: &K,
    steps: &mut Steps<L>,
) -> u8
    requires { IsMerge command.now }
    ensures runs { Runs (does_merge command.now)
        (contents_of F.files E.left C.moment I.left O.taken files.old entropy.old clock.old input.old out.old)
        (contents_of F.files E.left C.moment I.left O.taken files.new entropy.new clock.new input.new out.new) result }
    ensures cause { IsCaused (counts_of F.faults E.faults I.faults O.faults files.old entropy.old input.old out.old)
        (counts_of F.faults E.faults I.faults O.faults files.new entropy.new input.new out.new) result }
    ensures status { result < 5 → Contains (0 ∷ 1 ∷ 3 ∷ []) result }
{
    // Laws: they do nothing at run time.
    merge_is_union();
    merges_in_any_order();
    merge_is_one();
    match command {
        Command::Merge { file, bundle } => conclude(
            out,
            answer_merge(alloc, files, file.as_str(), bundle.as_str()),
        ),
        _ => unreachable!(),
    }
}
