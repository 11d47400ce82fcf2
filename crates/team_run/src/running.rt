ghost use Rattle.std.specs.Prelude.{◌≡◌, ◌≢◌, ◌<◌, map, None, Some, Contains, Err, IfSome, string_bytes, codes};
ghost use Rattle.lockboxes.specs.Keeping.{Keeper};
ghost use Rattle.outcomes.specs.Seeing.{contents_of, counts_of};
ghost use Rattle.outcomes.specs.Ending.{IsCaused, Runs, answer_of};
ghost use Rattle.team_words.specs.Words.{IsCommandOf};
ghost use Rattle.team_words.specs.declared.command.Command.{Command};
ghost use Rattle.team_run.specs.Running.{IsExchange, IsReport, IsSigning, does, does_run, statuses_of};
ghost use Rattle.team_run.specs.Serving.{IsComplete};

use crate::laws::{
    make_begins_team, merge_is_done, plain_is_done, runs_in_any_order, served_end_well,
    show_after_runs, teams_are_begun,
};
use author_commands::run_plain;
use exchange_commands::{run_meet, run_merge};
use key_commands::{run_make, run_newkey};
use lockboxes::Sealer;
use outcomes::{Answer, NO_MEMORY, Stop, USAGE, conclude};
use report_commands::{run_heads, run_keys, run_log, run_show, run_why};
use std::alloc::Global;
use team_words::{Command, command_of};
use tg_outside::{Clock, Entropy, Files, Sink, Source, StepLedger, Steps};
use tg_text::Memory;

/// All that the program does. The words are those after its name, and the result is its status: 0 to 4 by the words and
/// what is outside, 5 where a call of the outside failed, 6 for want of memory.
pub fn run<F: Files, E: Entropy, C: Clock, I: Source, O: Sink, K: Sealer, L: StepLedger>(
    alloc: Global,
    words: &[String],
    files: &mut F,
    entropy: &mut E,
    clock: &mut C,
    input: &mut I,
    out: &mut O,
    sealer: &K,
    steps: &mut Steps<L>,
) -> u8
    ensures runs { let keeper : Keeper = record { public_of = K.public; unseal = K.opened } in
        Runs (does_run keeper (map string_bytes words.now))
        (contents_of F.files E.left C.moment I.left O.taken files.old entropy.old clock.old input.old out.old)
        (contents_of F.files E.left C.moment I.left O.taken files.new entropy.new clock.new input.new out.new) result }
    ensures cause { IsCaused (counts_of F.faults E.faults I.faults O.faults files.old entropy.old input.old out.old)
        (counts_of F.faults E.faults I.faults O.faults files.new entropy.new input.new out.new) result }

    // Whether or not contents are known, 2 comes exactly where the words are no command.
    ensures usage { IsCommandOf (map string_bytes words.now) None → result < 5 → result ≡ 2 }
    ensures only_usage { result ≡ 2 → IsCommandOf (map string_bytes words.now) None }

    // A command that gives items may end with 1, and one that signs for a team with 4.
    ensures statuses { (command : Command) → IsCommandOf (map string_bytes words.now) (Some command) → result < 5 → Contains (statuses_of command) result }

    // Where contents are known, the named files are as the command needs them, and no count of faults rises, it does all, or memory is short.
    ensures complete { (command : Command) → IsCommandOf (map string_bytes words.now) (Some command) → IsComplete command
        (contents_of F.files E.left C.moment I.left O.taken files.old entropy.old clock.old input.old out.old)
        (counts_of F.faults E.faults I.faults O.faults files.old entropy.old input.old out.old)
        (counts_of F.faults E.faults I.faults O.faults files.new entropy.new input.new out.new) result }
{
    // Laws: they do nothing at run time.
    served_end_well();
    make_begins_team();
    teams_are_begun();
    merge_is_done();
    plain_is_done();
    show_after_runs();
    runs_in_any_order();
    match command_of(alloc, words) {
        Ok(Some(command)) => {
            run_command(
                alloc, &command, files, entropy, clock, input, out, sealer, steps,
            )
        }
        Ok(None) => conclude(out, usage(alloc)),
        Err(Memory) => NO_MEMORY,
    }
}

/// Does a command.
pub fn run_command<F: Files, E: Entropy, C: Clock, I: Source, O: Sink, K: Sealer, L: StepLedger>(
    alloc: Global,
    command: &Command,
    files: &mut F,
    entropy: &mut E,
    clock: &mut C,
    input: &mut I,
    out: &mut O,
    sealer: &K,
    steps: &mut Steps<L>,
) -> u8
    ensures runs { let keeper : Keeper = record { public_of = K.public; unseal = K.opened } in
        Runs (does keeper command.now)
        (contents_of F.files E.left C.moment I.left O.taken files.old entropy.old clock.old input.old out.old)
        (contents_of F.files E.left C.moment I.left O.taken files.new entropy.new clock.new input.new out.new) result }
    ensures cause { IsCaused (counts_of F.faults E.faults I.faults O.faults files.old entropy.old input.old out.old)
        (counts_of F.faults E.faults I.faults O.faults files.new entropy.new input.new out.new) result }
    ensures status { result < 5 → Contains (statuses_of command.now) result }
{
    match command {
        Command::Make { .. } | Command::Newkey { .. } | Command::Plain { .. } => {
            run_signing(
                alloc, command, files, entropy, clock, input, out, sealer, steps,
            )
        }
        Command::Merge { .. } | Command::Meet { .. } => {
            run_exchange(
                alloc, command, files, entropy, clock, input, out, sealer, steps,
            )
        }
        Command::Show { .. }
        | Command::Log { .. }
        | Command::Heads { .. }
        | Command::Why { .. }
        | Command::Keys { .. } => {
            run_report(
                alloc, command, files, entropy, clock, input, out, sealer, steps,
            )
        }
    }
}

// Does a command that makes a key or signs by one.
fn run_signing<F: Files, E: Entropy, C: Clock, I: Source, O: Sink, K: Sealer, L: StepLedger>(
    alloc: Global,
    command: &Command,
    files: &mut F,
    entropy: &mut E,
    clock: &mut C,
    input: &mut I,
    out: &mut O,
    sealer: &K,
    steps: &mut Steps<L>,
) -> u8
    requires { IsSigning command.now }
    ensures runs { let keeper : Keeper = record { public_of = K.public; unseal = K.opened } in
        Runs (does keeper command.now)
        (contents_of F.files E.left C.moment I.left O.taken files.old entropy.old clock.old input.old out.old)
        (contents_of F.files E.left C.moment I.left O.taken files.new entropy.new clock.new input.new out.new) result }
    ensures cause { IsCaused (counts_of F.faults E.faults I.faults O.faults files.old entropy.old input.old out.old)
        (counts_of F.faults E.faults I.faults O.faults files.new entropy.new input.new out.new) result }
    ensures status { result < 5 → Contains (statuses_of command.now) result }
{
    match command {
        Command::Make { .. } => {
            run_make(
                alloc, command, files, entropy, clock, input, out, sealer, steps,
            )
        }
        Command::Newkey { .. } => {
            run_newkey(
                alloc, command, files, entropy, clock, input, out, sealer, steps,
            )
        }
        Command::Plain { .. } => {
            run_plain(
                alloc, command, files, entropy, clock, input, out, sealer, steps,
            )
        }
        _ => unreachable!(),
    }
}

// Does a command that takes links from others.
fn run_exchange<F: Files, E: Entropy, C: Clock, I: Source, O: Sink, K: Sealer, L: StepLedger>(
    alloc: Global,
    command: &Command,
    files: &mut F,
    entropy: &mut E,
    clock: &mut C,
    input: &mut I,
    out: &mut O,
    sealer: &K,
    steps: &mut Steps<L>,
) -> u8
    requires { IsExchange command.now }
    ensures runs { let keeper : Keeper = record { public_of = K.public; unseal = K.opened } in
        Runs (does keeper command.now)
        (contents_of F.files E.left C.moment I.left O.taken files.old entropy.old clock.old input.old out.old)
        (contents_of F.files E.left C.moment I.left O.taken files.new entropy.new clock.new input.new out.new) result }
    ensures cause { IsCaused (counts_of F.faults E.faults I.faults O.faults files.old entropy.old input.old out.old)
        (counts_of F.faults E.faults I.faults O.faults files.new entropy.new input.new out.new) result }
    ensures status { result < 5 → Contains (statuses_of command.now) result }
{
    match command {
        Command::Merge { .. } => {
            run_merge(
                alloc, command, files, entropy, clock, input, out, sealer, steps,
            )
        }
        Command::Meet { .. } => {
            run_meet(
                alloc, command, files, entropy, clock, input, out, sealer, steps,
            )
        }
        _ => unreachable!(),
    }
}

// Does a command that reports.
fn run_report<F: Files, E: Entropy, C: Clock, I: Source, O: Sink, K: Sealer, L: StepLedger>(
    alloc: Global,
    command: &Command,
    files: &mut F,
    entropy: &mut E,
    clock: &mut C,
    input: &mut I,
    out: &mut O,
    sealer: &K,
    steps: &mut Steps<L>,
) -> u8
    requires { IsReport command.now }
    ensures runs { let keeper : Keeper = record { public_of = K.public; unseal = K.opened } in
        Runs (does keeper command.now)
        (contents_of F.files E.left C.moment I.left O.taken files.old entropy.old clock.old input.old out.old)
        (contents_of F.files E.left C.moment I.left O.taken files.new entropy.new clock.new input.new out.new) result }
    ensures cause { IsCaused (counts_of F.faults E.faults I.faults O.faults files.old entropy.old input.old out.old)
        (counts_of F.faults E.faults I.faults O.faults files.new entropy.new input.new out.new) result }
    ensures status { result < 5 → Contains (statuses_of command.now) result }
{
    match command {
        Command::Show { .. } => {
            run_show(
                alloc, command, files, entropy, clock, input, out, sealer, steps,
            )
        }
        Command::Log { .. } => {
            run_log(
                alloc, command, files, entropy, clock, input, out, sealer, steps,
            )
        }
        Command::Heads { .. } => {
            run_heads(
                alloc, command, files, entropy, clock, input, out, sealer, steps,
            )
        }
        Command::Why { .. } => {
            run_why(
                alloc, command, files, entropy, clock, input, out, sealer, steps,
            )
        }
        Command::Keys { .. } => {
            run_keys(
                alloc, command, files, entropy, clock, input, out, sealer, steps,
            )
        }
        _ => unreachable!(),
    }
}

fn usage(alloc: Global) -> Result<Answer, Stop>
    ensures said { IfSome (answer_of result) (λ answer. (answer.status ≡ 2) × (answer.text ≡ codes "usage\n")) }
    ensures never { result ≢ Err Stop.Failed }
{
    Ok(Answer::say(alloc, USAGE, b"usage\n")?)
}
