//! `keys FILE KEYFILE`: the keys that the device of a key file opens in the team of a file.
ghost use Rattle.std.specs.Prelude.{◌≡◌, ◌<◌, ◌∷◌, [], Contains, IfOk, IfSome};
ghost use Rattle.lms_keep.specs.KeyText.{AreKinds};
ghost use Rattle.lockboxes.specs.Keeping.{Keeper};
ghost use Rattle.outcomes.specs.Seeing.{WithFiles, contents_of, counts_of};
ghost use Rattle.outcomes.specs.Ending.{HasCauseOrStop, IsBodyOf, IsCaused, Runs, answer_of};
ghost use Rattle.team_words.specs.Words.{IsKeys};
ghost use Rattle.report_commands.specs.Keys.{IsKeysText, does_keys, lists_keys};

use crate::laws::keys_is_one;
use acts::device_of;
use link_graph::Graph;
use lms_keep::KeyState;
use lockboxes::{Sealer, open_all, opened_are_entitled};
use openers::{open_key, open_team};
use outcomes::{Answer, DONE, Stop, conclude};
use replica::Replica;
use std::alloc::Global;
use team_report::{keys_text, opened_keys_are_exact};
use team_words::Command;
use tg_outside::{Clock, Entropy, Files, Sink, Source, StepLedger, Steps};
use tg_text::{Bytes, Memory};

// The text of the keys that the device of a key file opens among the links that a graph holds.
fn keys_graph<K: Sealer>(
    alloc: Global,
    sealer: &K,
    graph: Graph,
    state: &KeyState,
) -> Result<Bytes, Memory>
    requires { AreKinds state.now.lms state.now.ots }
    ensures { let keeper : Keeper = record { public_of = K.public; unseal = K.opened } in
        IfOk result (λ out. IsKeysText keeper graph state.now out) }
{
    let replica = Replica::with_graph(alloc, graph)?;
    let key = state.public(alloc)?;
    let opened = open_all(
        alloc,
        sealer,
        replica.state(),
        &device_of(&key),
        &state.secret,
    )?;
    keys_text(alloc, opened.as_slice())
}

// All of `keys` but the printing.
fn answer_keys<F: Files, K: Sealer>(
    alloc: Global,
    files: &mut F,
    sealer: &K,
    file: &str,
    key_file: &str,
) -> Result<Answer, Stop>
    ensures body { let keeper : Keeper = record { public_of = K.public; unseal = K.opened } in
        WithFiles (F.files files.old) (F.files files.new) (λ old new. IsBodyOf (lists_keys keeper file.now key_file.now) old new result) }
    ensures cause { HasCauseOrStop (F.faults files.old) (F.faults files.new) result }
    ensures status { IfSome (answer_of result) (λ a. Contains (0 ∷ 3 ∷ []) a.status) }
{
    let graph = open_team(alloc, files, file)?;
    let state = open_key(alloc, files, key_file)?;
    let text = keys_graph(alloc, sealer, graph, &state)?;
    Ok(Answer { status: DONE, text })
}

/// Prints the id of each key that the device of a key file opens in the team of a file, each once. A key file of a device that isn't
/// listed serves, and so does one of which no leaf is left.
pub fn run_keys<F: Files, E: Entropy, C: Clock, I: Source, O: Sink, K: Sealer, L: StepLedger>(
    alloc: Global,
    command: &Command,
    files: &mut F,
    entropy: &mut E,
    clock: &mut C,
    input: &mut I,
    out: &mut O,
    sealer: &K,
    steps: &mut Steps<L>,
) -> u8
    requires { IsKeys command.now }
    ensures runs { let keeper : Keeper = record { public_of = K.public; unseal = K.opened } in
        Runs (does_keys keeper command.now)
        (contents_of F.files E.left C.moment I.left O.taken files.old entropy.old clock.old input.old out.old)
        (contents_of F.files E.left C.moment I.left O.taken files.new entropy.new clock.new input.new out.new) result }
    ensures cause { IsCaused (counts_of F.faults E.faults I.faults O.faults files.old entropy.old input.old out.old)
        (counts_of F.faults E.faults I.faults O.faults files.new entropy.new input.new out.new) result }
    ensures status { result < 5 → Contains (0 ∷ 3 ∷ []) result }
{
    // Laws: they do nothing at run time.
    opened_keys_are_exact();
    opened_are_entitled();
    keys_is_one();
    match command {
        Command::Keys { file, key_file } => conclude(
            out,
            answer_keys(alloc, files, sealer, file.as_str(), key_file.as_str()),
        ),
        _ => unreachable!(),
    }
}
