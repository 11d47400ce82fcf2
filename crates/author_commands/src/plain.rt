//! `plain FILE KEYFILE ACT FIELDS`: a link of an act, without key lines.
ghost use Rattle.std.specs.Prelude.{◌≡◌, ◌<◌, ◌∷◌, [], Contains, IfOk, IfSome};
ghost use Rattle.outcomes.specs.Seeing.{WithFiles, contents_of, counts_of};
ghost use Rattle.outcomes.specs.Ending.{HasCauseOrStop, IsBodyOf, IsCaused, Runs, answer_of};
ghost use Rattle.team_words.specs.Words.{IsPlain};
ghost use Rattle.author_commands.specs.Plain.{does_plain, plain_plan, plains};

use crate::authoring::author;
use crate::laws::{authored_is_taken, plain_is_one};
use crate::planner::{Planned, Planner};
use crate::refusal::Refusal;
use lms_keep::KeyState;
use lockboxes::Sealer;
use outcomes::{Answer, Stop, conclude};
use replica::Replica;
use std::alloc::Global;
use team_author::{PlanFault, plan_plain};
use team_words::{Command, GivenAct};
use tg_outside::{Clock, Entropy, Files, Sink, Source, StepLedger, Steps};
use tg_text::{Memory, PublicKey};

// An act at a time.
#[derive(Drop)]
struct Plain<'a> {
    act: &'a GivenAct,
    time: u64,
}

impl Planner for Plain<'_> {
    ghost use Rattle.author_commands.specs.Plain.{plain_plan};

    ghost plans = { λ it held key p. plain_plan it.act.now it.time held key p };

    fn plan(
        &self,
        alloc: Global,
        replica: &Replica,
        author: &KeyState,
        key: &PublicKey,
    ) -> Result<Planned, Memory> {
        match plan_plain(alloc, replica, author, key, self.act.as_act(), self.time) {
            Ok(draft) => Ok(Planned::Writes(draft)),
            Err(PlanFault::Full) => Ok(Planned::Refuses(Refusal::Full)),
            Err(PlanFault::NotPermitted(reason)) => {
                Ok(Planned::Refuses(Refusal::NotPermitted(reason)))
            }
            Err(PlanFault::Memory) => Err(Memory),
        }
    }
}

// All of `plain` but the printing.
fn answer_plain<F: Files, L: StepLedger>(
    alloc: Global,
    files: &mut F,
    file: &str,
    key_file: &str,
    act: &GivenAct,
    time: u64,
    steps: &mut Steps<L>,
) -> Result<Answer, Stop>
    ensures body { WithFiles (F.files files.old) (F.files files.new) (λ old new. IfSome old.moment (λ moment. time ≡ moment)
        → IsBodyOf (plains file.now key_file.now act.now) old new result) }
    ensures cause { HasCauseOrStop (F.faults files.old) (F.faults files.new) result }
    ensures status { IfSome (answer_of result) (λ a. Contains (0 ∷ 3 ∷ 4 ∷ []) a.status) }
{
    author(alloc, files, file, key_file, &Plain { act, time }, steps)
}

/// Writes a link of an act by a key, without key lines, and prints its name.
///
/// The key file is replaced before its leaf signs, and the team file after that.
pub fn run_plain<F: Files, E: Entropy, C: Clock, I: Source, O: Sink, K: Sealer, L: StepLedger>(
    alloc: Global,
    command: &Command,
    files: &mut F,
    entropy: &mut E,
    clock: &mut C,
    input: &mut I,
    out: &mut O,
    sealer: &K,
    steps: &mut Steps<L>,
) -> u8
    requires { IsPlain command.now }
    ensures runs { Runs (does_plain command.now)
        (contents_of F.files E.left C.moment I.left O.taken files.old entropy.old clock.old input.old out.old)
        (contents_of F.files E.left C.moment I.left O.taken files.new entropy.new clock.new input.new out.new) result }
    ensures cause { IsCaused (counts_of F.faults E.faults I.faults O.faults files.old entropy.old input.old out.old)
        (counts_of F.faults E.faults I.faults O.faults files.new entropy.new input.new out.new) result }
    ensures status { result < 5 → Contains (0 ∷ 3 ∷ 4 ∷ []) result }
{
    // Laws: they do nothing at run time.
    plain_is_one();
    authored_is_taken();
    match command {
        Command::Plain {
            file,
            key_file,
            act,
        } => {
            let time = clock.now();
            conclude(
                out,
                answer_plain(
                    alloc,
                    files,
                    file.as_str(),
                    key_file.as_str(),
                    act,
                    time,
                    steps,
                ),
            )
        }
        _ => unreachable!(),
    }
}
