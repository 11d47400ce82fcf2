//! `newkey KEYFILE USER`: a key file for a device of the user's.
ghost use Rattle.std.specs.Prelude.{◌≡◌, ◌≤◌, ◌<◌, ◌∷◌, [], Contains, IfOk, IfSome, IsTrue, OnOk};
ghost use Rattle.tg_text.specs.Spelling.{is_user_name};
ghost use Rattle.tg_outside.specs.Causes.{HasCauseOrMemory};
ghost use Rattle.lms_keep.specs.KeyText.{AreKinds, IsKeyState, key_text, leaves};
ghost use Rattle.outcomes.specs.Steps.{World, after, draws, put, puts};
ghost use Rattle.outcomes.specs.Seeing.{AreKnown, Contents, Counts, IsCut, WithFilesAndDraws, contents_of, counts_of};
ghost use Rattle.outcomes.specs.Ending.{HasCauseOrStop, IsBodyOf, IsCaused, IsFaulted, Runs, answer_of};
ghost use Rattle.team_words.specs.Words.{IsNewkey};
ghost use Rattle.key_commands.specs.Leaving.{LeavesKey};
ghost use Rattle.key_commands.specs.Newkey.{does_newkey, drawn_key, newkey_text, newkeys};

use crate::laws::newkey_is_one;
use acts::device_of;
use lms_keep::{KeyState, make_key};
use lockboxes::Sealer;
use outcomes::{Answer, DONE, Stop, conclude, must_be_absent, replace_one};
use std::alloc::Global;
use team_words::Command;
use tg_outside::{Clock, Entropy, Fault, Files, MakeFault, Sink, Source, StepLedger, Steps};
use tg_text::{Bytes, Memory, UserName, write_base64_line, write_hex_line};

// A key of the next three words.
pub(crate) fn draw_key<E: Entropy>(entropy: &mut E, user: UserName) -> Result<KeyState, Fault>
    ensures done { (seen : Contents) (w : World) → AreKnown (record seen { draws = E.left entropy.old }) w
        → IfOk result (λ s. (s ≡ drawn_key user w) × AreKnown (record seen { draws = E.left entropy.new }) (after (draws 3) w)) }
    ensures cut { (seen : Contents) (w : World) → AreKnown (record seen { draws = E.left entropy.old }) w
        → IsCut (record seen { draws = E.left entropy.new }) (draws 3) w }
    ensures kinds { IfOk result (λ s. AreKinds s.lms s.ots) }
    ensures range { IsTrue (is_user_name user) → IfOk result (λ s. IsKeyState s) }
    ensures fresh { IfOk result (λ s. s.next < leaves s.lms) }
    ensures cause { HasCauseOrMemory (E.faults entropy.old) (E.faults entropy.new) result }
{
    match make_key(entropy, user) {
        Ok(state) => Ok(state),
        Err(MakeFault::EntropyFault) => Err(Fault::Failed),
        Err(MakeFault::Memory) => Err(Fault::Memory),
    }
}

// What is printed of a new key.
fn newkey_text<K: Sealer>(alloc: Global, sealer: &K, state: &KeyState) -> Result<Bytes, Memory>
    requires { AreKinds state.now.lms state.now.ots }
    ensures { IfOk result (λ text. text ≡ newkey_text K.public state.now) }
{
    let key = state.public(alloc)?;
    let mut out = Bytes::new(alloc);
    write_hex_line(&mut out, b"device", device_of(&key).as_slice())?;
    write_base64_line(&mut out, b"key", key.as_slice())?;
    write_hex_line(&mut out, b"seal", &sealer.public_of(&state.secret))?;
    Ok(out)
}

// Writes the key file of a new key. All memory is taken before.
fn keep_key<F: Files, K: Sealer>(
    alloc: Global,
    files: &mut F,
    sealer: &K,
    key_file: &str,
    state: &KeyState,
) -> Result<Answer, Fault>
    requires { AreKinds state.now.lms state.now.ots }
    ensures said { IfOk result (λ answer. (answer.status ≡ 0) × (answer.text ≡ newkey_text K.public state.now)) }
    ensures done { (seen : Contents) (w : World) → AreKnown (record seen { files = F.files files.old }) w
        → OnOk result (AreKnown (record seen { files = F.files files.new }) (after (puts (put key_file.now (key_text state.now) ∷ [])) w)) }
    ensures cut { (seen : Contents) (w : World) → AreKnown (record seen { files = F.files files.old }) w
        → IsCut (record seen { files = F.files files.new }) (puts (put key_file.now (key_text state.now) ∷ [])) w }
    ensures cause { HasCauseOrMemory (F.faults files.old) (F.faults files.new) result }
{
    let text = newkey_text(alloc, sealer, state)?;
    let bytes = state.write(alloc)?;
    replace_one(alloc, files, key_file, bytes.as_slice())?;
    Ok(Answer { status: DONE, text })
}

// All of `newkey` but the printing.
fn answer_newkey<F: Files, E: Entropy, K: Sealer>(
    alloc: Global,
    files: &mut F,
    entropy: &mut E,
    sealer: &K,
    key_file: &str,
    user: UserName,
) -> Result<Answer, Stop>
    ensures body { WithFilesAndDraws (F.files files.old) (F.files files.new) (E.left entropy.old) (E.left entropy.new)
        (λ old new. IsBodyOf (newkeys K.public key_file.now user) old new result) }
    ensures cause { (counts : Counts) → IsFaulted (record counts { files = F.faults files.old; draws = E.faults entropy.old })
        (record counts { files = F.faults files.new; draws = E.faults entropy.new }) result }
    ensures range { (seen : Contents) (w : World) → AreKnown (record seen { draws = E.left entropy.old }) w → IsTrue (is_user_name user)
        → IfSome (answer_of result) (λ a. a.status ≡ 0 → IsKeyState (drawn_key user w)) }
    ensures status { IfSome (answer_of result) (λ a. Contains (0 ∷ 3 ∷ []) a.status) }
{
    must_be_absent(alloc, files, key_file)?;
    let state = draw_key(entropy, user)?;
    let answer = keep_key(alloc, files, sealer, key_file, &state)?;
    Ok(answer)
}

/// Makes a key file for a device of the user's, and prints what others need to know of the device.
pub fn run_newkey<F: Files, E: Entropy, C: Clock, I: Source, O: Sink, K: Sealer, L: StepLedger>(
    alloc: Global,
    command: &Command,
    files: &mut F,
    entropy: &mut E,
    clock: &mut C,
    input: &mut I,
    out: &mut O,
    sealer: &K,
    steps: &mut Steps<L>,
) -> u8
    requires { IsNewkey command.now }
    ensures runs { Runs (does_newkey K.public command.now)
        (contents_of F.files E.left C.moment I.left O.taken files.old entropy.old clock.old input.old out.old)
        (contents_of F.files E.left C.moment I.left O.taken files.new entropy.new clock.new input.new out.new) result }
    ensures made { result ≡ 0 → (w : World) → AreKnown (contents_of F.files E.left C.moment I.left O.taken files.old entropy.old clock.old input.old out.old) w
        → LeavesKey command.now (contents_of F.files E.left C.moment I.left O.taken files.new entropy.new clock.new input.new out.new) }
    ensures cause { IsCaused (counts_of F.faults E.faults I.faults O.faults files.old entropy.old input.old out.old)
        (counts_of F.faults E.faults I.faults O.faults files.new entropy.new input.new out.new) result }
    ensures status { result < 5 → Contains (0 ∷ 3 ∷ []) result }
{
    // A law: it does nothing at run time.
    newkey_is_one();
    match command {
        Command::Newkey { key_file, user } => {
            // Its clause says that the name is one.
            let _name = user.as_slice();
            conclude(
                out,
                answer_newkey(alloc, files, entropy, sealer, key_file.as_str(), *user),
            )
        }
        _ => unreachable!(),
    }
}
