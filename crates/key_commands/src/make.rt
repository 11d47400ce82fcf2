//! `make FILE KEYFILE USER TITLE`: a key is made, and a team founded by its owner.
ghost use Rattle.std.specs.Prelude.{◌≡◌, ◌<◌, ◌++◌, ◌∷◌, [], Contains, ℕ, List, IfOk, IfSome, OnOk, IsTrue, codes};
ghost use Rattle.tg_text.specs.Spelling.{is_user_name, line_of, spell_hex};
ghost use Rattle.tg_outside.specs.Causes.{HasCauseOrMemory};
ghost use Rattle.lms_tree.specs.Signatures.{public_key};
ghost use Rattle.lms_keep.specs.KeyText.{AreKinds, IsKeyState, key_text, leaves};
ghost use Rattle.lms_keep.specs.Signing.{tree_key};
ghost use Rattle.lms_keep.specs.declared.key_state.KeyState.{KeyState};
ghost use Rattle.link_text.specs.LinkText.{sign_line};
ghost use Rattle.link_text.specs.Drafts.{draft_body};
ghost use Rattle.link_text.specs.TeamFile.{frame, header};
ghost use Rattle.outcomes.specs.Steps.{World, after, put, puts};
ghost use Rattle.outcomes.specs.Seeing.{AreKnown, Contents, Counts, IsCut, WithFilesAndDraws, contents_of, counts_of};
ghost use Rattle.outcomes.specs.Ending.{HasCauseOrStop, IsBodyOf, IsCaused, IsFaulted, Runs, answer_of};
ghost use Rattle.team_words.specs.Words.{IsMake};
ghost use Rattle.key_commands.specs.KnownKeys.{HoldsKey};
ghost use Rattle.key_commands.specs.Leaving.{LeavesTeam};
ghost use Rattle.key_commands.specs.Newkey.{drawn_key};
ghost use Rattle.key_commands.specs.Make.{does_make, file_of_one, founding, makes, root_puts, signed_body, signing_puts, team_told};

use crate::laws::{made_is_held, make_is_one};
use crate::newkey::draw_key;
use acts::{Act, Entry, device_of};
use link_text::{Draft, body_of, finish, name_of};
use lms_keep::{KeyState, sign_known};
use lockboxes::Sealer;
use outcomes::{Answer, DONE, FileWord, Stop, conclude, must_be_absent, refuse_file, replace_one};
use std::alloc::Global;
use team_files::{write_frame, write_header};
use team_words::Command;
use tg_outside::{Clock, Entropy, Fault, Files, Sink, Source, StepLedger, Steps};
use tg_text::{
    Bytes, Items, KeyLines, LinkName, Memory, PublicKey, Title, UserName, write_hex_line,
};

// Who founds a team, under which title, and when.
#[derive(Clone, Copy)]
struct Founder {
    user: UserName,
    title: Title,
    time: u64,
}

// The root of a team before it is signed, by a key with this public key.
fn founding<K: Sealer>(
    alloc: Global,
    sealer: &K,
    state: &KeyState,
    key: PublicKey,
    founder: Founder,
) -> Draft
    requires { key ≡ public_key (tree_key state.now) }
    ensures { result ≡ founding K.public state.now founder.title founder.time }
{
    Draft {
        team: None,
        prev: Items::new(alloc),
        key,
        entry: Entry {
            user: state.user,
            device: device_of(&key),
            time: founder.time,
            act: Act::Found {
                seal: sealer.public_of(&state.secret),
                title: founder.title,
            },
            lines: KeyLines {
                news: Items::new(alloc),
                boxes: Items::new(alloc),
            },
        },
    }
}

// The team file of a root alone, by its text.
fn first_file(alloc: Global, name: &LinkName, text: &[u8]) -> Result<Bytes, Memory>
    ensures { IfOk result (λ bytes. bytes ≡ header name.now ++ frame text.now) }
{
    let mut out = Bytes::new(alloc);
    write_header(&mut out, name)?;
    write_frame(&mut out, text)?;
    Ok(out)
}

// What is printed of a new team.
fn team_line(alloc: Global, name: &LinkName) -> Result<Bytes, Memory>
    ensures { IfOk result (λ text. text ≡ line_of (codes "team" ∷ spell_hex name.now ∷ [])) }
{
    let mut out = Bytes::new(alloc);
    write_hex_line(&mut out, b"team", name.as_slice())?;
    Ok(out)
}

// Writes the team file of a root with this body and this signature.
fn keep_team<F: Files>(
    alloc: Global,
    files: &mut F,
    file: &str,
    body: &[u8],
    signature: &[u8],
) -> Result<Answer, Fault>
    ensures said { IfOk result (λ answer. (answer.status ≡ 0) × (answer.text ≡ team_told (body.now ++ sign_line signature.now))) }
    ensures done { (seen : Contents) (w : World) → AreKnown (record seen { files = F.files files.old }) w
        → OnOk result (AreKnown (record seen { files = F.files files.new })
        (after (puts (put file.now (file_of_one (body.now ++ sign_line signature.now)) ∷ [])) w)) }
    ensures cut { (seen : Contents) (w : World) → AreKnown (record seen { files = F.files files.old }) w
        → IsCut (record seen { files = F.files files.new })
        (puts (put file.now (file_of_one (body.now ++ sign_line signature.now)) ∷ [])) w }
    ensures cause { HasCauseOrMemory (F.faults files.old) (F.faults files.new) result }
{
    let text = finish(alloc, body, signature)?;
    let name = name_of(text.as_slice());
    let bytes = first_file(alloc, &name, text.as_slice())?;
    let told = team_line(alloc, &name)?;
    replace_one(alloc, files, file, bytes.as_slice())?;
    Ok(Answer {
        status: DONE,
        text: told,
    })
}

// Signs the body of the root with the next leaf of the key, and writes the team file.
fn sign_team<F: Files>(
    alloc: Global,
    files: &mut F,
    file: &str,
    key_file: &str,
    key: &PublicKey,
    body: &[u8],
) -> Result<Answer, Stop>
    ensures done { (s : KeyState) (seen : Contents) (w : World) → HoldsKey w key_file.now key.now s → AreKnown (record seen { files = F.files files.old }) w
        → IfSome (answer_of result) (λ answer. (answer.status ≡ 0)
        × (answer.text ≡ team_told (signed_body s body.now))
        × AreKnown (record seen { files = F.files files.new }) (after (puts (signing_puts file.now key_file.now s (signed_body s body.now))) w)) }
    ensures cut { (s : KeyState) (seen : Contents) (w : World) → HoldsKey w key_file.now key.now s → AreKnown (record seen { files = F.files files.old }) w
        → IsCut (record seen { files = F.files files.new }) (puts (signing_puts file.now key_file.now s (signed_body s body.now))) w }
    ensures status { IfSome (answer_of result) (λ a. Contains (0 ∷ 3 ∷ []) a.status) }
    ensures cause { HasCauseOrStop (F.faults files.old) (F.faults files.new) result }
{
    let Some(signature) = sign_known(alloc, files, key_file, key, body)? else {
        return Err(refuse_file(alloc, key_file, FileWord::BadKeyFile));
    };
    let answer = keep_team(alloc, files, file, body, signature.as_slice())?;
    Ok(answer)
}

// The key's public key, the body of the root, and the text of the key file.
#[derive(Drop)]
struct Prepared {
    key: PublicKey,
    body: Bytes,
    text: Bytes,
}

// Takes the memory for all that comes before the root is signed.
fn prepare<K: Sealer>(
    alloc: Global,
    sealer: &K,
    state: &KeyState,
    founder: Founder,
) -> Result<Prepared, Memory>
    requires { AreKinds state.now.lms state.now.ots }
    ensures key { IfOk result (λ it. it.key ≡ public_key (tree_key state.now)) }
    ensures body { IfOk result (λ it. it.body ≡ draft_body (founding K.public state.now founder.title founder.time)) }
    ensures text { IfOk result (λ it. it.text ≡ key_text state.now) }
{
    let key = state.public(alloc)?;
    let draft = founding(alloc, sealer, state, key, founder);
    let body = body_of(alloc, &draft)?;
    let text = state.write(alloc)?;
    Ok(Prepared { key, body, text })
}

// Writes the key file, signs the root and writes the team file.
fn found_team<F: Files>(
    alloc: Global,
    files: &mut F,
    file: &str,
    key_file: &str,
    prepared: &Prepared,
) -> Result<Answer, Stop>
    ensures done { (s : KeyState) (seen : Contents) (w : World) → IsKeyState s → s.next < leaves s.lms → public_key (tree_key s) ≡ prepared.now.key → prepared.now.text ≡ key_text s
        → AreKnown (record seen { files = F.files files.old }) w
        → IfSome (answer_of result) (λ answer. (answer.status ≡ 0)
        × (answer.text ≡ team_told (signed_body s prepared.now.body))
        × AreKnown (record seen { files = F.files files.new }) (after (puts (root_puts file.now key_file.now s prepared.now.body)) w)) }
    ensures cut { (s : KeyState) (seen : Contents) (w : World) → IsKeyState s → s.next < leaves s.lms → public_key (tree_key s) ≡ prepared.now.key → prepared.now.text ≡ key_text s
        → AreKnown (record seen { files = F.files files.old }) w
        → IsCut (record seen { files = F.files files.new }) (puts (root_puts file.now key_file.now s prepared.now.body)) w }
    ensures status { IfSome (answer_of result) (λ a. Contains (0 ∷ 3 ∷ []) a.status) }
    ensures cause { HasCauseOrStop (F.faults files.old) (F.faults files.new) result }
{
    replace_one(alloc, files, key_file, prepared.text.as_slice())?;
    sign_team(
        alloc,
        files,
        file,
        key_file,
        &prepared.key,
        prepared.body.as_slice(),
    )
}

// All of `make` but the printing. The team file is asked before the key file.
fn answer_make<F: Files, E: Entropy, K: Sealer>(
    alloc: Global,
    files: &mut F,
    entropy: &mut E,
    sealer: &K,
    file: &str,
    key_file: &str,
    founder: Founder,
) -> Result<Answer, Stop>
    requires { IsTrue (is_user_name founder.user) }
    ensures body { WithFilesAndDraws (F.files files.old) (F.files files.new) (E.left entropy.old) (E.left entropy.new)
        (λ old new. IfSome old.moment (λ moment. founder.time ≡ moment)
        → IsBodyOf (makes K.public file.now key_file.now founder.user founder.title) old new result) }
    ensures cause { (counts : Counts) → IsFaulted (record counts { files = F.faults files.old; draws = E.faults entropy.old })
        (record counts { files = F.faults files.new; draws = E.faults entropy.new }) result }
    ensures range { (seen : Contents) (w : World) → AreKnown (record seen { draws = E.left entropy.old }) w
        → IfSome (answer_of result) (λ a. a.status ≡ 0 → IsKeyState (drawn_key founder.user w)) }
    ensures status { IfSome (answer_of result) (λ a. Contains (0 ∷ 3 ∷ []) a.status) }
{
    must_be_absent(alloc, files, file)?;
    must_be_absent(alloc, files, key_file)?;
    let state = draw_key(entropy, founder.user)?;
    let prepared = prepare(alloc, sealer, &state, founder)?;
    found_team(alloc, files, file, key_file, &prepared)
}

/// Makes a key and a team that its owner founds, and prints the team's name. Both files must be absent.
///
/// The key file is written with no leaf used, and again with the first leaf used, before that leaf signs the root.
pub fn run_make<F: Files, E: Entropy, C: Clock, I: Source, O: Sink, K: Sealer, L: StepLedger>(
    alloc: Global,
    command: &Command,
    files: &mut F,
    entropy: &mut E,
    clock: &mut C,
    input: &mut I,
    out: &mut O,
    sealer: &K,
    steps: &mut Steps<L>,
) -> u8
    requires { IsMake command.now }
    ensures runs { Runs (does_make K.public command.now)
        (contents_of F.files E.left C.moment I.left O.taken files.old entropy.old clock.old input.old out.old)
        (contents_of F.files E.left C.moment I.left O.taken files.new entropy.new clock.new input.new out.new) result }
    ensures made { result ≡ 0 → (w : World) → AreKnown (contents_of F.files E.left C.moment I.left O.taken files.old entropy.old clock.old input.old out.old) w
        → LeavesTeam command.now (contents_of F.files E.left C.moment I.left O.taken files.new entropy.new clock.new input.new out.new) }
    ensures cause { IsCaused (counts_of F.faults E.faults I.faults O.faults files.old entropy.old input.old out.old)
        (counts_of F.faults E.faults I.faults O.faults files.new entropy.new input.new out.new) result }
    ensures status { result < 5 → Contains (0 ∷ 3 ∷ []) result }
{
    // Laws: they do nothing at run time.
    made_is_held();
    make_is_one();
    match command {
        Command::Make {
            file,
            key_file,
            user,
            title,
        } => {
            // Their clauses say that the name and the title are such.
            let _name = user.as_slice();
            let _title = title.as_slice();
            let founder = Founder {
                user: *user,
                title: *title,
                time: clock.now(),
            };
            conclude(
                out,
                answer_make(
                    alloc,
                    files,
                    entropy,
                    sealer,
                    file.as_str(),
                    key_file.as_str(),
                    founder,
                ),
            )
        }
        _ => unreachable!(),
    }
}
