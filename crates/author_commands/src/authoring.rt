//! What every command does that writes a link by a key.
ghost use Rattle.std.specs.Prelude.{◌≡◌, ◌<◌, ◌∷◌, [], Some, Contains, IfSome, IsTrue};
ghost use Rattle.std.specs.FinMap as fin;
ghost use Rattle.tg_text.specs.Spelling.{AreBytes};
ghost use Rattle.lms_tree.specs.Verifying.{verifies};
ghost use Rattle.lms_keep.specs.KeyText.{IsKeyState, key_text, leaves};
ghost use Rattle.link_text.specs.Drafts.{draft_body};
ghost use Rattle.outcomes.specs.Seeing.{WithFiles};
ghost use Rattle.outcomes.specs.Ending.{HasCauseOrStop, IsBodyOf, answer_of};
ghost use Rattle.author_commands.specs.Authoring.{authors, by_plan, keyed, planning, posting, signing};
ghost use Rattle.author_commands.specs.Signing.{IsSignable, authored};

use crate::planner::{Planned, Planner};
use crate::posting::post_link;
use crate::refusal::{Refusal, refuse};
use link_graph::Graph;
use link_text::{Draft, body_of, finish};
use lms_keep::{KeyState, sign_known};
use openers::{open_key, open_team};
use outcomes::{Answer, FileWord, Stop, refuse_file};
use replica::Replica;
use std::alloc::Global;
use tg_outside::{Files, StepLedger, Steps};

// The bytes as they are, with the fact that each is below 256.
fn in_range(bytes: &[u8]) -> &[u8]
    ensures bytes { result.now ≡ bytes.now }
    ensures range { AreBytes bytes.now }
{
    bytes
}

// Makes the text of a draft that was signed, holds its link and replaces the team file.
fn finish_link<F: Files, L: StepLedger>(
    alloc: Global,
    files: &mut F,
    file: &str,
    replica: &mut Replica,
    state: &KeyState,
    draft: &Draft,
    body: &[u8],
    signature: &[u8],
    steps: &mut Steps<L>,
) -> Result<Answer, Stop>
    requires signable { IsSignable replica.old state.now draft.now }
    requires body { body.now ≡ draft_body draft.now }
    requires signed { IsTrue (verifies draft.now.key body.now signature.now) }
    ensures body { WithFiles (F.files files.old) (F.files files.new)
        (λ old new. IsBodyOf (posting file.now replica.old (authored draft.now signature.now)) old new result) }
    ensures cause { HasCauseOrStop (F.faults files.old) (F.faults files.new) result }
    ensures status { IfSome (answer_of result) (λ a. Contains (0 ∷ 3 ∷ 4 ∷ []) a.status) }
{
    let text = finish(alloc, body, in_range(signature))?;
    post_link(alloc, files, file, replica, text.as_slice(), steps)
}

/// Signs a draft with the next leaf of a key file, holds the link and replaces the team file. The key file is replaced before the leaf
/// signs, and the team file after that.
pub fn sign_and_post<F: Files, L: StepLedger>(
    alloc: Global,
    files: &mut F,
    file: &str,
    key_file: &str,
    replica: &mut Replica,
    state: &KeyState,
    draft: &Draft,
    steps: &mut Steps<L>,
) -> Result<Answer, Stop>
    requires signable { IsSignable replica.old state.now draft.now }
    requires range { IsKeyState state.now }
    requires leaf { state.now.next < leaves state.now.lms }
    requires bears { IfSome (F.files files.old) (λ m. fin.get m key_file.now ≡ Some (key_text state.now)) }
    ensures body { WithFiles (F.files files.old) (F.files files.new)
        (λ old new. IsBodyOf (signing file.now key_file.now replica.old state.now draft.now) old new result) }
    ensures cause { HasCauseOrStop (F.faults files.old) (F.faults files.new) result }
    ensures status { IfSome (answer_of result) (λ a. Contains (0 ∷ 3 ∷ 4 ∷ []) a.status) }
{
    let body = body_of(alloc, draft)?;
    let Some(signature) = sign_known(alloc, files, key_file, &draft.key, body.as_slice())? else {
        return Err(refuse_file(alloc, key_file, FileWord::BadKeyFile));
    };
    finish_link(
        alloc,
        files,
        file,
        replica,
        state,
        draft,
        body.as_slice(),
        signature.as_slice(),
        steps,
    )
}

// What is done once both files are opened and a leaf is left.
fn author_opened<F: Files, P: Planner, L: StepLedger>(
    alloc: Global,
    files: &mut F,
    file: &str,
    key_file: &str,
    graph: Graph,
    state: &KeyState,
    planner: &P,
    steps: &mut Steps<L>,
) -> Result<Answer, Stop>
    requires range { IsKeyState state.now }
    requires leaf { state.now.next < leaves state.now.lms }
    requires bears { IfSome (F.files files.old) (λ m. fin.get m key_file.now ≡ Some (key_text state.now)) }
    ensures body { WithFiles (F.files files.old) (F.files files.new)
        (λ old new. IsBodyOf (planning (P.plans planner.now) file.now key_file.now graph state.now) old new result) }
    ensures cause { HasCauseOrStop (F.faults files.old) (F.faults files.new) result }
    ensures status { IfSome (answer_of result) (λ a. Contains (0 ∷ 3 ∷ 4 ∷ []) a.status) }
{
    let mut replica = Replica::with_graph(alloc, graph)?;
    let key = state.public(alloc)?;
    match planner.plan(alloc, &replica, state, &key)? {
        Planned::Refuses(refusal) => Err(refuse(alloc, refusal)),
        Planned::Writes(draft) => sign_and_post(
            alloc,
            files,
            file,
            key_file,
            &mut replica,
            state,
            &draft,
            steps,
        ),
    }
}

/// The body of a command that writes one link by a key, as planned.
pub fn author<F: Files, P: Planner, L: StepLedger>(
    alloc: Global,
    files: &mut F,
    file: &str,
    key_file: &str,
    planner: &P,
    steps: &mut Steps<L>,
) -> Result<Answer, Stop>
    ensures body { WithFiles (F.files files.old) (F.files files.new)
        (λ old new. IsBodyOf (authors (P.plans planner.now) file.now key_file.now) old new result) }
    ensures cause { HasCauseOrStop (F.faults files.old) (F.faults files.new) result }
    ensures status { IfSome (answer_of result) (λ a. Contains (0 ∷ 3 ∷ 4 ∷ []) a.status) }
{
    let graph = open_team(alloc, files, file)?;
    let state = open_key(alloc, files, key_file)?;
    if state.next < state.leaves() {
        author_opened(alloc, files, file, key_file, graph, &state, planner, steps)
    } else {
        Err(refuse(alloc, Refusal::Spent))
    }
}
