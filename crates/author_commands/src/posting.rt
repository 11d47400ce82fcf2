//! A signed link is held, and the team file replaced.
ghost use Rattle.std.specs.Prelude.{◌≡◌, ◌∷◌, [], Contains, None, IfOk, IfSome, OnOk, nat_eq, option_map};
ghost use Rattle.std.specs.Cmp.Lexicographic.{pointwise};
ghost use Rattle.sha2.specs.Sha256.{sha256};
ghost use Rattle.team_model.specs.declared.terms.Link.{Link};
ghost use Rattle.link_text.specs.LinkText.{IsValid};
ghost use Rattle.link_graph.specs.Holds.{text_named};
ghost use Rattle.outcomes.specs.Seeing.{WithFiles};
ghost use Rattle.outcomes.specs.Ending.{HasCauseOrStop, IsBodyOf, answer_of};
ghost use Rattle.author_commands.specs.Authoring.{link_line, posted, posting};
ghost use Rattle.author_commands.specs.Taken.{HoldsWith, MayTake};

use crate::refusal::{Refusal, refuse};
use link_graph::{Graph, TakeFault};
use link_text::{link_is_spelled_once, name_of};
use outcomes::{Answer, DONE, Stop, replace_one};
use replica::Replica;
use std::alloc::Global;
use team_files::file_text;
use tg_outside::{Files, StepLedger, Steps};
use tg_text::{Bytes, LinkName, Memory, write_hex_line};

// What is printed of a link.
fn link_line(alloc: Global, name: &LinkName) -> Result<Bytes, Memory>
    ensures { IfOk result (λ line. line ≡ link_line name.now) }
{
    let mut line = Bytes::new(alloc);
    write_hex_line(&mut line, b"link", name.as_slice())?;
    Ok(line)
}

// Replaces the team file by that of the held links.
fn post<F: Files>(
    alloc: Global,
    files: &mut F,
    file: &str,
    graph: &Graph,
    name: &LinkName,
) -> Result<Answer, Stop>
    ensures body { WithFiles (F.files files.old) (F.files files.new) (λ old new. IsBodyOf (λ w o. o ≡ posted file.now graph.now name.now) old new result) }
    ensures cause { HasCauseOrStop (F.faults files.old) (F.faults files.new) result }
    ensures status { IfSome (answer_of result) (λ a. Contains (0 ∷ 3 ∷ 4 ∷ []) a.status) }
{
    let bytes = file_text(alloc, graph)?;
    let text = link_line(alloc, name)?;
    replace_one(alloc, files, file, bytes.as_slice())?;
    Ok(Answer { status: DONE, text })
}

// Whether a text is held under this name, and whether it is this one.
fn find_text(graph: &Graph, name: &LinkName, text: &[u8]) -> Option<bool>
    ensures { result ≡ option_map (λ t. pointwise nat_eq t text.now) (text_named graph.now.links name.now) }
{
    match graph.text_of(name) {
        Some(held) => Some(held == text),
        None => None,
    }
}

// The want of memory that a fault is.
fn want_of_memory(fault: TakeFault) -> Memory
    requires { fault ≡ TakeFault.Memory }
{
    let _ = fault;
    Memory
}

// Holds the link of a text whose name no held link bears.
fn insert_new<L: StepLedger>(
    alloc: Global,
    replica: &mut Replica,
    text: &[u8],
    steps: &mut Steps<L>,
) -> Result<(), Memory>
    requires may { MayTake replica.old text.now }
    requires fresh { text_named replica.old.links (sha256 text.now) ≡ None }
    ensures ok { OnOk result (HoldsWith replica.old replica.new text.now) }
{
    // Laws: they do nothing at run time.
    link_is_spelled_once();
    replica.graph().is_held();
    match replica.insert(alloc, text, steps) {
        Ok(_took) => Ok(()),
        Err(fault) => Err(want_of_memory(fault)),
    }
}

/// Holds the link of a text, for which there is room, and replaces the team file.
pub(crate) fn post_link<F: Files, L: StepLedger>(
    alloc: Global,
    files: &mut F,
    file: &str,
    replica: &mut Replica,
    text: &[u8],
    steps: &mut Steps<L>,
) -> Result<Answer, Stop>
    requires may { MayTake replica.old text.now }
    ensures body { (link : Link) → IsValid replica.old.team text.now link
        → WithFiles (F.files files.old) (F.files files.new) (λ old new. IsBodyOf (posting file.now replica.old link) old new result) }
    ensures cause { HasCauseOrStop (F.faults files.old) (F.faults files.new) result }
    ensures status { IfSome (answer_of result) (λ a. Contains (0 ∷ 3 ∷ 4 ∷ []) a.status) }
{
    let name = name_of(text);
    match find_text(replica.graph(), &name, text) {
        None => {
            insert_new(alloc, replica, text, steps)?;
            post(alloc, files, file, replica.graph(), &name)
        }
        Some(true) => post(alloc, files, file, replica.graph(), &name),
        Some(false) => Err(refuse(alloc, Refusal::NameClash(name))),
    }
}
