//! The acts that words give.
ghost use Rattle.std.specs.Prelude.{◌≡◌, length, flat_map, map, IfOk, string_bytes};
ghost use Rattle.std.specs.List.{list_all};
ghost use Rattle.tg_text.specs.Spelling.{has_space, spaced};
ghost use Rattle.acts.specs.ActText.{act_words};
ghost use Rattle.team_words.specs.Acts.{IsActOf, MayGive, are_whole, fits, is_given, lacks_space, word_after};

use acts::Act;
use std::alloc::Global;
use std::marker::Model;
use tg_text::{Bytes, Memory, strip_front};

/// An act that words may give, with fields in their ranges. Contracts see the act.
#[derive(Debug, Drop)]
pub struct GivenAct {
    act: Act,
}

impl Model for GivenAct {
    ghost use Rattle.acts.specs.declared.entry.Act.{Act};
    ghost use Rattle.team_words.specs.Acts.{MayGive};

    ghost Value = { Act };

    ghost view = { λ it. it.act };

    ghost invariant = { λ it. MayGive it.act };
}

impl GivenAct {
    /// The act that the words are, `None` where they are none.
    pub fn read(alloc: Global, words: &[String]) -> Result<Option<GivenAct>, Memory>
        ensures { IfOk result (λ found. IsActOf (map string_bytes words.now) found) }
    {
        let text = join(alloc, words)?;
        match strip_front(text.as_slice(), b" ") {
            Some(text) => read_spaced(alloc, words, text),
            None => Ok(None),
        }
    }

    /// The act.
    pub fn as_act(&self) -> &Act
        ensures act { result.now ≡ self.now }
        ensures may { MayGive self.now }
    {
        &self.act
    }
}

// The act that the words are, which have this text with one space between them.
fn read_spaced(alloc: Global, words: &[String], text: &[u8]) -> Result<Option<GivenAct>, Memory>
    requires { text.now ≡ spaced (map string_bytes words.now) }
    ensures { IfOk result (λ found. IsActOf (map string_bytes words.now) found) }
{
    match Act::read(alloc, text)? {
        Some(act) => {
            if fits(&act, words) {
                Ok(Some(GivenAct { act }))
            } else {
                Ok(None)
            }
        }
        None => Ok(None),
    }
}

// The words with a space before each.
fn join(alloc: Global, words: &[String]) -> Result<Bytes, Memory>
    ensures { IfOk result (λ text. text ≡ flat_map word_after (map string_bytes words.now)) }
{
    let mut text = Bytes::new(alloc);
    for word in words {
        text.append(b" ")?;
        text.append(word.as_bytes())?;
    }
    Ok(text)
}

// What is asked of an act whose text the words spell.
fn fits(act: &Act, words: &[String]) -> bool
    ensures { result ≡ fits act.now (map string_bytes words.now) }
{
    is_given(act) && words.len() == word_count(act) && are_whole(words)
}

// Whether no space stands in a word but the last.
fn are_whole(words: &[String]) -> bool
    ensures { result ≡ are_whole (map string_bytes words.now) }
{
    if words.is_empty() {
        return true;
    }
    lack_spaces(words.split_at(words.len() - 1).0)
}

fn lack_spaces(words: &[String]) -> bool
    ensures { result ≡ list_all lacks_space (map string_bytes words.now) }
{
    for word in words {
        if has_space(word.as_str()) {
            return false;
        }
    }
    true
}

fn has_space(word: &str) -> bool
    ensures { result ≡ has_space word.now }
{
    word.as_bytes().iter().any(|byte| *byte == b' ')
}

fn is_given(act: &Act) -> bool
    ensures { result ≡ is_given act.now }
{
    matches!(
        act,
        Act::AddMember { .. }
            | Act::RemoveMember { .. }
            | Act::AddRole { .. }
            | Act::RemoveRole { .. }
            | Act::GiveRole { .. }
            | Act::TakeRole { .. }
            | Act::AddDevice { .. }
            | Act::RemoveDevice { .. }
            | Act::Revoke { .. }
            | Act::Rotate { .. }
            | Act::Seal
            | Act::Title { .. }
            | Act::Join
    )
}

// How many words the text of an act has.
fn word_count(act: &Act) -> usize
    ensures { result ≡ length (act_words act.now) }
{
    match act {
        Act::Seal | Act::Join => 1,
        Act::RemoveMember { .. }
        | Act::AddRole { .. }
        | Act::RemoveRole { .. }
        | Act::Rotate { .. }
        | Act::Title { .. } => 2,
        Act::Found { .. }
        | Act::GiveRole { .. }
        | Act::TakeRole { .. }
        | Act::AddDevice { .. }
        | Act::RemoveDevice { .. }
        | Act::Revoke { .. } => 3,
        Act::AddMember { .. } | Act::InviteMember { .. } | Act::InviteDevice { .. } => 4,
        Act::AdmitDevice { .. } => 5,
        Act::AdmitMember { .. } => 6,
    }
}
