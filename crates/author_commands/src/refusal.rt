ghost use Rattle.std.specs.Prelude.{◌≡◌, ◌∷◌, [], IfOk, codes};
ghost use Rattle.tg_text.specs.Spelling.{line_of, spell_hex};
ghost use Rattle.author_commands.specs.Refusals.{IsRefusalBy, reason_word, refusal_line};

use outcomes::{Answer, REFUSED, Stop};
use std::alloc::Global;
use team_model::Reason;
use tg_text::{Bytes, LinkName, Memory, write_hex, write_text_line};

/// Why the rules refuse a command that signs.
#[derive(Clone, Copy, Debug, PartialEq, Eq)]
pub enum Refusal {
    /// The act is refused in the team of its parents.
    NotPermitted(Reason),
    /// Each leaf of the key has signed.
    Spent,
    /// The team has no room.
    Full,
    /// Another text is held under the link's name.
    NameClash(LinkName),
}

// The word of a reason.
fn reason_word(reason: Reason) -> &'static str
    ensures { result.now ≡ reason_word reason }
{
    match reason {
        Reason::NotListed => "NotListed",
        Reason::NotAdmin => "NotAdmin",
        Reason::NotYours => "NotYours",
        Reason::Present => "Present",
        Reason::Absent => "Absent",
        Reason::LastAdmin => "LastAdmin",
        Reason::LastDevice => "LastDevice",
        Reason::WasRemoved => "WasRemoved",
        Reason::NoInvite => "NoInvite",
        Reason::Spent => "Spent",
        Reason::Expired => "Expired",
        Reason::TooMany => "TooMany",
        Reason::Reserved => "Reserved",
        Reason::NotEmpty => "NotEmpty",
    }
}

// The line of a fault.
fn fault_line(alloc: Global, word: &[u8]) -> Result<Bytes, Memory>
    ensures { IfOk result (λ line. line ≡ line_of (codes "fault" ∷ word.now ∷ [])) }
{
    let mut line = Bytes::new(alloc);
    write_text_line(&mut line, b"fault", word)?;
    Ok(line)
}

// The line of a link whose name another text has.
fn clash_line(alloc: Global, name: &LinkName) -> Result<Bytes, Memory>
    ensures { IfOk result (λ line. line ≡ line_of (codes "fault" ∷ codes "NameClash" ∷ spell_hex name.now ∷ [])) }
{
    let mut word = Bytes::from_slice(alloc, b"NameClash ")?;
    write_hex(&mut word, name.as_slice())?;
    fault_line(alloc, word.as_slice())
}

// What is printed of a refusal.
fn refusal_line(alloc: Global, refusal: Refusal) -> Result<Bytes, Memory>
    ensures { IfOk result (λ line. line ≡ refusal_line refusal) }
{
    match refusal {
        Refusal::NotPermitted(reason) => fault_line(alloc, reason_word(reason).as_bytes()),
        Refusal::Spent => fault_line(alloc, b"Spent"),
        Refusal::Full => fault_line(alloc, b"Full"),
        Refusal::NameClash(name) => clash_line(alloc, &name),
    }
}

/// Refuses a command.
pub fn refuse(alloc: Global, refusal: Refusal) -> Stop
    ensures { IsRefusalBy refusal result }
{
    match refusal_line(alloc, refusal) {
        Ok(text) => Stop::Refused(Answer {
            status: REFUSED,
            text,
        }),
        Err(Memory) => Stop::Memory,
    }
}
