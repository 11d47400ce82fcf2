//! What became of a link, in words.
ghost use Rattle.std.specs.Prelude.{◌≡◌, ◌++◌, ◌∷◌, [], OnOk};
ghost use Rattle.tg_text.specs.Spelling.{spaced, spell_hex};
ghost use Rattle.team_report.specs.VerdictWords.{reason_word, spell_verdict};

use replica::{Reason, Verdict};
use tg_text::{Bytes, LinkName, Memory, write_hex};

/// The word of a reason.
pub fn reason_word(reason: Reason) -> &'static str
    ensures { result.now ≡ reason_word reason }
{
    match reason {
        Reason::NotListed => "NotListed",
        Reason::NotAdmin => "NotAdmin",
        Reason::NotYours => "NotYours",
        Reason::Present => "Present",
        Reason::Absent => "Absent",
        Reason::LastAdmin => "LastAdmin",
        Reason::LastDevice => "LastDevice",
        Reason::WasRemoved => "WasRemoved",
        Reason::NoInvite => "NoInvite",
        Reason::Spent => "Spent",
        Reason::Expired => "Expired",
        Reason::TooMany => "TooMany",
        Reason::Reserved => "Reserved",
        Reason::NotEmpty => "NotEmpty",
    }
}

/// Appends the words of a verdict.
pub(crate) fn write_verdict(out: &mut Bytes, verdict: &Verdict) -> Result<(), Memory>
    ensures { OnOk result (out.new ≡ out.old ++ spell_verdict verdict.now) }
{
    match verdict {
        Verdict::Counts => out.append(b"counts"),
        Verdict::Unlawful(reason) => write_reason(out, b"unlawful", *reason),
        Verdict::Struck(name) => write_name(out, b"struck", name),
        Verdict::Outranked(name) => write_name(out, b"outranked", name),
        Verdict::Refused(reason) => write_reason(out, b"refused", *reason),
        Verdict::Waiting => out.append(b"waiting"),
    }
}

fn write_reason(out: &mut Bytes, word: &[u8], reason: Reason) -> Result<(), Memory>
    ensures { OnOk result (out.new ≡ out.old ++ spaced (word.now ∷ reason_word reason ∷ [])) }
{
    out.append(word)?;
    out.append(b" ")?;
    out.append(reason_word(reason).as_bytes())
}

fn write_name(out: &mut Bytes, word: &[u8], name: &LinkName) -> Result<(), Memory>
    ensures { OnOk result (out.new ≡ out.old ++ spaced (word.now ∷ spell_hex name.now ∷ [])) }
{
    out.append(word)?;
    out.append(b" ")?;
    write_hex(out, name.as_slice())
}
