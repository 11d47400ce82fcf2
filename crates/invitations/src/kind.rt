//! The word of an invitation's kind.
ghost use Rattle.std.specs.Prelude.{◌≡◌};
ghost use Rattle.tg_text.specs.Reading.{Reads};
ghost use Rattle.acts.specs.ActText.{spell_kind};
ghost use Rattle.invitations.specs.Parts.{IsKind};

use acts::InviteKind;

pub(crate) fn word_of(kind: InviteKind) -> &'static [u8]
    ensures { result.now ≡ spell_kind kind }
{
    match kind {
        InviteKind::Member => b"member",
        InviteKind::Device => b"device",
    }
}

pub(crate) fn read_kind(text: &[u8]) -> Option<InviteKind>
    ensures { Reads IsKind spell_kind text.now result }
{
    if text == b"member".as_slice() {
        Some(InviteKind::Member)
    } else if text == b"device".as_slice() {
        Some(InviteKind::Device)
    } else {
        None
    }
}
