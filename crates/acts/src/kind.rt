ghost use Rattle.std.specs.Prelude.{◌≡◌};
ghost use Rattle.acts.specs.ActText.{spell_kind};

use crate::entry::InviteKind;

impl InviteKind {
    // The word of a kind.
    pub(crate) fn as_slice(&self) -> &[u8]
        ensures { result.now ≡ spell_kind self.now }
    {
        match self {
            InviteKind::Member => b"member",
            InviteKind::Device => b"device",
        }
    }
}
