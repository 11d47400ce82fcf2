ghost use Rattle.std.specs.Prelude.{◌≡◌};
ghost use Rattle.handshake.specs.Messages.{kind_word};

use crate::fault::GreetFault;
use tg_text::{Bytes, LinkName, PublicKey, UserName};

/// Who an end claims to be, and the nonce that the other end is to sign.
#[derive(Clone, Copy, Debug)]
pub struct Claim {
    pub user: UserName,
    /// The key of the device. Its SHA-256 is the device's id.
    pub key: PublicKey,
    pub nonce: [u8; 32],
}

/// What a message says.
#[derive(Debug, Drop)]
pub(crate) enum Content {
    /// Who the end is.
    Claims(Claim),
    /// A signature over the nonce of the end that takes it.
    Proves(Bytes),
    /// The proof is accepted.
    Welcomes,
    /// A message was refused.
    Refuses(GreetFault),
}

/// The kind of a message, which its first line names.
#[derive(Clone, Copy, Debug, PartialEq, Eq)]
pub(crate) enum Kind {
    Claim,
    Proof,
    Welcome,
    Refuse,
}

impl Kind {
    // The word of a kind.
    pub(crate) fn as_slice(self) -> &'static [u8]
        ensures { result.now ≡ kind_word self }
    {
        match self {
            Kind::Claim => b"claim",
            Kind::Proof => b"proof",
            Kind::Welcome => b"welcome",
            Kind::Refuse => b"refuse",
        }
    }
}

/// The kind of a message, and the team that it names.
#[derive(Clone, Copy, Debug)]
pub(crate) struct Head {
    pub(crate) kind: Kind,
    pub(crate) team: LinkName,
}

/// A message of a greeting, and the team that it names.
#[derive(Debug, Drop)]
pub(crate) struct Message {
    pub(crate) team: LinkName,
    pub(crate) content: Content,
}
