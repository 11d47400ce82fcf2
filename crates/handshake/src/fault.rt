ghost use Rattle.std.specs.Prelude.{◌≡◌};
ghost use Rattle.handshake.specs.Messages.{spell_fault};
ghost use Rattle.handshake.specs.declared.fault.GreetFault.TheVariants.{Memory as no_memory};

use tg_text::Memory;
use thiserror::Error;

/// Why a message isn't taken. All but want of memory end a greeting.
#[derive(Clone, Copy, Debug, PartialEq, Eq, Error)]
pub enum GreetFault {
    /// The bytes are no message of a greeting.
    #[error("the bytes are no message")]
    BadMessage,
    /// The message names another team.
    #[error("the message is of another team")]
    OtherTeam,
    /// No message of its kind is awaited.
    #[error("no such message is awaited")]
    OutOfTurn,
    /// The device that claims to be a user's isn't listed for that user.
    #[error("the device isn't listed for the user")]
    UnknownDevice,
    /// The signature doesn't verify under the claimed key over the text that was to be signed.
    #[error("the signature doesn't verify")]
    BadProof,
    #[error("out of memory")]
    Memory,
}

impl GreetFault {
    // The word of a fault.
    pub(crate) fn as_slice(self) -> &'static [u8]
        ensures { result.now ≡ spell_fault self }
    {
        match self {
            GreetFault::BadMessage => b"BadMessage",
            GreetFault::OtherTeam => b"OtherTeam",
            GreetFault::OutOfTurn => b"OutOfTurn",
            GreetFault::UnknownDevice => b"UnknownDevice",
            GreetFault::BadProof => b"BadProof",
            GreetFault::Memory => b"Memory",
        }
    }
}

impl From<Memory> for GreetFault {
    ghost from_gives = { λ _ e. e ≡ no_memory };

    fn from(_: Memory) -> Self {
        GreetFault::Memory
    }
}
