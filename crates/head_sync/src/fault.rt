use tg_text::Memory;
use thiserror::Error;

/// Why a message isn't taken.
#[derive(Clone, Copy, Debug, PartialEq, Eq, Error)]
pub enum SyncFault {
    #[error("the bytes are no message")]
    BadMessage,
    #[error("the message is to another team")]
    OtherTeam,
    #[error("no message of this kind is awaited")]
    OutOfTurn,
    #[error("out of memory")]
    Memory,
}

impl From<Memory> for SyncFault {
    ghost use Rattle.std.specs.Prelude.{◌≡◌};
    ghost use Rattle.head_sync.specs.declared.fault.SyncFault.{SyncFault};

    ghost from_gives = { λ _ e. e ≡ SyncFault.Memory };

    fn from(_: Memory) -> Self {
        SyncFault::Memory
    }
}

/// Why bytes aren't read as a message.
#[derive(Clone, Copy, Debug, PartialEq, Eq)]
pub(crate) enum ReadFault {
    BadMessage,
    Memory,
}

impl From<Memory> for ReadFault {
    ghost use Rattle.std.specs.Prelude.{◌≡◌};
    ghost use Rattle.head_sync.specs.declared.fault.ReadFault.{ReadFault};

    ghost from_gives = { λ _ e. e ≡ ReadFault.Memory };

    fn from(_: Memory) -> Self {
        ReadFault::Memory
    }
}

impl From<ReadFault> for SyncFault {
    ghost use Rattle.std.specs.Prelude.{◌≡◌};
    ghost use Rattle.head_sync.specs.Bodies.{fault_of};

    ghost from_gives = { λ fault e. e ≡ fault_of fault };

    fn from(fault: ReadFault) -> Self {
        match fault {
            ReadFault::BadMessage => SyncFault::BadMessage,
            ReadFault::Memory => SyncFault::Memory,
        }
    }
}
