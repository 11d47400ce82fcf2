use link_text::TeamLinkFault;
use tg_text::{LinkName, Memory};
use thiserror::Error;

/// Why a text isn't taken.
#[derive(Clone, Copy, Debug, PartialEq, Eq, Error)]
pub enum TakeFault {
    #[error("the text has more than 1,048,576 bytes")]
    TooLong,
    #[error("the text is no link's")]
    BadText,
    #[error("the link is of another team")]
    OtherTeam,
    #[error("the signature doesn't verify")]
    BadSignature,
    #[error("another text is held under this name")]
    NameClash { name: LinkName },
    /// How many links are held, and how many bytes their file text has.
    #[error("the team has no room for the link")]
    Full { links: u32, bytes: u64 },
    #[error("out of memory")]
    Memory,
}

impl From<TeamLinkFault> for TakeFault {
    ghost use Rattle.std.specs.Prelude.{◌≡◌};
    ghost use Rattle.link_graph.specs.Faults.{fault_of};

    ghost from_gives = { λ fault e. e ≡ fault_of fault };

    fn from(fault: TeamLinkFault) -> Self {
        match fault {
            TeamLinkFault::TooLong => TakeFault::TooLong,
            TeamLinkFault::BadText => TakeFault::BadText,
            TeamLinkFault::OtherTeam => TakeFault::OtherTeam,
            TeamLinkFault::BadSignature => TakeFault::BadSignature,
            TeamLinkFault::Memory => TakeFault::Memory,
        }
    }
}

impl From<Memory> for TakeFault {
    ghost use Rattle.std.specs.Prelude.{◌≡◌};
    ghost use Rattle.link_graph.specs.declared.take_fault.TakeFault.{TakeFault};

    ghost from_gives = { λ _ e. e ≡ TakeFault.Memory };

    fn from(_: Memory) -> Self {
        TakeFault::Memory
    }
}
