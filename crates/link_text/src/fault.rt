ghost use Rattle.std.specs.Prelude.{◌≡◌};
ghost use Rattle.link_text.specs.Faults.{as_link_fault, as_team_fault, as_text_fault};
ghost use Rattle.link_text.specs.declared.fault.LineFault.TheVariants.{Memory as no_memory};
ghost use Rattle.link_text.specs.declared.fault.LinkFault.TheVariants as of_link;
ghost use Rattle.link_text.specs.declared.fault.TeamLinkFault.TheVariants as of_team;

use tg_text::Memory;
use thiserror::Error;

/// Why a text isn't read as a link.
#[derive(Clone, Copy, Debug, PartialEq, Eq, Error)]
pub enum TextFault {
    /// More than `MOST_LINK_BYTES` bytes.
    #[error("the text is too long")]
    TooLong,
    /// No link has this text.
    #[error("the text is no link's")]
    BadText,
    #[error("out of memory")]
    Memory,
}

/// Why a text isn't a link.
#[derive(Clone, Copy, Debug, PartialEq, Eq, Error)]
pub enum LinkFault {
    /// More than `MOST_LINK_BYTES` bytes.
    #[error("the text is too long")]
    TooLong,
    /// No link has this text.
    #[error("the text is no link's")]
    BadText,
    /// The text is a link's, and its signature doesn't verify under its key.
    #[error("the signature doesn't verify")]
    BadSignature,
    #[error("out of memory")]
    Memory,
}

/// Why a text isn't a link of a team.
#[derive(Clone, Copy, Debug, PartialEq, Eq, Error)]
pub enum TeamLinkFault {
    /// More than `MOST_LINK_BYTES` bytes.
    #[error("the text is too long")]
    TooLong,
    /// No link has this text.
    #[error("the text is no link's")]
    BadText,
    /// The text is that of a link of another team. Its signature isn't verified.
    #[error("the link is of another team")]
    OtherTeam,
    /// The text is that of a link of the team, and its signature doesn't verify under its key.
    #[error("the signature doesn't verify")]
    BadSignature,
    #[error("out of memory")]
    Memory,
}

// Why the lines of a text that isn't too long aren't read.
#[derive(Clone, Copy, Debug, PartialEq, Eq)]
pub(crate) enum LineFault {
    BadText,
    Memory,
}

impl From<Memory> for LineFault {
    ghost from_gives = { λ _ e. e ≡ no_memory };

    fn from(_: Memory) -> Self {
        LineFault::Memory
    }
}

impl From<LineFault> for TextFault {
    ghost from_gives = { λ fault e. e ≡ as_text_fault fault };

    fn from(fault: LineFault) -> Self {
        match fault {
            LineFault::BadText => TextFault::BadText,
            LineFault::Memory => TextFault::Memory,
        }
    }
}

impl From<TextFault> for LinkFault {
    ghost from_gives = { λ fault e. e ≡ as_link_fault fault };

    fn from(fault: TextFault) -> Self {
        match fault {
            TextFault::TooLong => LinkFault::TooLong,
            TextFault::BadText => LinkFault::BadText,
            TextFault::Memory => LinkFault::Memory,
        }
    }
}

impl From<Memory> for LinkFault {
    ghost from_gives = { λ _ e. e ≡ of_link.Memory };

    fn from(_: Memory) -> Self {
        LinkFault::Memory
    }
}

impl From<LineFault> for TeamLinkFault {
    ghost from_gives = { λ fault e. e ≡ as_team_fault fault };

    fn from(fault: LineFault) -> Self {
        match fault {
            LineFault::BadText => TeamLinkFault::BadText,
            LineFault::Memory => TeamLinkFault::Memory,
        }
    }
}

impl From<Memory> for TeamLinkFault {
    ghost from_gives = { λ _ e. e ≡ of_team.Memory };

    fn from(_: Memory) -> Self {
        TeamLinkFault::Memory
    }
}
