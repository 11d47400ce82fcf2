ghost use Rattle.std.specs.Prelude.{◌≡◌};
ghost use Rattle.team_files.specs.declared.fault.FileFault.TheVariants as fault;

use tg_text::Memory;
use thiserror::Error;

/// Why a team file isn't read.
#[derive(Clone, Copy, Debug, PartialEq, Eq, Error)]
pub enum FileFault {
    #[error("not a team file")]
    BadFile,
    #[error("out of memory")]
    Memory,
}

impl From<Memory> for FileFault {
    ghost from_gives = { λ _ e. e ≡ fault.Memory };

    fn from(_: Memory) -> Self {
        FileFault::Memory
    }
}
