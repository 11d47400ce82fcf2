ghost use Rattle.std.specs.Prelude.{◌≡◌};

use tg_text::Memory;
use thiserror::Error;

/// Why no tree is made.
#[derive(Clone, Copy, Debug, PartialEq, Eq, Error)]
pub enum TreeFault {
    /// The LMS type isn't 5 to 9, or the LM-OTS type isn't 1 to 4.
    #[error("no such types of keys")]
    Kind,
    /// The LMS type is 8 or 9, of heights 20 and 25.
    #[error("a tree of this height is too large to make")]
    Height,
    #[error("out of memory")]
    Memory,
}

impl From<Memory> for TreeFault {
    ghost use Rattle.lms_tree.specs.declared.fault.TreeFault.{TreeFault};

    ghost from_gives = { λ _ e. e ≡ TreeFault.Memory };

    fn from(_: Memory) -> Self {
        TreeFault::Memory
    }
}
