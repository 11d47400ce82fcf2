use lms_tree::TreeFault;
use std::alloc::{AllocError, AllocFailed};
use tg_outside::Fault;
use tg_text::Memory;
use thiserror::Error;

/// Why a sample isn't made.
#[derive(Clone, Copy, Debug, PartialEq, Eq, Error)]
pub enum SampleFault {
    /// A word or a piece has no known form.
    #[error("a word of no known form")]
    BadWord,
    /// A file of the data is absent.
    #[error("no such file")]
    NoFile,
    /// A file of the data couldn't be read.
    #[error("a file that can't be read")]
    Failed,
    /// There is no such key, leaf or link.
    #[error("no such key, leaf or link")]
    NoKey,
    #[error("out of memory")]
    Memory,
}

impl From<Memory> for SampleFault {
    fn from(_: Memory) -> Self {
        SampleFault::Memory
    }
}

impl From<AllocError> for SampleFault {
    fn from(_: AllocError) -> Self {
        SampleFault::Memory
    }
}

impl<T: Drop> From<AllocFailed<T>> for SampleFault {
    fn from(_: AllocFailed<T>) -> Self {
        SampleFault::Memory
    }
}

impl From<Fault> for SampleFault {
    fn from(fault: Fault) -> Self {
        match fault {
            Fault::Failed => SampleFault::Failed,
            Fault::Memory => SampleFault::Memory,
        }
    }
}

impl From<TreeFault> for SampleFault {
    fn from(_: TreeFault) -> Self {
        SampleFault::NoKey
    }
}
