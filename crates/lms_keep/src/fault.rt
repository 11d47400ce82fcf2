use thiserror::Error;

/// Why nothing is signed.
#[derive(Clone, Copy, Debug, PartialEq, Eq, Error)]
pub enum SignFault {
    #[error("the key file isn't read")]
    ReadFault,
    #[error("no such key file")]
    NoFile,
    #[error("not a key file")]
    BadKeyFile,
    #[error("each leaf of the key has signed")]
    Spent,
    #[error("out of memory")]
    Memory,
    #[error("the key file isn't replaced")]
    WriteFault,
}
