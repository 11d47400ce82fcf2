// Forms in memory, of which some calls are to fail.
mod calls;
mod entropy;
mod files;
mod sink;
mod source;

pub use entropy::ListEntropy;
pub use files::MemoryFiles;
pub use sink::MemorySink;
pub use source::MemorySource;
