// Forms that never fail.
mod clock;
mod entropy;
mod files;
mod sink;
mod source;

pub use clock::FixedClock;
pub use entropy::SureEntropy;
pub use files::SureFiles;
pub use sink::SureSink;
pub use source::SureSource;
