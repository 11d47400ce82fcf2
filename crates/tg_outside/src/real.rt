// Forms over the system.
mod clock;
mod entropy;
mod files;
mod input;
mod output;
mod target;

pub use clock::RealClock;
pub use entropy::RealEntropy;
pub use files::RealFiles;
pub use input::Input;
pub use output::Output;
