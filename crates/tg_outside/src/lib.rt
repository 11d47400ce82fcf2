//! What the program meets outside itself: files, entropy, a clock, a source for its input and a sink for its output, and a
//! count of steps.
//!
//! A call of the outside fails only where the object's own count of faults rose in that call (`specs/Causes.antt`), and what
//! each call does to contents is said where they are known (`specs/Contents.antt`): of the forms in memory they are, of those over
//! the system they aren't. `outcomes` builds on both, and every crate that reads, writes or counts steps stands on this one.
#![tactic(auto)]

mod clock;
mod entropy;
mod fault;
mod files;
mod memory;
mod real;
mod rest;
mod sink;
mod source;
mod steps;
mod sure;
mod table;
mod trace;

pub use clock::Clock;
pub use entropy::Entropy;
pub use fault::{Failed, Fault, MakeFault};
pub use files::Files;
pub use memory::{ListEntropy, MemoryFiles, MemorySink, MemorySource};
pub use real::{Input, Output, RealClock, RealEntropy, RealFiles};
pub use sink::{Sink, write_all};
pub use source::Source;
pub use steps::{Silent, StepLedger, Steps, Tally};
pub use sure::{FixedClock, SureEntropy, SureFiles, SureSink, SureSource};
