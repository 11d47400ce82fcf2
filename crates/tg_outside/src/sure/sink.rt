ghost use Rattle.std.specs.Prelude.{◌≡◌, [], Some};

use crate::fault::Failed;
use crate::sink::Sink;
use crate::trace::{Trace, blank, note};

/// A sink that never fails, since it keeps nothing. Contracts see all that it took.
#[derive(Drop)]
pub struct SureSink {
    taken: Trace,
}

impl SureSink {
    /// Nothing taken yet.
    pub fn new() -> SureSink
        ensures { ⟦<SureSink as Sink>⟧.taken result ≡ Some [] }
    {
        SureSink { taken: blank() }
    }
}

impl Sink for SureSink {
    ghost taken = { λ it. Some it.taken.bytes };

    ghost faults = { λ _. 0 };

    fn write(&mut self, piece: &[u8]) -> Result<usize, Failed> {
        for byte in piece {
            note(&mut self.taken, *byte);
        }
        Ok(piece.len())
    }
}
