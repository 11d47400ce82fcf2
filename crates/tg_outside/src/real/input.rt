ghost use Rattle.std.specs.Prelude.{◌≡◌};

use crate::fault::Failed;
use crate::source::Source;
use std::io::Read;

/// A reader of the standard library as a source, as standard input. What is left is known where the reader says it.
#[derive(Drop)]
pub struct Input<R: Read> {
    reader: R,
    faults: u64,
}

impl<R: Read> Input<R> {
    /// No fault counted yet.
    pub fn new(reader: R) -> Input<R>
        ensures left { ⟦<Input<R> as Source>⟧.left result ≡ R.remaining reader }
        ensures faults { ⟦<Input<R> as Source>⟧.faults result ≡ 0 }
    {
        Input { reader, faults: 0 }
    }
}

impl<R: Read> Source for Input<R> {
    ghost left = { λ it. R.remaining it.reader };

    ghost faults = { λ it. it.faults };

    fn read(&mut self, buffer: &mut [u8]) -> Result<usize, Failed> {
        match self.reader.read(buffer) {
            Ok(count) => Ok(count),
            Err(_) => {
                self.faults = self.faults.saturating_add(1);
                Err(Failed)
            }
        }
    }
}
