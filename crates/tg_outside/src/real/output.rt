ghost use Rattle.std.specs.Prelude.{◌≡◌};

use crate::fault::Failed;
use crate::sink::Sink;
use std::io::Write;

/// A writer of the standard library as a sink, as standard output. What it took is known where the writer says it.
#[derive(Drop)]
pub struct Output<W: Write> {
    writer: W,
    faults: u64,
}

impl<W: Write> Output<W> {
    /// No fault counted yet.
    pub fn new(writer: W) -> Output<W>
        ensures taken { ⟦<Output<W> as Sink>⟧.taken result ≡ W.contents writer }
        ensures faults { ⟦<Output<W> as Sink>⟧.faults result ≡ 0 }
    {
        Output { writer, faults: 0 }
    }
}

impl<W: Write> Sink for Output<W> {
    ghost taken = { λ it. W.contents it.writer };

    ghost faults = { λ it. it.faults };

    fn write(&mut self, piece: &[u8]) -> Result<usize, Failed> {
        match self.writer.write(piece) {
            Ok(count) if count > 0 || piece.is_empty() => Ok(count),
            Ok(_) | Err(_) => {
                self.faults = self.faults.saturating_add(1);
                Err(Failed)
            }
        }
    }
}
