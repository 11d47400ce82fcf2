ghost use Rattle.std.specs.Prelude.{◌≡◌, [], Some, IfSome};

use crate::fault::Failed;
use crate::memory::calls::Calls;
use crate::sink::Sink;
use std::alloc::Global;
use tg_text::Bytes;

/// A sink in memory, of which some calls are to fail. Which do is tested alone. A call that fails takes nothing, and want of
/// memory is a fault.
#[derive(Debug, Drop)]
pub struct MemorySink {
    bytes: Bytes,
    calls: Calls,
    most: usize,
}

impl MemorySink {
    /// Nothing was taken. `failing` has the numbers of the calls of `Sink` that are to fail, counted from 0.
    pub fn new(alloc: Global, failing: Vec<u64>) -> MemorySink
        ensures taken { ⟦<MemorySink as Sink>⟧.taken result ≡ Some [] }
        ensures faults { ⟦<MemorySink as Sink>⟧.faults result ≡ 0 }
    {
        MemorySink {
            bytes: Bytes::new(alloc),
            calls: Calls::new(failing),
            most: usize::MAX,
        }
    }

    /// Takes at most this many bytes in a call from now on.
    pub fn set_most(&mut self, most: usize)
        ensures taken { ⟦<MemorySink as Sink>⟧.taken self.new ≡ ⟦<MemorySink as Sink>⟧.taken self.old }
        ensures faults { ⟦<MemorySink as Sink>⟧.faults self.new ≡ ⟦<MemorySink as Sink>⟧.faults self.old }
    {
        self.most = most;
    }

    /// The bytes that were taken.
    pub fn bytes(&self) -> &[u8]
        ensures { ⟦<MemorySink as Sink>⟧.taken self.now ≡ Some result.now }
    {
        self.bytes.as_slice()
    }
}

impl Sink for MemorySink {
    ghost taken = { λ it. Some it.bytes };

    ghost faults = { λ it. it.calls.faults };

    fn write(&mut self, piece: &[u8]) -> Result<usize, Failed> {
        if self.calls.next_fails() {
            return Err(Failed);
        }
        let front = piece.split_at(piece.len().min(self.most)).0;
        if (front.is_empty() && !piece.is_empty()) || self.bytes.append(front).is_err() {
            self.calls.count_fault();
            return Err(Failed);
        }
        Ok(front.len())
    }
}
