ghost use Rattle.std.specs.Prelude.{◌≡◌, Some};

use crate::fault::Failed;
use crate::memory::calls::Calls;
use crate::rest::Rest;
use crate::source::Source;

/// A source in memory, of which some calls are to fail. Which do is tested alone. A call that fails takes nothing.
#[derive(Debug, Drop)]
pub struct MemorySource<'a> {
    rest: Rest<'a>,
    calls: Calls,
    most: usize,
}

impl<'a> MemorySource<'a> {
    /// These bytes are left. `failing` has the numbers of the calls of `Source` that are to fail, counted from 0.
    pub fn new(bytes: &'a [u8], failing: Vec<u64>) -> MemorySource<'a>
        ensures left { ⟦<MemorySource<'a> as Source>⟧.left result ≡ Some bytes.now }
        ensures faults { ⟦<MemorySource<'a> as Source>⟧.faults result ≡ 0 }
    {
        MemorySource {
            rest: Rest { bytes },
            calls: Calls::new(failing),
            most: usize::MAX,
        }
    }

    /// Gives at most this many bytes in a call from now on. With 0 it fails where bytes are left and asked for.
    pub fn set_most(&mut self, most: usize)
        ensures left { ⟦<MemorySource<'a> as Source>⟧.left self.new ≡ ⟦<MemorySource<'a> as Source>⟧.left self.old }
        ensures faults { ⟦<MemorySource<'a> as Source>⟧.faults self.new ≡ ⟦<MemorySource<'a> as Source>⟧.faults self.old }
    {
        self.most = most;
    }
}

impl Source for MemorySource<'_> {
    ghost left = { λ it. Some it.rest.bytes.now };

    ghost faults = { λ it. it.calls.faults };

    fn read(&mut self, buffer: &mut [u8]) -> Result<usize, Failed> {
        if self.calls.next_fails() {
            return Err(Failed);
        }
        if self.most == 0 && !self.rest.bytes.is_empty() && !buffer.is_empty() {
            self.calls.count_fault();
            return Err(Failed);
        }
        Ok(self.rest.take_front(buffer, self.most))
    }
}
