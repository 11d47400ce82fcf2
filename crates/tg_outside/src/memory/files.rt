ghost use Rattle.std.specs.Prelude.{◌≡◌, Some, OnOk, OnErr, IfSome, option_map};
ghost use Rattle.std.specs.Option.{option_copied};
ghost use Rattle.std.specs.FinMap as map;

use crate::fault::Fault;
use crate::files::Files;
use crate::memory::calls::Calls;
use crate::table::Table;
use std::alloc::Global;
use tg_text::{Bytes, Memory};

/// Files in memory, of which some calls are to fail. Which do, and that a call that fails leaves all files as they were, is
/// tested alone.
#[derive(Debug, Drop)]
pub struct MemoryFiles {
    table: Table,
    calls: Calls,
}

impl MemoryFiles {
    /// No files. `failing` has the numbers of the calls of `Files` that are to fail, counted from 0.
    pub fn new(alloc: Global, failing: Vec<u64>) -> MemoryFiles
        ensures files { ⟦<MemoryFiles as Files>⟧.files result ≡ Some map.empty }
        ensures faults { ⟦<MemoryFiles as Files>⟧.faults result ≡ 0 }
    {
        MemoryFiles {
            table: Table::new(alloc),
            calls: Calls::new(failing),
        }
    }

    /// Puts a file there. This is no call of `Files`, and isn't counted.
    pub fn put(&mut self, alloc: Global, name: &str, bytes: &[u8]) -> Result<(), Memory>
        ensures ok { OnOk result (⟦<MemoryFiles as Files>⟧.files self.new ≡ option_map (λ m. map.insert m name.now bytes.now) (⟦<MemoryFiles as Files>⟧.files self.old)) }
        ensures err { OnErr result (⟦<MemoryFiles as Files>⟧.files self.new ≡ ⟦<MemoryFiles as Files>⟧.files self.old) }
        ensures faults { ⟦<MemoryFiles as Files>⟧.faults self.new ≡ ⟦<MemoryFiles as Files>⟧.faults self.old }
    {
        self.table.insert(alloc, name, bytes)
    }

    /// The bytes of a file. This is no call of `Files`, and isn't counted.
    pub fn get(&self, name: &str) -> Option<&Bytes>
        ensures { IfSome (⟦<MemoryFiles as Files>⟧.files self.now) (λ m. option_copied result ≡ map.get m name.now) }
    {
        self.table.get(name)
    }
}

impl Files for MemoryFiles {
    ghost files = { λ it. Some it.table };

    ghost faults = { λ it. it.calls.faults };

    fn read(&mut self, alloc: Global, name: &str) -> Result<Option<Bytes>, Fault> {
        if self.calls.next_fails() {
            return Err(Fault::Failed);
        }
        match self.table.get(name) {
            Some(bytes) => Ok(Some(bytes.copy(alloc)?)),
            None => Ok(None),
        }
    }

    fn replace(&mut self, alloc: Global, name: &str, bytes: &[u8]) -> Result<(), Fault> {
        if self.calls.next_fails() {
            return Err(Fault::Failed);
        }
        self.table.insert(alloc, name, bytes)?;
        Ok(())
    }
}
