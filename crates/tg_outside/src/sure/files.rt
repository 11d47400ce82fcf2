ghost use Rattle.std.specs.Prelude.{◌≡◌, Some};
ghost use Rattle.std.specs.FinMap as map;

use crate::fault::Fault;
use crate::files::Files;
use crate::table::Table;
use std::alloc::Global;
use tg_text::Bytes;

/// Files in memory that never fail. Their calls may still want memory.
#[derive(Debug, Drop)]
pub struct SureFiles {
    table: Table,
}

impl SureFiles {
    /// No files.
    pub fn new(alloc: Global) -> SureFiles
        ensures { ⟦<SureFiles as Files>⟧.files result ≡ Some map.empty }
    {
        SureFiles {
            table: Table::new(alloc),
        }
    }
}

impl Files for SureFiles {
    ghost files = { λ it. Some it.table };

    ghost faults = { λ _. 0 };

    fn read(&mut self, alloc: Global, name: &str) -> Result<Option<Bytes>, Fault> {
        match self.table.get(name) {
            Some(bytes) => Ok(Some(bytes.copy(alloc)?)),
            None => Ok(None),
        }
    }

    fn replace(&mut self, alloc: Global, name: &str, bytes: &[u8]) -> Result<(), Fault> {
        self.table.insert(alloc, name, bytes)?;
        Ok(())
    }
}
