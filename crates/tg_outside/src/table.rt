ghost use Rattle.std.specs.Prelude.{◌≡◌, OnOk, OnErr};
ghost use Rattle.std.specs.Option.{option_copied};
ghost use Rattle.std.specs.FinMap as map;
ghost use Rattle.tg_outside.specs.Table.{newest};

use std::alloc::Global;
use std::marker::Model;
use tg_text::{Bytes, Memory};

// Names with bytes in memory, the newest first, seen as the map of the newest.
#[derive(Debug, Drop)]
pub struct Table {
    entries: Vec<(Bytes, Bytes)>,
}

impl Model for Table {
    ghost use Rattle.std.specs.Prelude.{ℕ, List};
    ghost use Rattle.std.specs.Coded.{coded_ℕ, coded_list};
    ghost use Rattle.std.specs.FinMap as map;
    ghost use Rattle.tg_outside.specs.Contents.{FileMap};
    ghost use Rattle.tg_outside.specs.Table.{files_of};

    ghost Value = { FileMap };

    ghost coded = { map.code (coded_list coded_ℕ) (coded_list coded_ℕ) };

    ghost view = { λ it. files_of it.entries.items };
}

impl Table {
    pub fn new(alloc: Global) -> Table
        ensures { result ≡ map.empty }
    {
        Table {
            entries: Vec::new(alloc),
        }
    }

    pub fn get(&self, name: &str) -> Option<&Bytes>
        ensures { option_copied result ≡ map.get self.now name.now }
    {
        find(&self.entries, name.as_bytes())
    }

    pub fn insert(&mut self, alloc: Global, name: &str, bytes: &[u8]) -> Result<(), Memory>
        ensures ok { OnOk result (self.new ≡ map.insert self.old name.now bytes.now) }
        ensures err { OnErr result (self.new ≡ self.old) }
    {
        let name = Bytes::from_slice(alloc, name.as_bytes())?;
        let bytes = Bytes::from_slice(alloc, bytes)?;
        self.entries.insert(0, (name, bytes))?;
        Ok(())
    }
}

fn find<'a>(entries: &'a [(Bytes, Bytes)], name: &[u8]) -> Option<&'a Bytes>
    ensures { option_copied result ≡ newest name.now entries.now }
{
    for entry in entries {
        if name == entry.0.as_slice() {
            return Some(&entry.1);
        }
    }
    None
}
