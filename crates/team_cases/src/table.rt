use crate::bundle_rows::bundle_holds;
use crate::file_rows::{file_holds, sum_holds};
use crate::link_rows::{link_holds, name_holds, text_holds};
use crate::past_rows::past_holds;
use crate::signed_rows::signed_holds;
use std::alloc::Global;
use team_samples::{SampleFault, read_pieces};
use tg_outside::Files;
use tg_text::Bytes;

/// A table that is being read.
#[derive(Debug, Drop)]
pub struct Table {
    base: Bytes,
    held: u64,
}

impl Table {
    /// No line was read.
    pub fn new(alloc: Global) -> Table {
        Table {
            base: Bytes::new(alloc),
            held: 0,
        }
    }

    /// How many cases held.
    pub fn held(&self) -> u64 {
        self.held
    }

    /// Reads the next line, and answers whether its case holds, which that of a line without one does. A line of no known form is
    /// an error.
    pub fn holds<F: Files>(
        &mut self,
        alloc: Global,
        data: &mut F,
        line: &str,
    ) -> Result<bool, SampleFault> {
        if line.is_empty() || line.starts_with('#') {
            return Ok(true);
        }
        if let Some(pieces) = line.strip_prefix("base ") {
            self.base = read_pieces(alloc, data, pieces)?;
            return Ok(true);
        }
        let holds = case_holds(alloc, data, self.base.as_slice(), line)?;
        if holds {
            self.held = self.held.saturating_add(1);
        }
        Ok(holds)
    }
}

fn case_holds<F: Files>(
    alloc: Global,
    data: &mut F,
    base: &[u8],
    line: &str,
) -> Result<bool, SampleFault> {
    let (kind, row) = line.split_once(' ').unwrap_or((line, ""));
    match kind {
        "text" => text_holds(alloc, base, row),
        "link" => link_holds(alloc, base, row),
        "name" => name_holds(alloc, base, row),
        "past" => past_holds(alloc, base, row),
        "signed" => signed_holds(alloc, data, row),
        "file" => file_holds(alloc, data, row),
        "sum" => sum_holds(alloc, data, row),
        "bundle" => bundle_holds(alloc, data, row),
        _ => Err(SampleFault::BadWord),
    }
}
