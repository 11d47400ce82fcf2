//! Reads tables of entries, and prints which of them a state doesn't take as its line says.
//!
//! The words after the program's name are tables, files of `data/`. A line of a table is empty, a remark that begins with `#`, or
//! one of these.
//!
//!     new                          the state is that before the team is founded, at the time 0
//!     time TIME                    the entries that follow are of this time
//!     VERDICT USER DEVICE ACT ..   the entry of this author, by this device, is `permitted`, or refused by this reason
//!     has FACT ..                  the state has this row: see `facts`
//!     lacks FACT ..                it hasn't
//!     each FIRST LAST LINE         one of these lines, once for each of the numbers, which stands in place of each `{}`
//!
//! A device and an invitation are names, and their keys are made of those. In an act `@NAME` stands for the key and `%NAME` for the id,
//! which serves for a seal too. An entry that is refused has to leave the state as it was, and a line that can't be read doesn't hold. The
//! program prints of each table how many lines hold, and before that the number of each line that doesn't.
#![tactic(auto)]

mod devices;
mod facts;
mod numbering;
mod reasons;
mod table;

use std::{env, fs};
use table::Table;

fn main(rt: HostRuntime) -> Result<(), anyhow::Error> {
    for name in env::args(&rt)?.skip(1) {
        let text = fs::read_to_string(&rt, name.as_str())?;
        let mut table = Table::new(rt.alloc())?;
        let mut number: u64 = 0;
        for line in text.as_str().lines() {
            number = number.saturating_add(1);
            if !table.holds(rt.alloc(), line)? {
                println!(rt; "{name}: line {number} does not hold")?;
            }
        }
        println!(rt; "{name}: {} lines hold", table.held())?;
    }
    Ok(())
}
