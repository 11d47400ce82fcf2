//! Tries the signatures of RFC 8554 on vectors from outside: each line of data/lms.txt, whose header says what it is.
//! It prints how many lines hold, and the number of each that does not.
#![tactic(auto)]

mod vectors;

use std::fs;
use vectors::line_holds;

fn main(rt: HostRuntime) -> Result<(), anyhow::Error> {
    let text = fs::read_to_string(&rt, "lms.txt")?;
    let mut held: u64 = 0;
    let mut number: u64 = 0;
    for line in text.as_str().lines() {
        number = number.saturating_add(1);
        if line.starts_with('#') {
            continue;
        }
        if line_holds(rt.alloc(), line)? {
            held = held.saturating_add(1);
        } else {
            println!(rt; "line {number} does not hold")?;
        }
    }
    println!(rt; "{held} lines hold")?;
    Ok(())
}
