//! Tries calls that read and write texts on tables of cases: each line of the files in data/ is one.
//!
//! A line is `TABLE ANSWER TEXT`. The table says which call is tried (`tables`). The answer is `none` where nothing is found
//! in the text, `found` where what is found is written as the text again, and else the text that the call gives. In a text
//! `\xHH` stands for the byte HH, and `-` alone for no bytes. A line that begins with `#` is a comment.
//!
//! It prints how many lines of each table agree, and each line that doesn't.
#![tactic(auto)]

mod act_tables;
mod cases;
mod field_tables;
mod invitation_tables;
mod key_tables;
mod tables;

use cases::{agrees, table_of};
use std::fs;

const FILES: [&str; 4] = ["fields.txt", "acts.txt", "keys.txt", "invitations.txt"];

fn main(rt: HostRuntime) -> Result<(), anyhow::Error> {
    for file in FILES {
        let text = fs::read_to_string(&rt, file)?;
        try_all(&rt, text.as_str())?;
    }
    Ok(())
}

// The lines of a table stand beside each other.
fn try_all(rt: &HostRuntime, text: &str) -> Result<(), anyhow::Error> {
    let mut table = "";
    let mut count: u64 = 0;
    for line in text.lines() {
        if line.starts_with('#') {
            continue;
        }
        if table_of(line) != table {
            say(rt, table, count)?;
            table = table_of(line);
            count = 0;
        }
        if agrees(rt.alloc(), line)? {
            count = count.saturating_add(1);
        } else {
            println!(rt; "differs: {line}")?;
        }
    }
    say(rt, table, count)
}

fn say(rt: &HostRuntime, table: &str, count: u64) -> Result<(), anyhow::Error> {
    if table.is_empty() {
        return Ok(());
    }
    println!(rt; "{table} {count} cases agree")?;
    Ok(())
}
