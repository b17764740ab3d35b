//! `textwrap_rows` reads rows from its standard input, each a call and what it gives:
//!
//! ```text
//! wrap "foo bar" 4 whole => "foo" "bar"
//! ```
//!
//! It makes the calls, and writes each row that is wrong, with what the call gave in its place. The
//! last line says how many rows were right. An empty line, and one that begins with `#`, is no row.
#![tactic(auto)]

use rows::Outcome;
use std::io;

mod breaks;
mod calls;
mod dictionaries;
mod display;
mod faults;
mod hyphenated;
mod notation;
mod paragraphs;
mod pieces;
mod rows;
mod settings;
mod tables;

fn main(rt: HostRuntime) -> io::Result<()> {
    let alloc = rt.alloc();
    let mut right = 0u64;
    for line in rt.lines(alloc) {
        match rows::tried(alloc, line?.as_str())? {
            Outcome::NoRow => {}
            Outcome::Right => right = right.saturating_add(1),
            Outcome::Wrong(told) => println!(rt; "{told}")?,
        }
    }
    println!(rt; "right: {right}")?;
    Ok(())
}
