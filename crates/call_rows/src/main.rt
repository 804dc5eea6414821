//! Does what rows of text say by the rules of calls, and prints what each row came to.
//!
//! The first line of the standard input says which rule, by itself or in a table; each further line
//! is a comment, or an event at an entry, and has a line of the output. README.md tells the layout.
//! What is right and what is wrong isn't known here: who runs this compares.
#![tactic(auto)]

mod client;
mod made;
mod rule;
mod ruled;
mod server;
mod table;

use anyhow::{Result, bail};
use giop_calls::{ClientRule, ServerRule};
use rows::{number, print_rows, split};
use rule::ByItself;
use std::io::Read;

fn main(rt: HostRuntime) -> Result<()> {
    let mut octets = Vec::new(rt.alloc());
    rt.reader().read_to_end(&mut octets)?;
    let text = String::from_utf8_lossy(rt.alloc(), octets.as_slice())?;
    let lines: Vec<&str> = text.lines().collect(rt.alloc())?;
    run(&rt, lines.as_slice())
}

fn run(rt: &HostRuntime, lines: &[&str]) -> Result<()> {
    let [first, rows @ ..] = lines else {
        bail!("there is no line");
    };
    println!(rt; "{first}")?;
    let alloc = rt.alloc();
    let words = split(alloc, first)?;
    match words.as_slice() {
        ["server"] => print_rows(rt, alloc, &mut ByItself { rule: ServerRule }, rows),
        ["client"] => print_rows(rt, alloc, &mut ByItself { rule: ClientRule }, rows),
        ["server", calls] => table::run(rt, alloc, ServerRule, number(calls)?, rows),
        ["client", calls] => table::run(rt, alloc, ClientRule, number(calls)?, rows),
        ["server-run", calls] => table::run_at_once(rt, alloc, ServerRule, number(calls)?, rows),
        _ => bail!("no such rule: {first}"),
    }
}
