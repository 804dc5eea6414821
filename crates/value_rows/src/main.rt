//! Does what rows of text say of values in CDR, of values by their descriptions and of references,
//! and prints what each row came to.
//!
//! The first line of the standard input is `values`; each further line is a comment or a row, and
//! has a line of the output. README.md tells the layout. What is right and what is wrong isn't
//! known here: who runs this compares.
#![tactic(auto)]

mod described;
mod faults;
mod parts;
mod reading;
mod references;
mod two_parts;
mod unwritable;
mod writing;

use anyhow::{Result, bail};
use rows::{Rows, print_rows};
use std::alloc::Global;
use std::io::Read;

fn main(rt: HostRuntime) -> Result<()> {
    let mut octets = Vec::new(rt.alloc());
    rt.reader().read_to_end(&mut octets)?;
    let text = String::from_utf8_lossy(rt.alloc(), octets.as_slice())?;
    let lines: Vec<&str> = text.lines().collect(rt.alloc())?;
    let ["values", rows @ ..] = lines.as_slice() else {
        bail!("the first line is values");
    };
    println!(rt; "values")?;
    print_rows(&rt, rt.alloc(), &mut Values, rows)
}

// Each row stands by itself.
#[derive(Drop)]
struct Values;

impl Rows for Values {
    fn line(&mut self, alloc: Global, words: &[&str]) -> Result<String> {
        match words {
            ["read", order, start, digits, kinds @ ..] => {
                reading::read(alloc, [order, start, digits], kinds)
            }
            ["lend", order, start, digits, kinds @ ..] => {
                reading::lent(alloc, [order, start, digits], kinds)
            }
            ["write", order, start, values @ ..] => writing::write(alloc, [order, start], values),
            ["show", order, start, values @ ..] => writing::show(alloc, [order, start], values),
            ["encode", order, start, desc, parts @ ..] => {
                described::encoded(alloc, [order, start, desc], parts)
            }
            ["decode", order, start, desc, digits] => {
                described::decoded(alloc, [order, start, desc], digits)
            }
            ["labels", disc, labels @ ..] => described::labelled(alloc, disc, labels),
            ["interface", json, names @ ..] => described::interface(alloc, json, names),
            ["ior", order, digits] => references::ior(alloc, order, digits),
            ["profile", digits] => references::profile(alloc, digits),
            ["ior-text", text] => references::text(alloc, text),
            ["corbaloc", digits] => references::corbaloc(alloc, digits),
            ["type-id", digits] => unwritable::type_id(alloc, digits),
            ["components", major, minor, host, count] => {
                unwritable::components(alloc, [major, minor], host, count)
            }
            ["addresses", addresses @ ..] => unwritable::addresses(alloc, addresses),
            ["faults", of] => faults::faults(alloc, of),
            _ => bail!("no such row"),
        }
    }
}
