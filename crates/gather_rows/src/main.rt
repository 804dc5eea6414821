//! Does what rows of text say at a gatherer of pieces, and prints what each row came to.
//!
//! The first line of the standard input is `gather` and the limit; each further line is a comment,
//! an act or a question, and has a line of the output. README.md tells the layout. What is right
//! and what is wrong isn't known here: who runs this compares.
#![tactic(auto)]

mod lying;
mod reading;

use anyhow::{Result, bail};
use giop_cdr::Order;
use giop_frag::{Gather, GatherFault};
use lying::{each_octet, runs};
use reading::read;
use rows::{Rows, number, octets, order, order_word, print_rows, shown, split};
use std::alloc::{AllocError, Global};
use std::io::Read;

fn main(rt: HostRuntime) -> Result<()> {
    let mut octets = Vec::new(rt.alloc());
    rt.reader().read_to_end(&mut octets)?;
    let text = String::from_utf8_lossy(rt.alloc(), octets.as_slice())?;
    let lines: Vec<&str> = text.lines().collect(rt.alloc())?;
    run(&rt, lines.as_slice())
}

fn run(rt: &HostRuntime, lines: &[&str]) -> Result<()> {
    let [first, rows @ ..] = lines else {
        bail!("there is no line");
    };
    let alloc = rt.alloc();
    println!(rt; "{first}")?;
    let words = split(alloc, first)?;
    let ["gather", limit] = words.as_slice() else {
        bail!("the first line is gather and the limit");
    };
    let mut gathering = Gathering {
        gather: Gather::new(alloc, number(limit)? as usize),
    };
    print_rows(rt, alloc, &mut gathering, rows)
}

// The gatherer at which the rows act.
#[derive(Drop)]
struct Gathering {
    gather: Gather,
}

impl Rows for Gathering {
    fn line(&mut self, alloc: Global, words: &[&str]) -> Result<String> {
        let gather = &mut self.gather;
        match words {
            ["begin", id, of_order, word] => {
                let octets = octets(alloc, word)?;
                begin(
                    alloc,
                    gather,
                    number(id)?,
                    order(of_order)?,
                    octets.as_slice(),
                )
            }
            ["add", id, of_order, word] => {
                let octets = octets(alloc, word)?;
                let answer = gather.add(number(id)?, order(of_order)?, octets.as_slice());
                Ok(answer_text(alloc, answer)?)
            }
            ["discard", id] => {
                gather.discard(number(id)?);
                Ok("done".to_string(alloc)?)
            }
            ["finish", id] => finish(alloc, gather, number(id)?),
            words => asked(alloc, gather, words),
        }
    }
}

// An id that has a list isn't begun.
fn begin(
    alloc: Global,
    gather: &mut Gather,
    id: u32,
    order: Order,
    octets: &[u8],
) -> Result<String> {
    if gather.contains(id) {
        bail!("the id has a list: {id}");
    }
    Ok(answer_text(alloc, gather.begin(id, order, octets))?)
}

fn finish(alloc: Global, gather: &mut Gather, id: u32) -> Result<String> {
    Ok(match gather.finish(id) {
        Ok((order, octets)) => {
            let text = shown(alloc, octets.as_slice())?;
            format!(in alloc; "{} {text}", order_word(order))?
        }
        Err(fault) => format!(in alloc; "{fault}")?,
    })
}

fn asked(alloc: Global, gather: &Gather, words: &[&str]) -> Result<String> {
    Ok(match words {
        ["total"] => format!(in alloc; "{}", gather.total())?,
        ["len"] => format!(in alloc; "{}", gather.len())?,
        ["blocks"] => format!(in alloc; "{}", gather.blocks())?,
        ["limit"] => format!(in alloc; "{}", gather.limit())?,
        ["empty"] => format!(in alloc; "{}", gather.is_empty())?,
        ["contains", id] => format!(in alloc; "{}", gather.contains(number(id)?))?,
        ["counts"] => format!(in alloc; "{gather:?}")?,
        ["joined", id] => joined(alloc, gather, number(id)?)?,
        ["read", id, start, before, kind] => read(alloc, gather, [id, start, before, kind])?,
        _ => bail!("no such row"),
    })
}

// The octets of an id where they lie, by runs and one by one, which are the same.
fn joined(alloc: Global, gather: &Gather, id: u32) -> Result<String> {
    let Some((order, chain)) = gather.chain(id) else {
        return Ok("absent".to_string(alloc)?);
    };
    let by_runs = runs(alloc, &chain)?;
    let one_by_one = each_octet(alloc, &chain)?;
    let text = shown(alloc, by_runs.as_slice())?;
    let same = by_runs.as_slice() == one_by_one.as_slice();
    Ok(match same {
        true => format!(in alloc; "{} {text}", order_word(order))?,
        false => "two readings".to_string(alloc)?,
    })
}

fn answer_text(alloc: Global, answer: Result<(), GatherFault>) -> Result<String, AllocError> {
    match answer {
        Ok(()) => "done".to_string(alloc),
        Err(fault) => format!(in alloc; "{fault}"),
    }
}
