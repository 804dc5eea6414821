//! Does what rows of text say of messages, and prints what each row came to.
//!
//! The one word is an interface, in JSON. The first line of the standard input is `messages` and
//! the largest size of a message; each further line is a comment, an act or a question, and has a
//! line of the output. README.md tells the layout. What is right and what is wrong isn't known
//! here: who runs this compares.
#![tactic(auto)]

mod decoding;
mod framing;
mod heads;
mod made;
mod names;
mod shown;

use anyhow::{Result, bail};
use decoding::{locate_reply, locate_request, reply, request};
use framing::{cut_octets, header, id, next, take};
use giop_json::interface_from_json;
use giop_msg::{Framer, Request};
use giop_types::Interface;
use rows::{Rows, number, octets, print_rows, split};
use std::alloc::Global;
use std::env;
use std::io::Read;

fn main(rt: HostRuntime) -> Result<()> {
    let words: Vec<String> = env::args(&rt)?.collect(rt.alloc())?;
    let [_, interface] = words.as_slice() else {
        bail!("the one word is an interface, in JSON");
    };
    let interface = interface_from_json(rt.alloc(), interface.as_bytes())?;
    let mut octets = Vec::new(rt.alloc());
    rt.reader().read_to_end(&mut octets)?;
    let text = String::from_utf8_lossy(rt.alloc(), octets.as_slice())?;
    let lines: Vec<&str> = text.lines().collect(rt.alloc())?;
    let [first, rows @ ..] = lines.as_slice() else {
        bail!("there is no line");
    };
    println!(rt; "{first}")?;
    let words = split(rt.alloc(), first)?;
    let ["messages", limit] = words.as_slice() else {
        bail!("the first line is messages and a size");
    };
    let mut messages = Messages {
        interface: &interface,
        framer: Framer::new(rt.alloc(), number(limit)?),
        asked: None,
    };
    print_rows(&rt, rt.alloc(), &mut messages, rows)
}

// What rows before a row left.
#[derive(Drop)]
struct Messages<'a> {
    interface: &'a Interface,
    framer: Framer,
    asked: Option<Request>,
}

impl Rows for Messages<'_> {
    fn line(&mut self, alloc: Global, words: &[&str]) -> Result<String> {
        match words {
            ["feed", digits] => {
                self.framer.feed(octets(alloc, digits)?.as_slice())?;
                Ok("done".to_string(alloc)?)
            }
            ["next"] => next(alloc, &mut self.framer),
            ["take"] => take(alloc, &mut self.framer),
            ["rest"] => Ok(format!(in alloc; "{}", self.framer.rest())?),
            ["request", version, order, digits] => {
                let (text, asked) = request(alloc, self.interface, version, order, digits)?;
                self.asked = asked;
                Ok(text)
            }
            ["forget"] => {
                self.asked = None;
                Ok("done".to_string(alloc)?)
            }
            ["reply", version, order, digits] => {
                let of = [*version, *order, *digits];
                reply(alloc, self.interface, self.asked.as_ref(), of)
            }
            ["make-request", head @ ..] => made::request(alloc, self.interface, head),
            ["make-reply", version, order, body @ ..] => {
                let of = [*version, *order];
                made::reply(alloc, self.interface, self.asked.as_ref(), of, body)
            }
            words => by_itself(alloc, words),
        }
    }
}

// The line of a row by which no other is meant.
fn by_itself(alloc: Global, words: &[&str]) -> Result<String> {
    match words {
        ["cut", version, kind, order, piece, digits] => {
            cut_octets(alloc, [version, kind, order], number(piece)?, digits)
        }
        ["id", version, kind, digits] => id(alloc, version, kind, digits),
        ["split", front, back] => framing::split(alloc, front, back),
        ["header", version, order, more, kind, size] => {
            header(alloc, [version, order, more, kind, size])
        }
        ["locate-request", version, order, digits] => locate_request(alloc, version, order, digits),
        ["locate-reply", order, again, digits] => locate_reply(alloc, order, again, digits),
        ["head", kind, version, order, digits] => heads::head(
            alloc,
            kind,
            [version, order, digits],
        ),
        ["make-head", head @ ..] => made::head(alloc, head),
        ["names", of] => names::names(alloc, of),
        _ => bail!("no such row"),
    }
}
