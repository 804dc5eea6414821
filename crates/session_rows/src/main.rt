//! Does what rows of text say at the ends of a connection, and prints what each row came to.
//!
//! The one word is an interface, in JSON. The first line of the standard input says at which ends;
//! each further line is a comment, an act or a question, and has a line of the output. README.md
//! tells the layout. What is right and what is wrong isn't known here: who runs this compares.
#![tactic(auto)]

mod acts;
mod both_ends;
mod client;
mod first_line;
mod messages;
mod one_end;
mod server;
mod shown;
mod side;
mod words;
mod world;

use anyhow::{Context, Result, bail};
use first_line::{Ends, ends_in};
use giop_calls::{ClientRule, ServerRule};
use giop_json::interface_from_json;
use giop_session::laws::{run_client, run_server};
use giop_session::{ClientEnd, End, ServerEnd};
use giop_types::Interface;
use std::env;
use std::io::Read;

fn main(rt: HostRuntime) -> Result<()> {
    let words: Vec<String> = env::args(&rt)?.collect(rt.alloc())?;
    let [_, interface] = words.as_slice() else {
        bail!("the one word is an interface, in JSON");
    };
    let interface = interface_from_json(rt.alloc(), interface.as_bytes())?;
    let mut octets = Vec::new(rt.alloc());
    rt.reader().read_to_end(&mut octets)?;
    let text = String::from_utf8_lossy(rt.alloc(), octets.as_slice())?;
    let lines: Vec<&str> = text.lines().collect(rt.alloc())?;
    run(&rt, &interface, lines.as_slice())
}

fn run(rt: &HostRuntime, interface: &Interface, lines: &[&str]) -> Result<()> {
    let Some(first) = lines.first() else {
        bail!("there is no line");
    };
    let rows = &lines[1..];
    println!(rt; "{first}")?;
    let alloc = rt.alloc();
    match ends_in(alloc, first)? {
        Ends::Server(steps) => {
            let end = End::<ServerRule>::new(alloc, interface, steps.within.limits);
            one_end::run(rt, end, steps.read, rows)
        }
        Ends::Client(steps) => {
            let end = End::<ClientRule>::new(alloc, interface, steps.within.limits);
            one_end::run(rt, end, steps.read, rows)
        }
        Ends::ServerInputs(within) => {
            let inputs = one_end::inputs::<ServerEnd<'_>>(alloc, rows)?;
            one_end::show_all(
                rt,
                run_server(alloc, interface, within.limits, inputs)?,
                rows,
            )
        }
        Ends::ClientInputs(within) => {
            let inputs = one_end::inputs::<ClientEnd<'_>>(alloc, rows)?;
            one_end::show_all(
                rt,
                run_client(alloc, interface, within.limits, inputs)?,
                rows,
            )
        }
        Ends::Ends(within) => both_ends::run(rt, interface, within, rows),
        Ends::World(within) => world::run(rt, interface, within, rows),
    }
}
