//! Rows at a client's end and a server's, joined by what each puts out.

use crate::first_line::BothLimits;
use crate::one_end::{answered, write_off};
use crate::shown::{is_question, question, told};
use crate::side::RowEnd;
use anyhow::{Result, bail};
use giop_calls::{ClientRule, ServerRule};
use giop_session::laws::Answered;
use giop_session::{ClientEnd, End, Hearing, ServerEnd};
use giop_types::Interface;
use rows::{number, split};
use std::alloc::Global;

/// Does what each row says, one after the other, and prints what each came to.
pub fn run(
    rt: &HostRuntime,
    interface: &Interface,
    within: BothLimits,
    rows: &[&str],
) -> Result<()> {
    let alloc = rt.alloc();
    let mut client = End::<ClientRule>::new(alloc, interface, within.client.limits);
    let mut server = End::<ServerRule>::new(alloc, interface, within.server.limits);
    for row in rows {
        let text = done(alloc, &mut client, &mut server, row)?;
        println!(rt; "{text}")?;
    }
    Ok(())
}

// The line of a row.
fn done(
    alloc: Global,
    client: &mut ClientEnd<'_>,
    server: &mut ServerEnd<'_>,
    row: &str,
) -> Result<String> {
    let words = split(alloc, row)?;
    match words.as_slice() {
        ["client", act @ ..] => done_at(alloc, client, act),
        ["server", act @ ..] => done_at(alloc, server, act),
        ["to-server", n] => {
            let arrived = hand_over(client, server, number(n)? as usize);
            told::<ServerEnd<'_>>(alloc, &arrived)
        }
        ["to-client", n] => {
            let arrived = hand_over(server, client, number(n)? as usize);
            told::<ClientEnd<'_>>(alloc, &arrived)
        }
        [] => Ok(row.to_string(alloc)?),
        _ => bail!("no act: {row}"),
    }
}

// What one end is asked, or given.
fn done_at<E: RowEnd>(alloc: Global, end: &mut E, words: &[&str]) -> Result<String> {
    if is_question(words) {
        return question(alloc, end, words);
    }
    let answered = end.give(E::input(alloc, words)?, usize::MAX);
    told::<E>(alloc, &answered)
}

// Up to so many octets that one end put out come to the other, in one read.
fn hand_over<A: Hearing, B: Hearing>(
    from: &mut End<'_, A>,
    to: &mut End<'_, B>,
    n: usize,
) -> Answered<B::Entry> {
    let n = n.min(from.outgoing().len());
    let arrived = answered(to.feed(&from.outgoing()[..n]));
    write_off(from, n);
    arrived
}
