//! Rows as the schedule of a world.

use crate::acts::{client_input, server_input};
use crate::first_line::BothLimits;
use crate::shown::{is_question, question, refusal};
use anyhow::{Context, Result, bail};
use giop_session::SessionFault;
use giop_session::laws::{ClientInput, ServerInput, World, WorldEvent, run_world};
use giop_types::Interface;
use rows::{number, split};
use std::alloc::Global;

/// Lets all that the rows say happen in a world, and then prints what each came to.
pub fn run(
    rt: &HostRuntime,
    interface: &Interface,
    within: BothLimits,
    rows: &[&str],
) -> Result<()> {
    let alloc = rt.alloc();
    let schedule = schedule(alloc, rows)?;
    let (ours, theirs) = (within.client.limits, within.server.limits);
    let (mut world, answers) = run_world(alloc, interface, ours, theirs, schedule)?;
    show_all(rt, &mut world, answers.as_slice(), rows)
}

// Prints what each row came to.
fn show_all(
    rt: &HostRuntime,
    world: &mut World<'_>,
    answers: &[Result<(), SessionFault>],
    rows: &[&str],
) -> Result<()> {
    let alloc = rt.alloc();
    let mut answers = answers.iter();
    for row in rows {
        let words = split(alloc, row)?;
        let text = if words.is_empty() {
            row.to_string(alloc)?
        } else if is_asked(words.as_slice()) {
            asked(alloc, world, words.as_slice())?
        } else if let Some(answer) = answers.next() {
            refusal(alloc, *answer)?
        } else {
            bail!("no answer");
        };
        println!(rt; "{text}")?;
    }
    Ok(())
}

fn schedule(alloc: Global, rows: &[&str]) -> Result<Vec<WorldEvent>> {
    let mut schedule = Vec::new(alloc);
    for row in rows {
        let words = split(alloc, row)?;
        if !words.is_empty() && !is_asked(words.as_slice()) {
            schedule.push(event(alloc, words.as_slice())?)?;
        }
    }
    Ok(schedule)
}

// Whether a row asks one of the ends.
fn is_asked(words: &[&str]) -> bool {
    match words {
        ["client" | "server", words @ ..] => is_question(words),
        _ => false,
    }
}

fn asked(alloc: Global, world: &mut World<'_>, words: &[&str]) -> Result<String> {
    match words {
        ["client", words @ ..] => question(alloc, &mut world.client, words),
        ["server", words @ ..] => question(alloc, &mut world.server, words),
        _ => bail!("no end is asked"),
    }
}

// What happens, by the words of a row.
fn event(alloc: Global, words: &[&str]) -> Result<WorldEvent> {
    let event = match words {
        ["client", words @ ..] => at_client(client_input(alloc, words)?),
        ["server", words @ ..] => at_server(server_input(alloc, words)?),
        ["to-server", n] => Some(WorldEvent::ToServer(number(n)? as usize)),
        ["to-client", n] => Some(WorldEvent::ToClient(number(n)? as usize)),
        _ => None,
    };
    Ok(event.context("no such thing happens in a world")?)
}

// A client's act as an event, where it is one.
fn at_client(input: ClientInput) -> Option<WorldEvent> {
    match input {
        ClientInput::Call { request, form } => Some(WorldEvent::Call { request, form }),
        ClientInput::Locate { request, form } => Some(WorldEvent::Locate { request, form }),
        ClientInput::Cancel { id, order } => Some(WorldEvent::Cancel { id, order }),
        ClientInput::Send(id) => Some(WorldEvent::SendClient(id)),
        ClientInput::Feed(_) | ClientInput::Take(_) | ClientInput::Close => None,
    }
}

// A server's act likewise.
fn at_server(input: ServerInput) -> Option<WorldEvent> {
    match input {
        ServerInput::Answer { reply, form } => Some(WorldEvent::Answer { reply, form }),
        ServerInput::AnswerLocate { id, here, order } => {
            Some(WorldEvent::AnswerLocate { id, here, order })
        }
        ServerInput::Send(id) => Some(WorldEvent::SendServer(id)),
        ServerInput::Feed(_) | ServerInput::Take(_) | ServerInput::Close => None,
    }
}
