//! Rows at one end.

use crate::shown::{is_question, question, table, told, written};
use crate::side::RowEnd;
use anyhow::{Result, bail};
use giop_session::laws::Answered;
use giop_session::{End, Hearing, SessionFault};
use rows::split;
use std::alloc::Global;

/// Does what each row says, one after the other, and hears octets in reads of so many at most.
/// Behind an act its answer is printed, what it put out, which is written, and the table.
pub fn run<E: RowEnd>(rt: &HostRuntime, end: E, read: usize, rows: &[&str]) -> Result<()> {
    let mut end = end;
    for row in rows {
        let text = done(rt.alloc(), &mut end, read, row)?;
        println!(rt; "{text}")?;
    }
    Ok(())
}

// The line of a row.
fn done<E: RowEnd>(alloc: Global, end: &mut E, read: usize, row: &str) -> Result<String> {
    let words = split(alloc, row)?;
    if words.is_empty() {
        return Ok(row.to_string(alloc)?);
    }
    if is_question(words.as_slice()) {
        return question(alloc, end, words.as_slice());
    }
    let answered = end.give(E::input(alloc, words.as_slice())?, read);
    let answer = told::<E>(alloc, &answered)?;
    let out = written(alloc, end)?;
    let table = table(alloc, end)?;
    Ok(format!(in alloc; "{answer}; {out}{table}")?)
}

/// Prints what an end that was given all that the rows say answered to each.
pub fn show_all<E: RowEnd>(
    rt: &HostRuntime,
    ran: (E, Vec<Answered<E::Entry>>),
    rows: &[&str],
) -> Result<()> {
    let alloc = rt.alloc();
    let (mut end, answers) = ran;
    let mut answers = answers.iter();
    for row in rows {
        let words = split(alloc, row)?;
        let text = if words.is_empty() {
            row.to_string(alloc)?
        } else if is_question(words.as_slice()) {
            question(alloc, &mut end, words.as_slice())?
        } else if let Some(answered) = answers.next() {
            told::<E>(alloc, answered)?
        } else {
            bail!("no answer");
        };
        println!(rt; "{text}")?;
    }
    Ok(())
}

/// All that the rows give an end.
pub fn inputs<E: RowEnd>(alloc: Global, rows: &[&str]) -> Result<Vec<E::Input>> {
    let mut inputs = Vec::new(alloc);
    for row in rows {
        let words = split(alloc, row)?;
        if !words.is_empty() && !is_question(words.as_slice()) {
            inputs.push(E::input(alloc, words.as_slice())?)?;
        }
    }
    Ok(inputs)
}

/// What an end answers that was done or refused.
pub fn answered<E>(told: Result<(), SessionFault>) -> Answered<E> {
    match told {
        Ok(()) => Answered::Done,
        Err(fault) => Answered::Refused(fault),
    }
}

/// Takes an entry out.
pub fn taken<S: Hearing>(end: &mut End<'_, S>, id: u32) -> Answered<S::Entry> {
    match end.take(id) {
        Ok(entry) => Answered::Taken(entry),
        Err(fault) => Answered::Refused(fault),
    }
}

/// Feeds octets, in reads of so many at most.
pub fn fed<S: Hearing>(end: &mut End<'_, S>, octets: &[u8], read: usize) -> Answered<S::Entry> {
    for piece in octets.chunks(read.max(1)) {
        if let Err(fault) = end.feed(piece) {
            return Answered::Refused(fault);
        }
    }
    Answered::Done
}

/// Up to so many of the octets that are put out are written.
pub fn write_off<S: Hearing>(end: &mut End<'_, S>, n: usize) {
    let n = n.min(end.outgoing().len());
    end.wrote(n);
}
