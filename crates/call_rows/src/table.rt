//! Rows of a table of calls: `ID EVENT..`, `take ID`, and questions. They are done one after the
//! other, or all events as one run.

use crate::ruled::{Ruled, entry_text};
use anyhow::{Context, Result, bail};
use giop_calls::CallFault;
use giop_mux::{Addressed, Mux, Refusal, StillOpen};
use rows::{Rows, number, print_rows, split};
use std::alloc::{AllocError, Global};
use std::fmt::Write;

type Outcome = Result<(), Refusal<CallFault>>;

/// Prints for each row what it came to, in a table of so many calls.
pub fn run<R: Ruled>(
    rt: &impl Print,
    alloc: Global,
    rule: R,
    calls: u32,
    rows: &[&str],
) -> Result<()> {
    let mut table = Table {
        mux: Mux::new(alloc, rule, calls),
        ran: None,
    };
    print_rows(rt, alloc, &mut table, rows)
}

/// Gives the table all events of the rows as one run. Then it prints for each row what it came to,
/// and the answers to questions.
pub fn run_at_once<R: Ruled>(
    rt: &impl Print,
    alloc: Global,
    rule: R,
    calls: u32,
    rows: &[&str],
) -> Result<()> {
    let mut mux = Mux::new(alloc, rule, calls);
    let mut outcomes = mux.apply_all(alloc, events::<R>(alloc, rows)?)?;
    outcomes.reverse();
    let ran = Some(outcomes);
    print_rows(rt, alloc, &mut Table { mux, ran }, rows)
}

fn events<R: Ruled>(alloc: Global, rows: &[&str]) -> Result<Vec<Addressed<R::Event>>> {
    let mut events = Vec::new(alloc);
    for row in rows {
        let words = split(alloc, row)?;
        if let [id, event @ ..] = words.as_slice() {
            if let Ok(id) = number(id) {
                let what = R::event(alloc, event)?;
                events.push(Addressed { id, what })?;
            }
        }
    }
    Ok(events)
}

// A table, and the outcomes of its run, the last first, where all events came in one.
#[derive(Drop)]
struct Table<R: Ruled> {
    mux: Mux<R>,
    ran: Option<Vec<Outcome>>,
}

impl<R: Ruled> Rows for Table<R> {
    fn line(&mut self, alloc: Global, words: &[&str]) -> Result<String> {
        match words {
            ["len"] => Ok(format!(in alloc; "{}", self.mux.len())?),
            ["empty"] => Ok(format!(in alloc; "{}", self.mux.is_empty())?),
            ["full"] => Ok(format!(in alloc; "{}", self.mux.is_full())?),
            ["shown"] => Ok(format!(in alloc; "{:?}", self.mux)?),
            ["ids"] => Ok(ids_text(alloc, self.mux.ids(alloc)?.as_slice())?),
            ["refusals"] => Ok(refusals_text(alloc)?),
            ["entry", id] => entry_text::<R>(alloc, self.mux.entry(number(id)?)),
            ["take", id] => match self.mux.take(number(id)?) {
                Ok(taken) => entry_text::<R>(alloc, taken.as_ref()),
                Err(fault) => Ok(format!(in alloc; "{fault}")?),
            },
            [id, event @ ..] => {
                let outcome = match &mut self.ran {
                    Some(outcomes) => outcomes.pop().context("the run has no outcome of it")?,
                    None => self.mux.apply(number(id)?, R::event(alloc, event)?),
                };
                outcome_text(alloc, outcome)
            }
            [] => bail!("no words"),
        }
    }
}

fn outcome_text(alloc: Global, outcome: Outcome) -> Result<String> {
    match outcome {
        Ok(()) => Ok("done".to_string(alloc)?),
        Err(refusal) => Ok(format!(in alloc; "{refusal}")?),
    }
}

fn ids_text(alloc: Global, ids: &[u32]) -> Result<String, AllocError> {
    let mut text = String::new(alloc);
    for id in ids {
        text.push_str(if text.is_empty() { "" } else { " " })?;
        write!(text, "{id}")?;
    }
    Ok(text)
}

// Each refusal with its number and its text, and that of an entry whose call is open.
fn refusals_text(alloc: Global) -> Result<String, AllocError> {
    let rule = Refusal::Rule(CallFault::NotOpen);
    let (full, memory): (Refusal<CallFault>, Refusal<CallFault>) = (
        Refusal::TooManyCalls,
        Refusal::NoMemory,
    );
    format!(in alloc;
        "{} {rule}; {} {full}; {} {memory}; {StillOpen}",
        rule.number(),
        full.number(),
        memory.number()
    )
}
