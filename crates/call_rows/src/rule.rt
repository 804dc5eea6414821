//! Rows of a rule by itself: `EVENT.. at ENTRY..`.

use crate::ruled::{Ruled, entry_text};
use anyhow::{Context, Result};
use giop_calls::{CallFault, Outcome};
use giop_msg::Reply;
use giop_mux::CallRule;
use rows::Rows;
use std::alloc::Global;

/// A rule by itself.
#[derive(Drop)]
pub struct ByItself<R: Ruled> {
    pub rule: R,
}

impl<R: Ruled> Rows for ByItself<R> {
    /// What the event came to, and the entry behind it; or what the call came to.
    fn line(&mut self, alloc: Global, words: &[&str]) -> Result<String> {
        let at = words.iter().position(|word| *word == "at");
        let at = at.context("a row is EVENT at ENTRY")?;
        let entry = R::entry(alloc, &words[at + 1..])?;
        match &words[..at] {
            ["outcome"] => outcome_text::<R>(alloc, &entry.context("no entry")?),
            event => step_text(alloc, self.rule, entry, R::event(alloc, event)?),
        }
    }
}

fn step_text<R: Ruled>(
    alloc: Global,
    rule: R,
    entry: Option<R::Entry>,
    event: R::Event,
) -> Result<String> {
    let step = rule.step(entry, event);
    let entry = entry_text::<R>(alloc, step.entry.as_ref())?;
    Ok(match step.outcome {
        Ok(()) => format!(in alloc; "done; {entry}")?,
        Err(fault) => format!(in alloc; "{fault}; {entry}")?,
    })
}

fn outcome_text<R: Ruled>(alloc: Global, entry: &R::Entry) -> Result<String> {
    Ok(match R::outcome(entry) {
        Outcome::Pending => "pending".to_string(alloc)?,
        Outcome::Cancelled => "cancelled".to_string(alloc)?,
        Outcome::OneWay => "oneway".to_string(alloc)?,
        Outcome::Replied(reply) => format!(in alloc; "replied {}", reply.body.status())?,
        Outcome::Located(status) => format!(in alloc; "located {status}")?,
        Outcome::Undecoded => "undecoded".to_string(alloc)?,
    })
}
