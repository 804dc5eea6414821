//! Pieces of calls and of answers, one of each id in turn.

use crate::commands::session::refusal;
use crate::failure::Failure;
use giop_calls::{ClientEntry, ClientRule, ServerEntry, ServerRule};
use giop_session::{End, Hearing, SessionFault};
use std::alloc::Global;

/// A side of a connection whose program puts out messages in pieces.
pub trait Sender: Hearing {
    /// How many pieces of a call with this entry aren't put out yet.
    fn left(entry: &Self::Entry) -> u32;

    /// Puts out the next piece of the message of an id.
    fn send(end: &mut End<'_, Self>, id: u32) -> Result<(), SessionFault>;
}

impl Sender for ClientRule {
    fn left(entry: &ClientEntry) -> u32 {
        entry.left()
    }

    fn send(end: &mut End<'_, ClientRule>, id: u32) -> Result<(), SessionFault> {
        end.send(id)
    }
}

impl Sender for ServerRule {
    fn left(entry: &ServerEntry) -> u32 {
        entry.left()
    }

    fn send(end: &mut End<'_, ServerRule>, id: u32) -> Result<(), SessionFault> {
        end.send(id)
    }
}

/// Puts out one piece of each id that has pieces left, in ascending order of the ids, and so on until
/// none is left. The answer is the fault of a refused one, at which it stops.
pub fn send_all<R: Sender>(
    alloc: Global,
    end: &mut End<'_, R>,
) -> Result<Option<SessionFault>, Failure> {
    let ids = end.ids(alloc)?;
    for _ in 0..most_left(end, ids.as_slice()) {
        if let Some(fault) = send_each(end, ids.as_slice())? {
            return Ok(Some(fault));
        }
    }
    Ok(None)
}

// How many pieces are left of the id that has the most of them.
fn most_left<R: Sender>(end: &End<'_, R>, ids: &[u32]) -> u32 {
    let mut most = 0;
    for id in ids {
        most = most.max(left_of(end, *id));
    }
    most
}

// How many pieces are left of an id.
fn left_of<R: Sender>(end: &End<'_, R>, id: u32) -> u32 {
    match end.entry(id) {
        Some(entry) => R::left(entry),
        None => 0,
    }
}

// One piece of each id that has some left.
fn send_each<R: Sender>(
    end: &mut End<'_, R>,
    ids: &[u32],
) -> Result<Option<SessionFault>, Failure> {
    for id in ids {
        if left_of(end, *id) == 0 {
            continue;
        }
        if let Err(fault) = R::send(end, *id) {
            return Ok(Some(refusal(fault)?));
        }
    }
    Ok(None)
}
