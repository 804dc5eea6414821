//! What a session comes to, and what it leaves where its input ends. Its meaning is
//! specs/Session/Endings.antt: change both.
ghost use Rattle.std.specs.Prelude.{◌≡◌, IfOk};
ghost use Rattle.giop_commands.specs.Session.Endings.{Ends, open_ids};

use crate::session::streaming::{Streamed, is_over_at};
use giop_end::{End, SessionFault};
use giop_show::status::Status;
use std::alloc::{AllocError, Global};

/// What a session came to.
#[derive(Debug, Drop)]
pub struct Ending {
    /// Its status.
    pub status: Status,
    /// Where no fault ended it, the ids of the calls that are open, in ascending order; else none.
    pub open_calls: Vec<u32>,
    /// Where no fault ended it, how many octets were read that are no whole message; else 0.
    pub rest: usize,
}

/// What the session of an end comes to with a status, where this fault is told of it, if one is.
pub fn ending_of<R: Streamed>(
    alloc: Global,
    end: &End<'_, R>,
    fault: Option<SessionFault>,
    status: Status,
) -> Result<Ending, AllocError>
    ensures status { IfOk result (λ ending. ending.status ≡ status) }
    ensures ends { IfOk result (Ends (R.closed end.now.calls.rule) fault end.now.calls.table
        end.now.framer) }
{
    if fault.is_some() {
        return Ok(Ending {
            status,
            open_calls: Vec::new(alloc),
            rest: 0,
        });
    }
    Ok(Ending {
        status,
        open_calls: open_ids(alloc, end)?,
        rest: end.rest(),
    })
}

/// The ids of the calls that aren't over, in ascending order.
pub fn open_ids<R: Streamed>(alloc: Global, end: &End<'_, R>) -> Result<Vec<u32>, AllocError>
    ensures { IfOk result (λ ids. ids.items
        ≡ open_ids (R.closed end.now.calls.rule) end.now.calls.table) }
{
    let mut ids = end.ids(alloc)?;
    ids.retain(|id| !is_over_at(end, *id));
    Ok(ids)
}
