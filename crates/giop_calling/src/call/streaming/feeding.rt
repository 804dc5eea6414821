//! `call --stream` with calls that come as lines: they are read while the session goes on, so
//! memory is taken for the open calls and for what one read gave. Its meaning is
//! specs/Call/Feeding.antt: change both.
ghost use Rattle.std.specs.Prelude.{◌≡◌, ◌&&◌, None, IfOk, OnOk};
ghost use Rattle.giop_calling.specs.Call.Calling.{IsNew};
ghost use Rattle.giop_calling.specs.Call.Feeding.{FedEndOver, FedOver, Feeds, feeding};
ghost use Rattle.giop_asked_calls.specs.Lines.{feed_at};
ghost use Rattle.giop_commands.specs.Session.Traffic.{traffic};

use crate::call::given::Calling;
use crate::call::streaming::turns::turn_of_calls;
use crate::call::streaming::{tell_end, tell_open};
use giop_asked_calls::feed::LineFeed;
use giop_asked_calls::lines::CallLines;
use giop_commands::session::ending::Ending;
use giop_commands::session::given::{Pipes, Showing};
use giop_commands::session::{SessionTurn, TURNS};
use giop_end::{ClientEnd, SessionFault};
use giop_show::failure::Failure;
use giop_types::Interface;
use std::alloc::Global;
use std::io::{Read, Write};

/// Calls as `call_stream` does, with the calls of lines of JSON, a call a line. Where no call is
/// left that came, lines are read, until one is there: whenever there is room, or where a read may
/// wait, when no call is open. What one read gave is held, and the octets of a line that hasn't
/// ended.
///
/// A line that is refused ends the lines. The calls before it are made, and told as any; then
/// `feed` says why it is refused. At the end there are the lines of the calls that are open, and of
/// those that came and weren't made.
///
/// It is `Done` where all calls went well and the lines are over, else as `call_stream` is. Where
/// something fails, what failed is returned, and what is left has its lines before; where that is
/// reading the lines, it is `Input`.
pub fn call_fed<S: Read + Drop, R: Read, W: Write, O: Write>(
    alloc: Global,
    calling: Calling<'_>,
    source: &mut LineFeed<S>,
    pipes: &mut Pipes<R, W, O>,
) -> Result<Ending, Failure>
    ensures { IfOk result (FedEndOver calling.entry (feeding S.remaining source.old source.new)
        (traffic R.remaining W.contents O.contents pipes.old pipes.new)) }
{
    let mut end = ClientEnd::new(alloc, calling.interface, calling.limits);
    fed_with(alloc, &mut end, calling, source, pipes)
}

// Calls by a new end, and prints each call when it is over.
fn fed_with<S: Read + Drop, R: Read, W: Write, O: Write>(
    alloc: Global,
    end: &mut ClientEnd<'_>,
    calling: Calling<'_>,
    source: &mut LineFeed<S>,
    pipes: &mut Pipes<R, W, O>,
) -> Result<Ending, Failure>
    requires { IsNew calling end.old }
    ensures { IfOk result (FedEndOver calling.entry (feeding S.remaining source.old source.new)
        (traffic R.remaining W.contents O.contents pipes.old pipes.new)) }
{
    let (lines, interface) = (calling.lines, calling.interface);
    let showing = Showing { lines, interface };
    let mut well = true;
    match stream_fed(alloc, end, calling, source, &mut well, pipes) {
        Ok(refused) => {
            let all = ended_well(well, &source.lines);
            let left = &source.lines.calls;
            tell_end(alloc, showing, end, left, all, refused, &mut pipes.out)
        }
        Err(failure) => {
            let left = &source.lines.calls;
            tell_open(alloc, showing, end, left, None, &mut pipes.out)?;
            Err(failure)
        }
    }
}

// Whether all calls that were told went well, and the lines are over.
fn ended_well(well: bool, lines: &CallLines) -> bool
    ensures { result ≡ (well && lines.now.is_over) }
{
    well && lines.is_over
}

// Reads lines, makes calls, takes turns, and tells the calls that are over, until none is left and
// the lines are over, the input ends or the end fails. Returns the fault of a call that was
// refused, at which it stops.
fn stream_fed<S: Read + Drop, R: Read, W: Write, O: Write>(
    alloc: Global,
    end: &mut ClientEnd<'_>,
    calling: Calling<'_>,
    source: &mut LineFeed<S>,
    well: &mut bool,
    pipes: &mut Pipes<R, W, O>,
) -> Result<Option<SessionFault>, Failure>
    requires interface { end.old.interface.now ≡ calling.interface.now }
    requires limits { end.old.limits ≡ calling.limits }
    requires fault { end.old.fault ≡ None }
    ensures { IfOk result (λ refused. FedOver calling.entry
        (feeding S.remaining source.old source.new) end.old end.new well.old well.new refused
        (traffic R.remaining W.contents O.contents pipes.old pipes.new)) }
{
    'turns: for done in 0..TURNS {
        feed_next(alloc, end, calling.interface, source)?;
        let left = &mut source.lines.calls;
        if let SessionTurn::Ends(refused) = turn_of_calls(alloc, end, calling, left, well, pipes)? {
            return Ok(refused);
        }
    }
    Err(Failure::TurnsSpent)
}

// Reads lines until a call is there, or they are over; where a read may wait, only while no call is
// open.
fn feed_next<S: Read + Drop>(
    alloc: Global,
    end: &ClientEnd<'_>,
    interface: &Interface,
    source: &mut LineFeed<S>,
) -> Result<(), Failure>
    ensures feeds { OnOk result (Feeds interface.now source.old.waits end.now.calls (feed_at
        (S.remaining source.old.source) source.old) (feed_at (S.remaining source.new.source)
        source.new)) }
    ensures waits { source.new.waits ≡ source.old.waits }
{
    if source.waits && !end.ids(alloc)?.is_empty() {
        return Ok(());
    }
    source.read_on(alloc, interface)
}
