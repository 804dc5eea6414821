//! A session of calls that are given at once, over a connection of its own.
ghost use Rattle.std.specs.Prelude.{IfOk};
ghost use Rattle.giop_connections.specs.Carried.{IsCarriedOut};

use giop_asked_calls::calls::CallLine;
use giop_calling::call::streaming::call_stream;
use giop_calling::{Calling, call_over};
use giop_commands::session::given::Pipes;
use giop_commands::{Ending, Endpoint};
use giop_connections::connect;
use giop_files::files::OUTPUT_BUFFER;
use giop_show::failure::Failure;
use giop_words::Telling;
use std::alloc::Global;
use std::io;
use std::io::{BufWriter, Read, Write};

/// Makes calls in a session with the object of an endpoint, and tells them. Where nothing comes or
/// goes for so many seconds, if any are given, it fails.
pub(crate) fn call_at(
    rt: &HostRuntime,
    endpoint: &Endpoint,
    timeout: Option<u32>,
    telling: Telling,
    calling: Calling<'_>,
    calls: Vec<CallLine>,
) -> Result<Ending, Failure>
    ensures { IfOk result (λ ending. IsCarriedOut ending.status) }
{
    let link = connect(rt, endpoint, timeout)?;
    let out = BufWriter::with_capacity(rt.alloc(), OUTPUT_BUFFER, io::writer(rt))?;
    let mut pipes = Pipes {
        reader: &link,
        writer: &link,
        out,
    };
    call_by(rt.alloc(), telling, calling, calls, &mut pipes)
}

// Makes calls over pipes, and has all that is told written.
#[tactic(auto, using(crate::proofs::CarriedLemmas::calls_carried, crate::proofs::CarriedLemmas::calls_stream_carried))]
fn call_by<R: Read, W: Write, O: Write>(
    alloc: Global,
    telling: Telling,
    calling: Calling<'_>,
    calls: Vec<CallLine>,
    pipes: &mut Pipes<R, W, O>,
) -> Result<Ending, Failure>
    ensures { IfOk result (λ ending. IsCarriedOut ending.status) }
{
    let ending = match telling {
        Telling::AtTheEnd => call_over(alloc, calling, calls, pipes)?,
        Telling::WhenOver => call_stream(alloc, calling, calls, pipes)?,
    };
    pipes.out.flush()?;
    Ok(ending)
}
