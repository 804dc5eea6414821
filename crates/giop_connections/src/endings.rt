//! What standard error says where a session ended, and the status that goes with it.
ghost use Rattle.std.specs.Prelude.{◌≡◌, true};
ghost use Rattle.giop_commands.specs.Session.Endings.{ending_status};
ghost use Rattle.giop_show.specs.Status.{failure_status};

mod counted;
mod open_calls;

use crate::endings::counted::Counted;
use crate::endings::open_calls::OpenCalls;
use giop_commands::Ending;
use giop_files::report::status_of;
use giop_show::failure::Failure;
use giop_show::status::Status;
use std::io::ErrorKind;

/// The status of calls to this peer. What is open where its input ended is printed, and a failure
/// as `status_of` prints it; where a timeout in seconds ended it, that is said in place of the
/// error.
pub fn call_status(
    rt: &impl Eprint,
    peer: &str,
    timeout: Option<u32>,
    ended: Result<Ending, Failure>,
) -> Status
    ensures { result ≡ ending_status ended }
{
    match ended {
        Ok(ending) => {
            if !ending.open_calls.is_empty() {
                print_left(rt, peer, &ending);
            }
            status_of(rt, peer, Ok(ending.status))
        }
        Err(failure) => {
            if print_silence(rt, peer, timeout, &failure) {
                return Status::InputOutput;
            }
            status_of(rt, peer, Err(failure))
        }
    }
}

/// The status of a connection that was served. What is open where its input ended is printed, and
/// how much of a message came; and a failure as `status_of` prints it.
pub fn serve_status(rt: &impl Eprint, peer: &str, ended: Result<Ending, Failure>) -> Status
    ensures { result ≡ ending_status ended }
{
    match ended {
        Ok(ending) => {
            print_left(rt, peer, &ending);
            status_of(rt, peer, Ok(ending.status))
        }
        Err(failure) => status_of(rt, peer, Err(failure)),
    }
}

// Prints which calls are open where a session ended, and how much of a message came.
fn print_left(rt: &impl Eprint, peer: &str, ending: &Ending) {
    if !ending.open_calls.is_empty() {
        let open = OpenCalls(ending.open_calls.as_slice());
        let _ = eprintln!(rt; "giopctl: {peer}: ended with {open}");
    }
    if ending.rest > 0 {
        let rest = Counted(ending.rest, "octet");
        let _ = eprintln!(rt; "giopctl: {peer}: ended within a message, of which {rest} came");
    }
}

// Prints that nothing came or went for so many seconds, where that is how it failed. Returns
// whether it is.
fn print_silence(rt: &impl Eprint, peer: &str, timeout: Option<u32>, failure: &Failure) -> bool
    ensures { result ≡ true → failure_status failure.now ≡ Status.InputOutput }
{
    match (timeout, failure) {
        (Some(seconds), Failure::Connection(error)) if error.kind() == ErrorKind::TimedOut => {
            let _ = eprintln!(rt; "giopctl: {peer}: nothing came or went for {seconds} s");
            true
        }
        _ => false,
    }
}
