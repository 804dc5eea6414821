//! What is printed on standard error, and the status that goes with it.
ghost use Rattle.std.specs.Prelude.{◌≡◌, ◌≢◌, ◌⊎◌};
ghost use Rattle.std.specs.IoError.{error_kind};
ghost use Rattle.clap.specs.Words.{kind_of};
ghost use Rattle.giop_show.specs.Status.{answered_status};
ghost use Rattle.giop_files.specs.Report.{usage_status};

mod path_shown;
pub mod refusals;
pub mod texts;

use clap::error::ErrorKind as UsageKind;
use giop_show::failure::Failure;
use giop_show::status::{Limit, Status};
use std::io;
use std::io::ErrorKind;

/// The words of the command line can't be read: one is no UTF-8, or it is out of memory.
pub fn command_line_status(rt: &impl Eprint, error: &io::Error) -> Status
    ensures memory { error_kind error.now ≡ ErrorKind.OutOfMemory → result ≡ Status.Memory }
    ensures value { error_kind error.now ≢ ErrorKind.OutOfMemory → result ≡ Status.Usage }
{
    let _ = eprintln!(rt; "giopctl: the command line: {error}");
    match error.kind() {
        ErrorKind::OutOfMemory => Status::Memory,
        _ => Status::Usage,
    }
}

/// The words of the command line ask for help or the version, or for nothing that the program
/// knows.
pub fn usage_status(rt: &(impl Print + Eprint), error: &clap::Error) -> Status
    ensures { (result ≡ usage_status (kind_of error.now)) ⊎ (result ≡ Status.InputOutput) }
{
    if let Err(failed) = error.print(rt) {
        print_output_failure(rt, &failed);
        return Status::InputOutput;
    }
    match error.kind() {
        UsageKind::OutOfMemory => Status::Memory,
        _ if error.use_stderr() => Status::Usage,
        _ => Status::Done,
    }
}

/// The status of what a command on this file returned. A failure is printed, and where a limit was
/// passed the option that raises it.
pub fn status_of(rt: &impl Eprint, file: &str, answered: Result<Status, Failure>) -> Status
    ensures { result ≡ answered_status answered }
{
    let failure = match answered {
        Ok(status) => {
            print_passed_limit(rt, file, status);
            return status;
        }
        Err(failure) => failure,
    };
    match &failure {
        Failure::Memory => {
            let _ = eprintln!(rt; "giopctl: {failure}");
        }
        Failure::Input(_) | Failure::Connection(_) | Failure::TurnsSpent => {
            let _ = eprintln!(rt; "giopctl: {file}: {failure}");
        }
        Failure::Output(error) => print_output_failure(rt, error),
    }
    failure.status()
}

// Prints the option that raises the limit that was passed, if one was.
fn print_passed_limit(rt: &impl Eprint, file: &str, status: Status) {
    if let Status::LimitPassed(limit) = status {
        let _ = eprintln!(rt;
            "giopctl: {file}: {}; raise it by {limit}",
            passed_text(limit)
        );
    }
}

// What is said of a limit that was passed.
fn passed_text(limit: Limit) -> &'static str {
    match limit {
        Limit::Message => "a message is larger than its limit",
        Limit::Calls => "there are more calls than the limit",
        Limit::Gathered => "unfinished messages have more octets than the limit",
    }
}

// Prints that the standard output can't be written. Nothing is printed where nobody reads it any
// more.
fn print_output_failure(rt: &impl Eprint, error: &io::Error) {
    if error.kind() != ErrorKind::BrokenPipe {
        let _ = eprintln!(rt; "giopctl: standard output: {error}");
    }
}
