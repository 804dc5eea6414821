//! giopctl's commands `dump` and `convert` as a program of their own. It stands on no calls and no
//! end of a connection, so it is built in less than half the time: ./giopctl runs it until giopctl
//! itself is built.
#![tactic(auto)]

use giop_files::report;
use giop_reading::{convert, dump};
use giop_show::status::Status;
use giop_words::{Task, task_of};
use std::process::ExitCode;
use std::{env, io};

fn main(rt: HostRuntime) -> ExitCode {
    ExitCode::from(run(&rt).number())
}

fn run(rt: &HostRuntime) -> Status {
    let words = match words(rt) {
        Ok(words) => words,
        Err(error) => return report::command_line_status(rt, &error),
    };
    match task_of(rt.alloc(), words.as_slice()) {
        Ok(Some(Task::Dump(words))) => dump::dump(rt, words),
        Ok(Some(Task::Convert { file, kind })) => convert::convert(rt, file, kind),
        Ok(_) => other(rt),
        Err(error) => report::usage_status(rt, &error),
    }
}

// That another command is asked for.
fn other(rt: &HostRuntime) -> Status {
    let _ = eprintln!(rt; "giopctl: this program has dump and convert alone");
    Status::Usage
}

// The words of the command line, the program's name first.
fn words(rt: &HostRuntime) -> io::Result<Vec<String>> {
    Ok(env::args(rt)?.collect(rt.alloc())?)
}
