//! The program giopctl: it shows what files of GIOP messages hold, checks sessions, writes
//! references and values in another form, and calls and serves objects.
#![tactic(auto)]

mod commands;

use commands::{check, trace};
use giop_dialing::{call, locate, ping};
use giop_files::report;
use giop_reading::{convert, dump};
use giop_show::status::Status;
use giop_words::{Task, task_of};
use std::process::ExitCode;
use std::{env, io};

fn main(rt: HostRuntime) -> ExitCode {
    ExitCode::from(run(&rt).number())
}

fn run(rt: &HostRuntime) -> Status {
    let words = match words(rt) {
        Ok(words) => words,
        Err(error) => return report::command_line_status(rt, &error),
    };
    match task_of(rt.alloc(), words.as_slice()) {
        Ok(Some(Task::Dump(words))) => dump::dump(rt, words),
        Ok(Some(Task::Check(words))) => check::check(rt, &words),
        Ok(Some(Task::Trace(words))) => trace::trace(rt, &words),
        Ok(Some(Task::Convert { file, kind })) => convert::convert(rt, file, kind),
        Ok(Some(Task::Call(words))) => call::call(rt, words),
        Ok(Some(Task::Locate(words))) => locate::locate(rt, words),
        Ok(Some(Task::Ping(words))) => ping::ping(rt, words),
        Ok(Some(Task::Serve(words))) => giop_listening::serve(rt, &words),
        Ok(None) => Status::Usage,
        Err(error) => report::usage_status(rt, &error),
    }
}

// The words of the command line, the program's name first.
fn words(rt: &HostRuntime) -> io::Result<Vec<String>> {
    Ok(env::args(rt)?.collect(rt.alloc())?)
}
