//! What the command line asks for. A change here is one in docs/giopctl.md and tests/program too.
ghost use Rattle.std.specs.Prelude.{IfOk, IfSome};
ghost use Rattle.giop_words.specs.Task.{ReadsOnce};

use crate::call::{CALL, CallWords, call_words, values_of};
use crate::check::{CHECK, CheckWords, check_words};
use crate::convert::{ConvertKind, convert_command, convert_words};
use crate::dump::{DUMP, DumpWords, dump_words};
use crate::locate::{LOCATE, locate_words};
use crate::ping::PING;
use crate::serve::{ServeWords, serve_command, serve_words};
use crate::trace::{TRACE, TraceWords, trace_words};
use crate::words::file::file_words;
use crate::words::object::{ObjectWords, object_words};
use crate::words::row::{CommandRow, command_of};
use clap::error::ErrorKind;
use clap::{ArgMatches, Command, Error};
use std::alloc::{AllocError, Global};

/// What the command line asks for.
#[derive(Debug, Drop)]
pub enum Task<'a> {
    /// Show each message of a file.
    Dump(DumpWords<'a>),
    /// Show what becomes of the calls of a file.
    Check(CheckWords<'a>),
    /// Show each call of a connection.
    Trace(TraceWords<'a>),
    /// Write what a file holds in another form.
    Convert {
        /// The file's name, or `-` for the standard input.
        file: &'a str,
        /// From what, and into what.
        kind: ConvertKind<'a>,
    },
    /// Call operations of an object.
    Call(CallWords<'a>),
    /// Ask where an object is.
    Locate(ObjectWords<'a>),
    /// Ask an object whether it is there.
    Ping(ObjectWords<'a>),
    /// Serve an object.
    Serve(ServeWords<'a>),
}

const STATUSES: &str = "\
Exit statuses:
  0  done
  1  the input was refused
  2  usage
  3  reading or writing failed
  4  out of memory

Examples:
  giopctl dump examples/ping.giop
  giopctl check --interface examples/calculator.json examples/add.giop
  giopctl convert ior examples/printer.ior
  giopctl serve --port 2810 --interface examples/calculator.json --answers examples/answers.json \
--key 6b
  giopctl call --target corbaloc::1.2@127.0.0.1:2810/k --interface examples/calculator.json \
examples/calls.json
  giopctl ping --target corbaloc::1.2@127.0.0.1:2810/k";

/// What the words ask for, of which the first is the program's name. There is no task where they
/// are refused or ask for help or the version: then the error has the text to print.
pub fn task_of<'a>(alloc: Global, words: &'a [String]) -> Result<Option<Task<'a>>, Error>
    ensures once { IfOk result (λ task. IfSome task ReadsOnce) }
{
    let matches = giopctl(alloc)?.try_get_matches_from(words)?;
    match file_task(alloc, &matches)? {
        Some(task) => Ok(Some(task)),
        None => object_task(alloc, &matches),
    }
}

// What is asked for of a file, if that is.
fn file_task<'a>(alloc: Global, matches: &ArgMatches<'a>) -> Result<Option<Task<'a>>, Error>
    ensures { IfOk result (λ task. IfSome task ReadsOnce) }
{
    if let Some(dump) = matches.subcommand_matches("dump") {
        return dump_task(alloc, dump);
    }
    if let Some(check) = matches.subcommand_matches("check") {
        return check_task(alloc, check);
    }
    if let Some(trace) = matches.subcommand_matches("trace") {
        return trace_task(alloc, trace);
    }
    match matches.subcommand_matches("convert") {
        Some(convert) => convert_task(alloc, convert),
        None => Ok(None),
    }
}

// What is asked for of an object, if that is.
fn object_task<'a>(alloc: Global, matches: &ArgMatches<'a>) -> Result<Option<Task<'a>>, Error>
    ensures { IfOk result (λ task. IfSome task ReadsOnce) }
{
    if let Some(call) = matches.subcommand_matches("call") {
        return call_task(alloc, call);
    }
    if let Some(locate) = matches.subcommand_matches("locate") {
        return locate_task(alloc, locate);
    }
    if let Some(ping) = matches.subcommand_matches("ping") {
        return ping_task(alloc, ping);
    }
    match matches.subcommand_matches("serve") {
        Some(serve) => serve_task(alloc, serve),
        None => Ok(None),
    }
}

fn dump_task<'a>(alloc: Global, dump: &ArgMatches<'a>) -> Result<Option<Task<'a>>, Error>
    ensures { IfOk result (λ task. IfSome task ReadsOnce) }
{
    match dump_words(dump) {
        Ok(Some(words)) => Ok(Some(Task::Dump(words))),
        Ok(None) => Ok(None),
        Err(wrong) => Err(usage_error(alloc, wrong)?),
    }
}

fn check_task<'a>(alloc: Global, check: &ArgMatches<'a>) -> Result<Option<Task<'a>>, Error>
    ensures { IfOk result (λ task. IfSome task ReadsOnce) }
{
    match check_words(check, file_words(alloc, check, "interface")?) {
        Ok(Some(words)) => Ok(Some(Task::Check(words))),
        Ok(None) => Ok(None),
        Err(wrong) => Err(usage_error(alloc, wrong)?),
    }
}

fn trace_task<'a>(alloc: Global, trace: &ArgMatches<'a>) -> Result<Option<Task<'a>>, Error>
    ensures { IfOk result (λ task. IfSome task ReadsOnce) }
{
    match trace_words(trace, file_words(alloc, trace, "interface")?) {
        Ok(Some(words)) => Ok(Some(Task::Trace(words))),
        Ok(None) => Ok(None),
        Err(wrong) => Err(usage_error(alloc, wrong)?),
    }
}

fn convert_task<'a>(alloc: Global, convert: &ArgMatches<'a>) -> Result<Option<Task<'a>>, Error>
    ensures { IfOk result (λ task. IfSome task ReadsOnce) }
{
    match convert_words(convert) {
        Ok(Some(words)) => Ok(Some(Task::Convert {
            file: words.file,
            kind: words.kind,
        })),
        Ok(None) => Ok(None),
        Err(wrong) => Err(usage_error(alloc, wrong)?),
    }
}

fn call_task<'a>(alloc: Global, call: &ArgMatches<'a>) -> Result<Option<Task<'a>>, Error>
    ensures { IfOk result (λ task. IfSome task ReadsOnce) }
{
    let interfaces = file_words(alloc, call, "interface")?;
    match call_words(call, interfaces, values_of(alloc, call)?) {
        Ok(words) => Ok(Some(Task::Call(words))),
        Err(wrong) => Err(usage_error(alloc, wrong)?),
    }
}

fn locate_task<'a>(alloc: Global, locate: &ArgMatches<'a>) -> Result<Option<Task<'a>>, Error>
    ensures { IfOk result (λ task. IfSome task ReadsOnce) }
{
    match locate_words(locate) {
        Ok(words) => Ok(Some(Task::Locate(words))),
        Err(wrong) => Err(usage_error(alloc, wrong)?),
    }
}

fn ping_task<'a>(alloc: Global, ping: &ArgMatches<'a>) -> Result<Option<Task<'a>>, Error>
    ensures { IfOk result (λ task. IfSome task ReadsOnce) }
{
    match object_words(ping) {
        Ok(words) => Ok(Some(Task::Ping(words))),
        Err(wrong) => Err(usage_error(alloc, wrong)?),
    }
}

fn serve_task<'a>(alloc: Global, serve: &ArgMatches<'a>) -> Result<Option<Task<'a>>, Error>
    ensures { IfOk result (λ task. IfSome task ReadsOnce) }
{
    let interfaces = file_words(alloc, serve, "interface")?;
    let answers = file_words(alloc, serve, "answers")?;
    match serve_words(serve, interfaces, answers) {
        Ok(words) => Ok(Some(Task::Serve(words))),
        Err(wrong) => Err(usage_error(alloc, wrong)?),
    }
}

// The error of a word that its argument doesn't take.
fn usage_error(alloc: Global, wrong: &str) -> Result<Error, AllocError> {
    let mut command = giopctl(alloc)?;
    command.error(ErrorKind::ValueValidation, wrong)
}

fn giopctl<'a>(alloc: Global) -> Result<Command<'a>, AllocError> {
    let command = Command::new(alloc, "giopctl")
        .about(
            "Shows what GIOP messages, references and CDR values hold, checks sessions, calls and serves",
        )
        .version("0.1.0")
        .subcommand_required(true)
        .arg_required_else_help(true)
        .after_help(STATUSES);
    let command = with_each(alloc, command, &[DUMP, CHECK, TRACE])?.subcommand(convert_command(
        alloc,
    )?)?;
    with_each(alloc, command, &[CALL, LOCATE, PING])?.subcommand(serve_command(alloc)?)
}

// A command with those of these rows.
fn with_each<'a>(
    alloc: Global,
    command: Command<'a>,
    rows: &[CommandRow],
) -> Result<Command<'a>, AllocError> {
    let mut all = command;
    for row in rows {
        all = all.subcommand(command_of(alloc, *row)?)?;
    }
    Ok(all)
}
