//! The words of `call`. A change here is one in docs/giopctl.md and tests/program too.
ghost use Rattle.std.specs.Prelude.{◌+◌, ◌≤◌};
ghost use Rattle.std.proofs.Props.{props};
ghost use Rattle.giop_words.specs.Inputs.{input, inputs_among, target_input};
ghost use Rattle.giop_words.specs.Timeout.{IsTimeout};

mod help;

use crate::call::help::CALL_HELP;
use crate::words::file::{FileWord, Files, INTERFACE, input, inputs_among, once, target_input};
use crate::words::form::{JSON, JSON_NUMBERS, lines_of};
use crate::words::limit::{CALLS_LIMIT, GATHERED_LIMIT, LimitWords, MESSAGE_LIMIT, limits_of};
use crate::words::row::{CommandRow, Needed, Place, Row, Takes};
use crate::words::session::{
    LITTLE, PIECE, STREAM, SendingWords, TARGET, TIMEOUT, Telling, sending_of, telling_of,
    timeout_of,
};
use clap::ArgMatches;
use giop_forms::LineForm;
use std::alloc::{AllocError, Global};

/// What `call` is asked for.
#[derive(Debug, Drop)]
pub struct CallWords<'a> {
    /// The text of the object's reference, or a corbaloc; behind `@` the name of a file of it, or
    /// `-` for the standard input.
    pub target: &'a str,
    /// The files of interfaces.
    pub interfaces: Vec<FileWord<'a>>,
    /// The name of the file of the calls, or `-` for the standard input; or that of an operation,
    /// where there are values of its ins, or no such file.
    pub file: &'a str,
    /// The ins of that operation, each the JSON text of a value.
    pub values: Vec<&'a str>,
    /// When the calls are told.
    pub telling: Telling,
    /// Whether forwards are followed; not where calls are told when they are over.
    pub follow: bool,
    /// The form of their lines.
    pub lines: LineForm,
    /// For how many seconds nothing may come or go, 1 to 86,400; any number where it is `None`.
    pub timeout: Option<u32>,
    /// How Requests are sent.
    pub sending: SendingWords,
    /// What the end holds at most.
    pub limits: LimitWords,
    pub ghost timed: { IsTimeout timeout } by { Prim.hlevel props },
    pub ghost once: { inputs_among interfaces.items
        + (input file.now + target_input target.now) ≤ 1 },
}

// The option by which forwards are followed.
const FOLLOW: Row = Row {
    name: "follow",
    place: Place::Flag,
    needed: Needed::No,
    takes: Takes::Text,
    help: "A call that is forwarded is made again there, up to five times",
};

// The file's argument.
const FILE: Row = Row {
    name: "FILE",
    place: Place::Argument,
    needed: Needed::Yes,
    takes: Takes::Text,
    help: "The file of the calls, in JSON, or - for the standard input; or an operation's name",
};

// The arguments of an operation's ins.
const VALUE: Row = Row {
    name: "VALUE",
    place: Place::Arguments,
    needed: Needed::No,
    takes: Takes::Text,
    help: "The ins of that operation, each a JSON value",
};

/// The command `call`.
pub(crate) const CALL: CommandRow = CommandRow {
    name: "call",
    about: "Calls operations of an object, and shows the replies",
    help: CALL_HELP,
    rows: &[
        TARGET,
        INTERFACE,
        JSON,
        JSON_NUMBERS,
        STREAM,
        FOLLOW,
        TIMEOUT,
        PIECE,
        LITTLE,
        MESSAGE_LIMIT,
        CALLS_LIMIT,
        GATHERED_LIMIT,
        FILE,
        VALUE,
    ],
};

/// What `call` is asked for with these files and values, or what is wrong with a word.
pub(crate) fn call_words<'a>(
    matches: &ArgMatches<'a>,
    interfaces: Files<'a>,
    values: Vec<&'a str>,
) -> Result<CallWords<'a>, &'static str> {
    let interfaces = interfaces?;
    let sending = sending_of(matches)?;
    let limits = limits_of(matches)?;
    let (Some(target), Some(file)) = (matches.get_str("target"), matches.get_str("FILE")) else {
        return Err("--target and FILE are wanted");
    };
    once(
        inputs_among(interfaces.as_slice()),
        input(file) + target_input(target),
    )?;
    let (telling, follow) = (telling_of(matches), matches.get_flag("follow"));
    if follow && telling == Telling::WhenOver {
        return Err("--follow and --stream exclude each other");
    }
    Ok(CallWords {
        target,
        interfaces,
        file,
        values,
        telling,
        follow,
        lines: lines_of(matches),
        timeout: timeout_of(matches)?,
        sending,
        limits,
    })
}

/// The values that `call` is asked for behind an operation.
pub(crate) fn values_of<'a>(
    alloc: Global,
    matches: &ArgMatches<'a>,
) -> Result<Vec<&'a str>, AllocError> {
    match matches.get_strs("VALUE") {
        Some(values) => Vec::from_slice(alloc, values),
        None => Ok(Vec::new(alloc)),
    }
}
