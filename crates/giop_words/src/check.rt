//! The words of `check`. A change here is one in docs/giopctl.md and tests/program too.
ghost use Rattle.std.specs.Prelude.{◌+◌, ◌≤◌};
ghost use Rattle.giop_words.specs.Inputs.{input, inputs_among};

mod help;

use crate::check::help::CHECK_HELP;
use crate::words::file::{FileWord, Files, INTERFACE, input, inputs_among, once};
use crate::words::form::{JSON, JSON_NUMBERS, lines_of};
use crate::words::limit::{CALLS_LIMIT, GATHERED_LIMIT, LimitWords, MESSAGE_LIMIT, limits_of};
use crate::words::row::{CommandRow, Needed, Place, Row, Takes};
use clap::ArgMatches;
use giop_forms::LineForm;

/// What `check` is asked for.
#[derive(Debug, Drop)]
pub struct CheckWords<'a> {
    /// The files of interfaces.
    pub interfaces: Vec<FileWord<'a>>,
    /// The file's name, or `-` for the standard input.
    pub file: &'a str,
    /// What the end that hears it holds at most.
    pub limits: LimitWords,
    /// Whether what can't be decoded is refused.
    pub strict: bool,
    /// The form of its lines.
    pub form: LineForm,
    pub ghost once: { inputs_among interfaces.items + input file.now ≤ 1 },
}

// The option by which more is refused.
const STRICT: Row = Row {
    name: "strict",
    place: Place::Flag,
    needed: Needed::No,
    takes: Takes::Text,
    help: "What can't be decoded is refused: status 1",
};

// The file's argument.
const FILE: Row = Row {
    name: "FILE",
    place: Place::Argument,
    needed: Needed::Yes,
    takes: Takes::Text,
    help: "A file of what a client sent, or - for the standard input",
};

/// The command `check`.
pub(crate) const CHECK: CommandRow = CommandRow {
    name: "check",
    about: "Shows what becomes of the calls of a file",
    help: CHECK_HELP,
    rows: &[
        INTERFACE,
        JSON,
        JSON_NUMBERS,
        STRICT,
        MESSAGE_LIMIT,
        CALLS_LIMIT,
        GATHERED_LIMIT,
        FILE,
    ],
};

/// What `check` is asked for with these files, or what is wrong with a word.
pub(crate) fn check_words<'a>(
    matches: &ArgMatches<'a>,
    interfaces: Files<'a>,
) -> Result<Option<CheckWords<'a>>, &'static str> {
    let limits = limits_of(matches)?;
    let interfaces = interfaces?;
    let Some(file) = matches.get_str("FILE") else {
        return Ok(None);
    };
    once(inputs_among(interfaces.as_slice()), input(file))?;
    let strict = matches.get_flag("strict");
    Ok(Some(CheckWords {
        interfaces,
        file,
        limits,
        strict,
        form: lines_of(matches),
    }))
}
