//! The words of `dump`. A change here is one in docs/giopctl.md and tests/program too.
ghost use Rattle.std.specs.Prelude.{◌+◌, ◌≤◌, ◌^◌};
ghost use Rattle.std.specs.Option.{option_map_or};
ghost use Rattle.giop_words.specs.Inputs.{input};

mod help;

use crate::dump::help::DUMP_HELP;
use crate::words::file::{input, input_of, once};
use crate::words::form::{JSON, JSON_NUMBERS, lines_of};
use crate::words::limit::{GATHERED_LIMIT, MESSAGE_LIMIT, gathered_limit_of, message_limit_of};
use crate::words::row::{CommandRow, Needed, Place, Row, Takes};
use clap::ArgMatches;
use giop_forms::LineForm;

/// What `dump` is asked for.
#[derive(Clone, Copy, Debug)]
pub struct DumpWords<'a> {
    /// The name of the interface's file, or `-` for the standard input; `None` where heads alone
    /// are shown.
    pub interface: Option<&'a str>,
    /// The file's name, or `-` for the standard input.
    pub file: &'a str,
    /// The greatest message size, the header not counted.
    pub limit: u32,
    /// The most octets of all Requests of which a piece is still to come.
    pub gathered: u64,
    /// The form of its lines.
    pub form: LineForm,
    pub ghost bounded: { gathered ≤ 2 ^ 62 },
    pub ghost once: { option_map_or (λ name. input name.now) interface 0 + input file.now ≤ 1 },
}

// The option of an interface.
const INTERFACE: Row = Row {
    name: "interface",
    place: Place::Option("FILE"),
    needed: Needed::No,
    takes: Takes::Text,
    help: "The file of an interface, in JSON, by which bodies of Requests are shown",
};

// The file's argument.
const FILE: Row = Row {
    name: "FILE",
    place: Place::Argument,
    needed: Needed::Yes,
    takes: Takes::Text,
    help: "A file of GIOP messages, or - for the standard input",
};

/// The command `dump`.
pub(crate) const DUMP: CommandRow = CommandRow {
    name: "dump",
    about: "Shows each message of a file",
    help: DUMP_HELP,
    rows: &[
        INTERFACE,
        JSON,
        JSON_NUMBERS,
        MESSAGE_LIMIT,
        GATHERED_LIMIT,
        FILE,
    ],
};

/// What `dump` is asked for, or what is wrong with a word.
pub(crate) fn dump_words<'a>(
    matches: &ArgMatches<'a>,
) -> Result<Option<DumpWords<'a>>, &'static str> {
    let limit = message_limit_of(matches)?;
    let gathered = gathered_limit_of(matches)?;
    let Some(file) = matches.get_str("FILE") else {
        return Ok(None);
    };
    let interface = matches.get_str("interface");
    once(input_of(interface), input(file))?;
    Ok(Some(DumpWords {
        interface,
        file,
        limit,
        gathered,
        form: lines_of(matches),
    }))
}
