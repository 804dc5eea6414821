//! The words of `trace`. A change here is one in docs/giopctl.md and tests/program too.
ghost use Rattle.std.specs.Prelude.{◌+◌, ◌≤◌};
ghost use Rattle.std.specs.Option.{option_map_or};
ghost use Rattle.giop_words.specs.Inputs.{input, inputs_among};

mod help;

use crate::trace::help::TRACE_HELP;
use crate::words::file::{FileWord, Files, INTERFACE, input, input_of, inputs_among, once};
use crate::words::form::{JSON, JSON_NUMBERS, lines_of};
use crate::words::limit::{MESSAGE_LIMIT, message_limit_of};
use crate::words::row::{CommandRow, Needed, Place, Row, Takes};
use clap::ArgMatches;
use giop_forms::LineForm;

/// What `trace` is asked for.
#[derive(Debug, Drop)]
pub struct TraceWords<'a> {
    /// The files of interfaces.
    pub interfaces: Vec<FileWord<'a>>,
    /// The name of the file of what the client sent, or `-` for the standard input.
    pub client: &'a str,
    /// The name of the file of what the server sent, if it is given.
    pub server: Option<&'a str>,
    /// The greatest message size, the header not counted.
    pub limit: u32,
    /// The form of its lines.
    pub form: LineForm,
    pub ghost once: { inputs_among interfaces.items
        + (input client.now + option_map_or (λ name. input name.now) server 0) ≤ 1 },
}

// The argument of what the client sent.
const CLIENT: Row = Row {
    name: "CLIENT",
    place: Place::Argument,
    needed: Needed::Yes,
    takes: Takes::Text,
    help: "A file of what the client sent, or - for the standard input",
};

// The argument of what the server sent.
const SERVER: Row = Row {
    name: "SERVER",
    place: Place::Argument,
    needed: Needed::No,
    takes: Takes::Text,
    help: "A file of what the server sent, or -",
};

/// The command `trace`.
pub(crate) const TRACE: CommandRow = CommandRow {
    name: "trace",
    about: "Shows each call of a connection, and what it came to",
    help: TRACE_HELP,
    rows: &[INTERFACE, JSON, JSON_NUMBERS, MESSAGE_LIMIT, CLIENT, SERVER],
};

/// What `trace` is asked for with these files, or what is wrong with a word.
pub(crate) fn trace_words<'a>(
    matches: &ArgMatches<'a>,
    interfaces: Files<'a>,
) -> Result<Option<TraceWords<'a>>, &'static str> {
    let limit = message_limit_of(matches)?;
    let interfaces = interfaces?;
    let Some(client) = matches.get_str("CLIENT") else {
        return Ok(None);
    };
    let server = matches.get_str("SERVER");
    once(
        inputs_among(interfaces.as_slice()),
        input(client) + input_of(server),
    )?;
    let form = lines_of(matches);
    Ok(Some(TraceWords {
        interfaces,
        client,
        server,
        limit,
        form,
    }))
}
