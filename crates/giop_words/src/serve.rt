//! The words of `serve`. A change here is one in docs/giopctl.md and tests/program too.
ghost use Rattle.std.specs.Prelude.{◌≡◌, ◌+◌, ◌≤◌, IfOk, IfSome, true};
ghost use Rattle.std.specs.Char.{is_ascii_hexdigit};
ghost use Rattle.std.specs.List.{list_all};
ghost use Rattle.giop_words.specs.Inputs.{inputs_among};
ghost use Rattle.giop_words.specs.Key.{is_hexadecimal, is_key};

mod help;

use crate::serve::help::SERVE_HELP;
use crate::words::file::{ANSWERS, FileWord, Files, INTERFACE, inputs_among, once};
use crate::words::form::{JSON, JSON_NUMBERS, lines_of};
use crate::words::limit::{CALLS_LIMIT, GATHERED_LIMIT, LimitWords, MESSAGE_LIMIT, limits_of};
use crate::words::number::short_number_of;
use crate::words::row::{CommandRow, Needed, Place, Row, Takes, command_of};
use crate::words::session::{LITTLE, PIECE, STREAM, SendingWords, Telling, sending_of, telling_of};
use clap::{ArgGroup, ArgMatches, Command};
use giop_forms::LineForm;
use std::alloc::{AllocError, Global};

/// An object key, as it stands on the command line.
#[derive(Clone, Copy, Debug)]
pub enum KeyWord<'a> {
    /// Pairs of hexadecimal digits.
    Hex(&'a str),
    /// A text, whose octets are the key.
    Text(&'a str),
}

/// What `serve` is asked for.
#[derive(Debug, Drop)]
pub struct ServeWords<'a> {
    /// The port, 1 to 65,535; 0 for one that is free.
    pub port: u16,
    /// The files of interfaces.
    pub interfaces: Vec<FileWord<'a>>,
    /// The files of answers.
    pub answers: Vec<FileWord<'a>>,
    /// The object key.
    pub key: KeyWord<'a>,
    /// The name of the file that the object's reference is written to, if one is given.
    pub ior_file: Option<&'a str>,
    /// The object's type id, if one is given; it may be empty.
    pub type_id: Option<&'a str>,
    /// How many connections are served, 1 to 65,535.
    pub connections: u32,
    /// When the calls are told.
    pub telling: Telling,
    /// The form of their lines.
    pub lines: LineForm,
    /// How Replies are sent.
    pub sending: SendingWords,
    /// What the end of each connection holds at most.
    pub limits: LimitWords,
    pub ghost keyed: { is_key key ≡ true },
    pub ghost served: { (1 ≤ connections) × (connections ≤ 65535) },
    pub ghost once: { inputs_among interfaces.items + inputs_among answers.items ≤ 1 },
}

// The option of the port.
const PORT: Row = Row {
    name: "port",
    place: Place::Option("N"),
    needed: Needed::Yes,
    takes: Takes::Number(0, 65_535),
    help: "The port that is listened at, on 127.0.0.1; 0 for one that is free",
};

// The option of the object's key in digits.
const KEY: Row = Row {
    name: "key",
    place: Place::Option("HEX"),
    needed: Needed::No,
    takes: Takes::Text,
    help: "The object key, in hexadecimal digits",
};

// The option of the object's key as a text.
const KEY_TEXT: Row = Row {
    name: "key-text",
    place: Place::Option("TEXT"),
    needed: Needed::No,
    takes: Takes::Text,
    help: "The object key, as a text, in place of --key",
};

// The option of the file of the object's reference.
const IOR_FILE: Row = Row {
    name: "ior-file",
    place: Place::Option("FILE"),
    needed: Needed::No,
    takes: Takes::Text,
    help: "The file that the object's reference is written to",
};

// The option of the object's type.
const TYPE_ID: Row = Row {
    name: "type-id",
    place: Place::Option("ID"),
    needed: Needed::No,
    takes: Takes::Text,
    help: "The object's type id, in place of the id that the interface has",
};

// The option of how many connections are served.
const CONNECTIONS: Row = Row {
    name: "connections",
    place: Place::Option("N"),
    needed: Needed::Default("1"),
    takes: Takes::Number(1, 65_535),
    help: "How many connections are served, one after the other",
};

/// The command `serve`, but that one of both keys is wanted.
const SERVE: CommandRow = CommandRow {
    name: "serve",
    about: "Answers the calls of one object",
    help: SERVE_HELP,
    rows: &[
        PORT,
        INTERFACE,
        ANSWERS,
        KEY,
        KEY_TEXT,
        IOR_FILE,
        TYPE_ID,
        CONNECTIONS,
        JSON,
        JSON_NUMBERS,
        STREAM,
        PIECE,
        LITTLE,
        MESSAGE_LIMIT,
        CALLS_LIMIT,
        GATHERED_LIMIT,
    ],
};

/// The command `serve`.
pub(crate) fn serve_command<'a>(alloc: Global) -> Result<Command<'a>, AllocError> {
    let one_key = ArgGroup::new(alloc, "one-key")
        .required(true)
        .arg("key")?
        .arg("key-text")?;
    command_of(alloc, SERVE)?.group(one_key)
}

/// What `serve` is asked for with these files, or what is wrong with a word.
pub(crate) fn serve_words<'a>(
    matches: &ArgMatches<'a>,
    interfaces: Files<'a>,
    answers: Files<'a>,
) -> Result<ServeWords<'a>, &'static str> {
    let interfaces = interfaces?;
    let answers = answers?;
    let sending = sending_of(matches)?;
    let limits = limits_of(matches)?;
    let Some(port) = port_of(matches) else {
        return Err("--port is a number from 0 to 65535, in decimal digits");
    };
    let Some(connections) = connections_of(matches) else {
        return Err("--connections is a number from 1 to 65535, in decimal digits");
    };
    once(
        inputs_among(interfaces.as_slice()),
        inputs_among(answers.as_slice()),
    )?;
    Ok(ServeWords {
        port,
        interfaces,
        answers,
        key: key_of(matches)?,
        ior_file: matches.get_str("ior-file"),
        type_id: matches.get_str("type-id"),
        connections,
        telling: telling_of(matches),
        lines: lines_of(matches),
        sending,
        limits,
    })
}

// The object key, of which there is one word.
fn key_of<'a>(matches: &ArgMatches<'a>) -> Result<KeyWord<'a>, &'static str>
    ensures { IfOk result (λ key. is_key key ≡ true) }
{
    match (matches.get_str("key"), matches.get_str("key-text")) {
        (Some(digits), None) if is_hexadecimal(digits) => Ok(KeyWord::Hex(digits)),
        (Some(_), None) => Err("--key is pairs of hexadecimal digits"),
        (None, Some(text)) => Ok(KeyWord::Text(text)),
        _ => Err("one of --key and --key-text is wanted"),
    }
}

fn port_of(matches: &ArgMatches) -> Option<u16> {
    u16::try_from(short_number_of(matches, "port")?).ok()
}

fn connections_of(matches: &ArgMatches) -> Option<u32>
    ensures { IfSome result (λ connections. (1 ≤ connections) × (connections ≤ 65535)) }
{
    match short_number_of(matches, "connections")? {
        connections if connections > 0 && connections <= 65_535 => Some(connections),
        _ => None,
    }
}

// Whether a text is pairs of hexadecimal digits.
fn is_hexadecimal(text: &str) -> bool
    ensures { result ≡ is_hexadecimal text.now }
{
    text.len() % 2 == 0 && are_digits(text.as_bytes())
}

// Whether octets are hexadecimal digits.
fn are_digits(octets: &[u8]) -> bool
    ensures { result ≡ list_all is_ascii_hexdigit octets.now }
{
    octets.iter().all(|octet| octet.is_ascii_hexdigit())
}
