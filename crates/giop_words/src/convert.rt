//! The words of `convert`, a command for each kind. A change here is one in docs/giopctl.md and
//! tests/program too.
ghost use Rattle.std.specs.Prelude.{◌+◌, ◌≤◌};
ghost use Rattle.giop_words.specs.Inputs.{input, kind_inputs};

mod help;

use crate::convert::help::{CONVERT_HELP, CORBALOC_HELP, DECODE_HELP, ENCODE_HELP, IOR_HELP};
use crate::words::file::{input, once};
use crate::words::form::{JSON, JSON_NUMBERS, numbers_of, plain_lines_of};
use crate::words::row::{CommandRow, Needed, Place, Row, Takes, command_of};
use clap::{ArgMatches, Command};
use giop_cdr::Order;
use giop_forms::{LineForm, Way};
use std::alloc::{AllocError, Global};

/// The kinds of `convert`.
#[derive(Clone, Copy, Debug)]
pub enum ConvertKind<'a> {
    /// The text of a reference, shown in a form.
    Ior(LineForm),
    /// A corbaloc, and its reference, in a form.
    Corbaloc(LineForm),
    /// A value, between JSON and octets.
    Value {
        /// Which of them the file holds.
        way: Way,
        /// The name of the file of the value's description.
        desc: &'a str,
        /// The byte order of the octets.
        order: Order,
    },
}

/// What `convert` is asked for.
#[derive(Clone, Copy, Debug)]
pub(crate) struct ConvertWords<'a> {
    /// The file's name, or `-` for the standard input.
    pub file: &'a str,
    /// From what, and into what.
    pub kind: ConvertKind<'a>,
    pub ghost once: { kind_inputs kind + input file.now ≤ 1 },
}

// The file's argument.
const FILE: Row = Row {
    name: "FILE",
    place: Place::Argument,
    needed: Needed::Yes,
    takes: Takes::Text,
    help: "The file to convert, or - for the standard input",
};

// The option of the file of a value's description.
const DESC: Row = Row {
    name: "desc",
    place: Place::Option("FILE"),
    needed: Needed::Yes,
    takes: Takes::Text,
    help: "The file of the value's description, in JSON",
};

// The option of the byte order of a value.
const LITTLE: Row = Row {
    name: "little",
    place: Place::Flag,
    needed: Needed::No,
    takes: Takes::Text,
    help: "The octets are little-endian, not big-endian",
};

// The kinds: for references, which may be told as JSON, and for values.
const KINDS: &[CommandRow] = &[
    CommandRow {
        name: "ior",
        about: "Shows the text of a reference",
        help: IOR_HELP,
        rows: &[FILE, JSON],
    },
    CommandRow {
        name: "corbaloc",
        about: "Writes a corbaloc in full, and its reference",
        help: CORBALOC_HELP,
        rows: &[FILE, JSON],
    },
    CommandRow {
        name: "encode",
        about: "Writes the octets of a value in JSON",
        help: ENCODE_HELP,
        rows: &[FILE, DESC, LITTLE],
    },
    CommandRow {
        name: "decode",
        about: "Writes octets as a value in JSON",
        help: DECODE_HELP,
        rows: &[FILE, DESC, LITTLE, JSON_NUMBERS],
    },
];

/// The command `convert`.
pub(crate) fn convert_command<'a>(alloc: Global) -> Result<Command<'a>, AllocError> {
    let mut command = Command::new(alloc, "convert")
        .about("Writes what a file holds in another form")
        .subcommand_required(true)
        .arg_required_else_help(true)
        .after_help(CONVERT_HELP);
    for kind in KINDS {
        command = command.subcommand(command_of(alloc, *kind)?)?;
    }
    Ok(command)
}

/// What `convert` is asked for, or what is wrong with a word.
pub(crate) fn convert_words<'a>(
    convert: &ArgMatches<'a>,
) -> Result<Option<ConvertWords<'a>>, &'static str> {
    if let Some(ior) = convert.subcommand_matches("ior") {
        return Ok(ior_words(ior));
    }
    if let Some(corbaloc) = convert.subcommand_matches("corbaloc") {
        return Ok(corbaloc_words(corbaloc));
    }
    if let Some(encode) = convert.subcommand_matches("encode") {
        return value_words(encode, Way::Encode);
    }
    match convert.subcommand_matches("decode") {
        Some(decode) => value_words(decode, Way::Decode(numbers_of(decode))),
        None => Ok(None),
    }
}

fn ior_words<'a>(matches: &ArgMatches<'a>) -> Option<ConvertWords<'a>> {
    let file = matches.get_str("FILE")?;
    let kind = ConvertKind::Ior(plain_lines_of(matches));
    Some(ConvertWords { file, kind })
}

fn corbaloc_words<'a>(matches: &ArgMatches<'a>) -> Option<ConvertWords<'a>> {
    let file = matches.get_str("FILE")?;
    let kind = ConvertKind::Corbaloc(plain_lines_of(matches));
    Some(ConvertWords { file, kind })
}

fn value_words<'a>(
    matches: &ArgMatches<'a>,
    way: Way,
) -> Result<Option<ConvertWords<'a>>, &'static str> {
    let (Some(desc), Some(file)) = (matches.get_str("desc"), matches.get_str("FILE")) else {
        return Ok(None);
    };
    once(input(desc), input(file))?;
    let order = order_of(matches);
    let kind = ConvertKind::Value { way, desc, order };
    Ok(Some(ConvertWords { file, kind }))
}

fn order_of(matches: &ArgMatches) -> Order {
    if matches.get_flag("little") {
        Order::Little
    } else {
        Order::Big
    }
}
