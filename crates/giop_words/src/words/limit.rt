//! The options of what is held at most: --message-limit, --calls-limit and --gathered-limit. Their
//! defaults are those of giop_end's `Limits`: change both. A change here is one in
//! docs/giopctl.md and tests/program too.
ghost use Rattle.std.specs.Prelude.{◌≤◌, ◌^◌, IfOk};

use crate::words::number::{number_of, short_number_of};
use crate::words::row::{Needed, Place, Row, Takes};
use clap::ArgMatches;

// The greatest limit of gathered octets that an end can be given.
const MOST_GATHERED: u64 = 1 << 62;

/// What an end is to hold at most.
#[derive(Clone, Copy, Debug)]
pub struct LimitWords {
    /// How many calls its table has, those that are over included.
    pub calls: u32,
    /// The size of a message in octets, without its header.
    pub message: u32,
    /// The octets of all messages of which a piece is still to come.
    pub gathered: u64,
    pub ghost bounded: { gathered ≤ 2 ^ 62 },
}

/// The option of the greatest message size.
pub(crate) const MESSAGE_LIMIT: Row = Row {
    name: "message-limit",
    place: Place::Option("N"),
    needed: Needed::Default("1048576"),
    takes: Takes::Number(0, 4_294_967_295),
    help: "The most octets of a message, its header not counted",
};

/// The option of the most calls.
pub(crate) const CALLS_LIMIT: Row = Row {
    name: "calls-limit",
    place: Place::Option("N"),
    needed: Needed::Default("1024"),
    takes: Takes::Number(0, 4_294_967_295),
    help: "The most calls in the table, those that are over included",
};

/// The option of the most octets that are gathered.
pub(crate) const GATHERED_LIMIT: Row = Row {
    name: "gathered-limit",
    place: Place::Option("N"),
    needed: Needed::Default("8388608"),
    takes: Takes::Number(0, MOST_GATHERED),
    help: "The most octets of all messages of which a piece is still to come",
};

/// The greatest message size, or what is wrong with its word.
pub(crate) fn message_limit_of(matches: &ArgMatches) -> Result<u32, &'static str> {
    match short_number_of(matches, "message-limit") {
        Some(message) => Ok(message),
        None => Err("--message-limit is a number from 0 to 4294967295"),
    }
}

/// The most octets that are gathered, or what is wrong with the word.
pub fn gathered_limit_of(matches: &ArgMatches) -> Result<u64, &'static str>
    ensures { IfOk result (λ gathered. gathered ≤ 2 ^ 62) }
{
    match number_of(matches, "gathered-limit") {
        Some(gathered) if gathered <= MOST_GATHERED => Ok(gathered),
        _ => Err("--gathered-limit is a number from 0 to 4611686018427387904"),
    }
}

// The most calls in the table, or what is wrong with the word.
fn calls_limit_of(matches: &ArgMatches) -> Result<u32, &'static str> {
    match short_number_of(matches, "calls-limit") {
        Some(calls) => Ok(calls),
        None => Err("--calls-limit is a number from 0 to 4294967295"),
    }
}

/// The limits of an end, or what is wrong with a word.
pub(crate) fn limits_of(matches: &ArgMatches) -> Result<LimitWords, &'static str> {
    let message = message_limit_of(matches)?;
    let calls = calls_limit_of(matches)?;
    let gathered = gathered_limit_of(matches)?;
    Ok(LimitWords {
        calls,
        message,
        gathered,
    })
}
