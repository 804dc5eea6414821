//! The options of a session that several commands have: the object that is called, how messages are
//! sent, and when calls are told. A change here is one in docs/giopctl.md and tests/program too.
ghost use Rattle.std.specs.Prelude.{◌≡◌, ◌≤◌, ◌%◌, IfOk};
ghost use Rattle.giop_words.specs.Timeout.{IsTimeout};

use crate::words::number::short_number_of;
use crate::words::row::{Needed, Place, Row, Takes};
use clap::ArgMatches;
use giop_cdr::Order;

/// When the calls of a connection are told.
#[derive(Clone, Copy, Debug, PartialEq, Eq)]
pub enum Telling {
    /// All of them, when the connection has ended.
    AtTheEnd,
    /// Each when it is over.
    WhenOver,
}

/// How an end is to send messages (CORBA 3.3 Part 2, 9.4.9).
#[derive(Clone, Copy, Debug)]
pub struct SendingWords {
    /// The byte order of a message and of its pieces.
    pub order: Order,
    /// How many octets a piece has at most, its header counted.
    pub piece: u32,
    pub ghost large: { 24 ≤ piece },
    pub ghost multiple: { piece % 8 ≡ 0 },
}

/// The option of the object that is called.
pub(crate) const TARGET: Row = Row {
    name: "target",
    place: Place::Option("TEXT"),
    needed: Needed::Yes,
    takes: Takes::Text,
    help: "The object: the text of its reference, or a corbaloc; or @ and a file of that text",
};

/// The option of how long nothing may come or go.
pub(crate) const TIMEOUT: Row = Row {
    name: "timeout",
    place: Place::Option("SECONDS"),
    needed: Needed::No,
    takes: Takes::Number(1, 86_400),
    help: "Gives up, with status 3, where nothing comes or goes for so long",
};

/// The option by which each call is told as soon as it is over.
pub(crate) const STREAM: Row = Row {
    name: "stream",
    place: Place::Flag,
    needed: Needed::No,
    takes: Takes::Text,
    help: "Each call is shown as soon as it is over, and forgotten",
};

/// The option of the byte order of what is sent.
pub(crate) const LITTLE: Row = Row {
    name: "little",
    place: Place::Flag,
    needed: Needed::No,
    takes: Takes::Text,
    help: "Messages are sent little-endian, not big-endian",
};

/// The option of the size of pieces.
pub(crate) const PIECE: Row = Row {
    name: "piece",
    place: Place::Option("N"),
    needed: Needed::Default("4096"),
    takes: Takes::Number(24, 1_048_584),
    help: "The most octets of a message, a multiple of 8 from 24 to 1048584",
};

/// When calls are told.
pub(crate) fn telling_of(matches: &ArgMatches) -> Telling {
    if matches.get_flag("stream") {
        Telling::WhenOver
    } else {
        Telling::AtTheEnd
    }
}

/// For how many seconds nothing may come or go, where that is bounded; or what is wrong with the
/// word.
pub fn timeout_of(matches: &ArgMatches) -> Result<Option<u32>, &'static str>
    ensures { IfOk result IsTimeout }
{
    if matches.get_str("timeout").is_none() {
        return Ok(None);
    }
    match short_number_of(matches, "timeout") {
        Some(seconds) if seconds > 0 && seconds <= 86_400 => Ok(Some(seconds)),
        _ => Err("--timeout is a number of seconds from 1 to 86400, in decimal digits"),
    }
}

/// How messages are sent, or what is wrong with the word of the greatest message.
pub(crate) fn sending_of(matches: &ArgMatches) -> Result<SendingWords, &'static str> {
    let order = if matches.get_flag("little") {
        Order::Little
    } else {
        Order::Big
    };
    match short_number_of(matches, "piece") {
        Some(piece) if piece >= 24 && piece % 8 == 0 && piece <= 1_048_584 => {
            Ok(SendingWords { order, piece })
        }
        _ => Err("--piece is a multiple of 8 from 24 to 1048584, in decimal digits"),
    }
}
