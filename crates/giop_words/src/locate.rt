//! The words of `locate`. A change here is one in docs/giopctl.md and tests/program too.

mod help;

use crate::locate::help::LOCATE_HELP;
use crate::words::form::JSON;
use crate::words::object::{ObjectWords, object_words};
use crate::words::row::{CommandRow, Needed, Place, Row, Takes};
use crate::words::session::{LITTLE, TARGET, TIMEOUT};
use clap::ArgMatches;

// The option by which forwards are followed.
const FOLLOW: Row = Row {
    name: "follow",
    place: Place::Flag,
    needed: Needed::No,
    takes: Takes::Text,
    help: "An object that is elsewhere is asked for there, up to five times",
};

/// The command `locate`.
pub(crate) const LOCATE: CommandRow = CommandRow {
    name: "locate",
    about: "Asks a server where an object is",
    help: LOCATE_HELP,
    rows: &[TARGET, TIMEOUT, JSON, LITTLE, FOLLOW],
};

/// What `locate` is asked for, or what is wrong with a word.
pub(crate) fn locate_words<'a>(matches: &ArgMatches<'a>) -> Result<ObjectWords<'a>, &'static str> {
    let mut words = object_words(matches)?;
    words.follow = matches.get_flag("follow");
    Ok(words)
}
