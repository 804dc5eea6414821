//! What `locate` and `ping` are asked for, and the options that both have. A change here is one in
//! docs/giopctl.md and tests/program too.
ghost use Rattle.std.proofs.Props.{props};
ghost use Rattle.giop_words.specs.Timeout.{IsTimeout};

use crate::words::form::plain_lines_of;
use crate::words::session::timeout_of;
use clap::ArgMatches;
use giop_forms::LineForm;

/// What `locate` and `ping` are asked for.
#[derive(Clone, Copy, Debug)]
pub struct ObjectWords<'a> {
    /// The text of the object's reference, or a corbaloc; behind `@` the name of a file of it, or
    /// `-` for the standard input.
    pub target: &'a str,
    /// For how many seconds nothing may come or go, 1 to 86,400; any number where it is `None`.
    pub timeout: Option<u32>,
    /// Whether the message is sent little-endian.
    pub little: bool,
    /// Whether forwards are followed.
    pub follow: bool,
    /// The form of the lines.
    pub lines: LineForm,
    pub ghost timed: { IsTimeout timeout } by { Prim.hlevel props },
}

/// What a command that asks something of an object is asked for, or what is wrong with a word.
/// Forwards aren't followed.
pub(crate) fn object_words<'a>(matches: &ArgMatches<'a>) -> Result<ObjectWords<'a>, &'static str> {
    match matches.get_str("target") {
        Some(target) => Ok(ObjectWords {
            target,
            timeout: timeout_of(matches)?,
            little: matches.get_flag("little"),
            follow: false,
            lines: plain_lines_of(matches),
        }),
        None => Err("--target is wanted"),
    }
}
