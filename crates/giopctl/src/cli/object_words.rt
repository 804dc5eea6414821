//! The words of `locate` and `ping`: their arguments and their help. A change here is one in
//! docs/giopctl.md and tests/program too.

use crate::cli::form_words::{json, plain_lines_of};
use crate::cli::session_words::{follow, little, target, timeout, timeout_of};
use clap::{ArgMatches, Command};
use giop_commands::LineForm;
use std::alloc::{AllocError, Global};

/// What `locate` and `ping` are asked for.
#[derive(Clone, Copy, Debug)]
pub struct ObjectWords<'a> {
    /// The text of the object's reference, or a corbaloc; behind `@` the name of a file of it, or `-`
    /// for the standard input.
    pub target: &'a str,
    /// For how many seconds nothing may come or go, 1 to 86,400; any number where it is `None`.
    pub timeout: Option<u32>,
    /// Whether the message is sent little-endian.
    pub little: bool,
    /// Whether forwards are followed.
    pub follow: bool,
    /// The form of the lines.
    pub lines: LineForm,
}

const PING_HELP: &str = "\
It calls _non_existent, the operation by which a client asks whether an object is there, and shows
what that came to, as giopctl call does:
  1 Done 0 [false]      the object is there
  1 Done 0 [true]       it isn't
  1 Done 2 ID MINOR COMPLETION   a system exception, such as OBJECT_NOT_EXIST
With --json the line is {\"id\":1,\"what\":WHAT,..}, as by giopctl call.
Standard error tells how long it took from the beginning of the connection on, in microseconds.

Exit statuses:
  0  the object answered
  1  it didn't, or by an exception or a forward; or the target is refused
  2  usage
  3  the connection failed
  4  out of memory

Example:
  giopctl ping --timeout 5 --json --target corbaloc::1.2@127.0.0.1:2810/k";

const LOCATE_HELP: &str = "\
It sends a LocateRequest, the message by which a client asks where an object is, and shows the answer:
  1 LocateDone 0        the server knows no such object
  1 LocateDone 1        the object is here
  1 LocateDone STATUS   2 or 3: it is elsewhere, for now or for good; 4: a system exception; 5: the
                        server wants the object addressed in another way
  1 Waiting             no answer came
The last line is the fault that ended the session, where there is one.
With --follow an object that is elsewhere is asked for where the first IIOP profile of the reference
says, up to five times, over a connection of its own; standard error says where. The lines tell what
came of it there.
With --json the lines are {\"id\":1,\"what\":\"located\",\"status\":STATUS}, {\"id\":1,\"what\":\"waiting\"}
and {\"fault\":{..}}.

Exit statuses:
  0  the object is here
  1  it isn't, or no answer came; or the target is refused
  2  usage
  3  the connection failed
  4  out of memory

Example:
  giopctl locate --target corbaloc::1.2@127.0.0.1:2810/k";

/// The command `ping`.
pub fn ping<'a>(alloc: Global) -> Result<Command<'a>, AllocError> {
    let about = "Asks an object whether it is there, and tells how long that took";
    asking(alloc, "ping", about, PING_HELP)
}

/// The command `locate`.
pub fn locate<'a>(alloc: Global) -> Result<Command<'a>, AllocError> {
    let about = "Asks a server where an object is";
    let help = "An object that is elsewhere is asked for there, up to five times";
    asking(alloc, "locate", about, LOCATE_HELP)?.arg(follow(alloc, help))
}

// A command that asks something of an object.
fn asking<'a>(
    alloc: Global,
    name: &'a str,
    about: &'a str,
    help: &'a str,
) -> Result<Command<'a>, AllocError> {
    Command::new(alloc, name)
        .about(about)
        .after_help(help)
        .arg(target(alloc))?
        .arg(timeout(alloc))?
        .arg(json(alloc))?
        .arg(little(alloc))
}

/// What `locate` is asked for, or what is wrong with a word.
pub fn locate_words<'a>(matches: &ArgMatches<'a>) -> Result<ObjectWords<'a>, &'static str> {
    let mut words = object_words(matches)?;
    words.follow = matches.get_flag("follow");
    Ok(words)
}

/// What `ping` is asked for, or what is wrong with a word; `locate` too, but for its own option.
pub fn object_words<'a>(matches: &ArgMatches<'a>) -> Result<ObjectWords<'a>, &'static str> {
    match matches.get_str("target") {
        Some(target) => Ok(ObjectWords {
            target,
            timeout: timeout_of(matches)?,
            little: matches.get_flag("little"),
            follow: false,
            lines: plain_lines_of(matches),
        }),
        None => Err("--target is wanted"),
    }
}
