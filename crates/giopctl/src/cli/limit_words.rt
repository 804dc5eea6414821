//! The options of what is held at most: --message-limit, --calls-limit and --gathered-limit. Their
//! defaults are those of giop_session's `Limits`: change both.
ghost use Rattle.std.specs.Prelude.{◌≤◌, ◌^◌, IfOk};
ghost use Rattle.giop_commands.specs.Check.{AreLimits};

use clap::builder::ValueParser;
use clap::{Arg, ArgMatches, Command};
use giop_session::Limits;
use std::alloc::{AllocError, Global};

// The greatest limit of gathered octets that an end can be given.
const MOST_GATHERED: u64 = 1 << 62;

/// The option of the greatest message size.
pub fn message_limit<'a>(alloc: Global) -> Arg<'a> {
    limit(
        alloc,
        "message-limit",
        "The most octets of a message, its header not counted",
    )
    .default_value("1048576")
    .value_parser(ValueParser::Unsigned(0, 4_294_967_295))
}

/// A command with the options of all limits of an end.
pub fn limited<'a>(alloc: Global, command: Command<'a>) -> Result<Command<'a>, AllocError> {
    let calls = limit(
        alloc,
        "calls-limit",
        "The most calls in the table, those that are over included",
    )
    .default_value("1024")
    .value_parser(ValueParser::Unsigned(0, 4_294_967_295));
    command
        .arg(message_limit(alloc))?
        .arg(calls)?
        .arg(gathered_limit(alloc))
}

/// The option of the most octets that are gathered.
pub fn gathered_limit<'a>(alloc: Global) -> Arg<'a> {
    limit(
        alloc,
        "gathered-limit",
        "The most octets of all messages of which a piece is still to come",
    )
    .default_value("8388608")
    .value_parser(ValueParser::Unsigned(0, MOST_GATHERED))
}

fn limit<'a>(alloc: Global, name: &'a str, help: &'a str) -> Arg<'a> {
    Arg::new(alloc, name).long(name).value_name("N").help(help)
}

/// The greatest message size, or what is wrong with its word.
pub fn message_limit_of(matches: &ArgMatches) -> Result<u32, &'static str> {
    short(
        matches,
        "message-limit",
        "--message-limit is a number from 0 to 4294967295",
    )
}

/// The limits of an end, or what is wrong with a word.
pub fn limits_of(matches: &ArgMatches) -> Result<Limits, &'static str>
    ensures { IfOk result (λ limits. AreLimits limits) }
{
    let message = message_limit_of(matches)?;
    let calls = short(
        matches,
        "calls-limit",
        "--calls-limit is a number from 0 to 4294967295",
    )?;
    let gathered = gathered_limit_of(matches)?;
    Ok(Limits {
        calls,
        message,
        gathered,
    })
}

/// The most octets that are gathered, or what is wrong with the word.
pub fn gathered_limit_of(matches: &ArgMatches) -> Result<u64, &'static str>
    ensures { IfOk result (λ gathered. gathered ≤ 2 ^ 62) }
{
    match number(matches, "gathered-limit") {
        Some(gathered) if gathered <= MOST_GATHERED => Ok(gathered),
        _ => Err("--gathered-limit is a number from 0 to 4611686018427387904"),
    }
}

// The number of an option that is below 2^32.
fn short(matches: &ArgMatches, name: &str, wrong: &'static str) -> Result<u32, &'static str> {
    match number(matches, name) {
        Some(number) => match u32::try_from(number) {
            Ok(number) => Ok(number),
            Err(_) => Err(wrong),
        },
        None => Err(wrong),
    }
}

// The number of an option, where its word is decimal digits and nothing else.
fn number(matches: &ArgMatches, name: &str) -> Option<u64> {
    let text = matches.get_str(name)?;
    if text.as_bytes().iter().all(|octet| octet.is_ascii_digit()) {
        text.parse::<u64>().ok()
    } else {
        None
    }
}
