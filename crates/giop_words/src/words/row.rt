//! The options and arguments of a command as rows. A row says what stands on the command line, and
//! clap is told of it here alone.

use clap::builder::ValueParser;
use clap::{Arg, ArgAction, Command};
use std::alloc::{AllocError, Global};

/// Where a word stands.
#[derive(Clone, Copy)]
pub(crate) enum Place {
    /// It is an argument.
    Argument,
    /// It is an argument, and so are all behind it, which may begin with a sign.
    Arguments,
    /// It is an option without a value.
    Flag,
    /// It is an option with a value of this name.
    Option(&'static str),
    /// It is such an option, which may stand several times.
    Repeated(&'static str),
}

/// Whether a word has to stand.
#[derive(Clone, Copy)]
pub(crate) enum Needed {
    /// It may be left out.
    No,
    /// It has to stand.
    Yes,
    /// It may be left out, and has this value then.
    Default(&'static str),
}

/// What a word may be.
#[derive(Clone, Copy)]
pub(crate) enum Takes {
    /// Any text.
    Text,
    /// A number from the one to the other.
    Number(u64, u64),
    /// One of these texts.
    OneOf(&'static [&'static str]),
}

/// An option or an argument.
#[derive(Clone, Copy)]
pub(crate) struct Row {
    /// Its name, by which an option stands behind `--`.
    pub name: &'static str,
    /// Where it stands.
    pub place: Place,
    /// Whether it has to stand.
    pub needed: Needed,
    /// What it may be.
    pub takes: Takes,
    /// What its help says.
    pub help: &'static str,
}

/// A command.
#[derive(Clone, Copy)]
pub(crate) struct CommandRow {
    /// Its name.
    pub name: &'static str,
    /// What it does.
    pub about: &'static str,
    /// What its help says behind its options.
    pub help: &'static str,
    /// Its options and arguments, in the order of its help.
    pub rows: &'static [Row],
}

/// The command of a row.
pub(crate) fn command_of<'a>(alloc: Global, row: CommandRow) -> Result<Command<'a>, AllocError> {
    let mut command = Command::new(alloc, row.name)
        .about(row.about)
        .after_help(row.help);
    for word in row.rows {
        command = command.arg(arg_of(alloc, *word))?;
    }
    Ok(command)
}

fn arg_of<'a>(alloc: Global, row: Row) -> Arg<'a> {
    let arg = placed(Arg::new(alloc, row.name), row);
    let arg = match row.needed {
        Needed::No => arg,
        Needed::Yes => arg.required(true),
        Needed::Default(text) => arg.default_value(text),
    };
    match row.takes {
        Takes::Text => arg,
        Takes::Number(least, most) => arg.value_parser(ValueParser::Unsigned(least, most)),
        Takes::OneOf(texts) => arg.value_parser(ValueParser::Names(texts)),
    }
}

fn placed<'a>(arg: Arg<'a>, row: Row) -> Arg<'a> {
    let arg = arg.help(row.help);
    match row.place {
        Place::Argument => arg,
        Place::Arguments => arg.num_args(1..).allow_negative_numbers(true),
        Place::Flag => arg.long(row.name).action(ArgAction::SetTrue),
        Place::Option(value) => arg.long(row.name).value_name(value),
        Place::Repeated(value) => arg
            .long(row.name)
            .value_name(value)
            .action(ArgAction::Append),
    }
}
