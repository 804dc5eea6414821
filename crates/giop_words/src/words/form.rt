//! The options of how lines, and the numbers in their values, are written: --json and
//! --json-numbers. A change here is one in docs/giopctl.md and tests/program too.

use crate::words::row::{Needed, Place, Row, Takes};
use clap::ArgMatches;
use giop_forms::LineForm;
use giop_json::NumberForm;

/// The option of a command that may write lines of JSON.
pub(crate) const JSON: Row = Row {
    name: "json",
    place: Place::Flag,
    needed: Needed::No,
    takes: Takes::Text,
    help: "Each line is an object of JSON",
};

/// The option of a command that writes values.
pub(crate) const JSON_NUMBERS: Row = Row {
    name: "json-numbers",
    place: Place::Option("FORM"),
    needed: Needed::Default("number"),
    takes: Takes::OneOf(&["number", "text"]),
    help: "With text, numbers in values beyond 2^53 - 1 are texts, which jq doesn't round",
};

/// The form of the lines of a command that takes `--json` alone.
pub(crate) fn plain_lines_of(matches: &ArgMatches<'_>) -> LineForm {
    line_form(matches, NumberForm::Plain)
}

/// The form of the lines of a command that takes `--json` and `--json-numbers`.
pub(crate) fn lines_of(matches: &ArgMatches<'_>) -> LineForm {
    line_form(matches, numbers_of(matches))
}

/// The form of numbers in values, of a command that takes `--json-numbers`.
pub(crate) fn numbers_of(matches: &ArgMatches<'_>) -> NumberForm {
    match matches.get_str("json-numbers") {
        Some("text") => NumberForm::Quoted,
        _ => NumberForm::Plain,
    }
}

fn line_form(matches: &ArgMatches<'_>, numbers: NumberForm) -> LineForm {
    match matches.get_flag("json") {
        true => LineForm::Json(numbers),
        false => LineForm::Text(numbers),
    }
}
