//! Options of a number, in decimal digits and nothing else.

use clap::ArgMatches;

/// The number of an option; `None` where its word is no decimal digits, or a number of 2^64 or
/// more.
pub(crate) fn number_of(matches: &ArgMatches, name: &str) -> Option<u64> {
    let text = matches.get_str(name)?;
    if text.as_bytes().iter().all(|octet| octet.is_ascii_digit()) {
        text.parse::<u64>().ok()
    } else {
        None
    }
}

/// The number of an option; `None` where its word is no decimal digits, or a number of 2^32 or
/// more.
pub(crate) fn short_number_of(matches: &ArgMatches, name: &str) -> Option<u32> {
    u32::try_from(number_of(matches, name)?).ok()
}
