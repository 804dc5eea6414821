//! Whole numbers that are JSON numbers, or JSON texts that say one.
ghost use Rattle.std.specs.Prelude.{◌≡◌, ◌<◌, ◌==◌, true, length, option_map, option_and_then, slice_index};
ghost use Rattle.serde_json.specs.Find.{as_integer, of_integer};
ghost use Rattle.serde_json.specs.View.{view, number_view};
ghost use Rattle.giop_json.specs.FromJson.{whole};
ghost use Rattle.giop_json.specs.NumberText.{leads, if_below_zero, whole_told};

use serde_json::{Number, Value as Json};

/// The number that a JSON value is or says. A JSON number may still have a fraction or an exponent.
pub fn number_in(json: &Json) -> Option<Number>
    ensures { option_and_then (λ number. as_integer (number_view number)) result
        ≡ whole (view json.now) }
{
    match json {
        Json::Number(number) => Some(*number),
        Json::String(text) => number_told(text.as_str()),
        _ => None,
    }
}

// The number of 64 bits that a text says with the characters of a JSON number.
fn number_told(text: &str) -> Option<Number>
    ensures { option_map number_view result ≡ option_map of_integer (whole_told text.now) }
{
    let octets = text.as_bytes();
    if has_minus(octets) {
        return negative_told(text);
    }
    if !leads(octets) {
        return None;
    }
    match text.parse::<u64>() {
        Ok(number) => Some(Number::from(number)),
        Err(_) => None,
    }
}

// The same of a text that begins with a minus.
fn negative_told(text: &str) -> Option<Number>
    requires minus { (slice_index text.now 0 == 45) ≡ true }
    requires some { 0 < length text.now }
    ensures { option_map number_view result ≡ option_map of_integer (whole_told text.now) }
{
    if !leads(&text.as_bytes()[1..]) {
        return None;
    }
    match text.parse::<i64>() {
        Ok(number) => below_zero(number),
        Err(_) => None,
    }
}

// A number below 0: a minus before 0 makes no whole number of JSON.
fn below_zero(number: i64) -> Option<Number>
    ensures { option_map number_view result ≡ option_map of_integer (if_below_zero number) }
{
    if number < 0 {
        Some(Number::from(number))
    } else {
        None
    }
}

fn has_minus(octets: &[u8]) -> bool
    ensures value { result ≡ (slice_index octets.now 0 == 45) }
    ensures some { result ≡ true → 0 < length octets.now }
{
    !octets.is_empty() && octets[0] == b'-'
}

// Whether digits begin as those of a JSON number do.
fn leads(digits: &[u8]) -> bool
    ensures { result ≡ leads digits.now }
{
    (!digits.is_empty() && digits[0] > b'0') || digits == b"0".as_slice()
}
