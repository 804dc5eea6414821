//! Reading the parts of values that are one JSON value: numbers, texts, names and discriminants.
//! leaves.rt and to_json.rt write them.
ghost use Rattle.std.specs.Prelude.{◌≡◌, option_map};
ghost use Rattle.giop_json.specs.FromJson.{Shows, natural_tree, number_tree, whole, octets_shown, char_shown, hex_shown, ordinal_in, ordinal_shown, ordinal_tree, label_shown};
ghost use Rattle.giop_types.specs.Values.Views.{desc_view, value_view};
ghost use Rattle.serde_json.specs.View.{view};

use crate::form_fault::FormFault;
use crate::number_text::number_in;
use crate::texts::{is_text_of, octets_in};
use giop_cdr::OctetList;
use giop_types::{Desc, Value};
use hex::FromHexError;
use serde_json::Value as Json;
use std::alloc::Global;

/// Reads a whole number, or a text that says one of 64 bits. Another JSON value is BadShape, and so
/// is a number with a fraction or an exponent.
pub fn whole_of(json: &Json) -> Result<i128, FormFault>
    ensures { Shows (λ z. z) result (whole (view json.now)) }
{
    match number_in(json) {
        Some(number) => match number.as_i128() {
            Some(whole) => Ok(whole),
            None => Err(FormFault::BadShape),
        },
        None => Err(FormFault::BadShape),
    }
}

/// Reads a number as a value of this description. Where the description can't hold it, it is a
/// longer number, which then doesn't fit.
pub fn number_of(desc: &Desc, json: &Json) -> Result<Value, FormFault>
    ensures { Shows value_view result
        (option_map (number_tree (desc_view desc.now)) (whole (view json.now))) }
{
    let Some(number) = number_in(json) else {
        return Err(FormFault::BadShape);
    };
    if let Some(number) = number.as_u64() {
        return Ok(natural_value(desc, number));
    }
    match number.as_i64() {
        Some(number) => Ok(integer_value(desc, number)),
        None => Err(FormFault::BadShape),
    }
}

// A number of 0 or more as a value of a description, or as the longest one where that can't hold
// it.
fn natural_value(desc: &Desc, number: u64) -> Value
    ensures { value_view result ≡ natural_tree (desc_view desc.now) number }
{
    match desc {
        Desc::Octet if number < 1 << 8 => Value::Octet(number as u8),
        Desc::Short if number < 1 << 15 => Value::Short(number as i16),
        Desc::UShort if number < 1 << 16 => Value::UShort(number as u16),
        Desc::Long if number < 1 << 31 => Value::Long(number as i32),
        Desc::ULong if number < 1 << 32 => Value::ULong(number as u32),
        Desc::LongLong if number < 1 << 63 => Value::LongLong(number as i64),
        _ => Value::ULongLong(number),
    }
}

// A number that a long long holds, as a value of a description, or as a longer one where that can't
// hold it.
fn integer_value(desc: &Desc, number: i64) -> Value
    ensures { value_view result ≡ number_tree (desc_view desc.now) number }
{
    if number >= 0 {
        return natural_value(desc, number as u64);
    }
    match desc {
        Desc::Short if number >= -32_768 => Value::Short(number as i16),
        Desc::Long if number >= -2_147_483_648 => Value::Long(number as i32),
        _ => Value::LongLong(number),
    }
}

/// The octets of a JSON text, an octet for each character.
pub fn octets_of(alloc: Global, json: &Json) -> Result<OctetList, FormFault>
    ensures { Shows (λ octets. octets) result (octets_shown (view json.now)) }
{
    match json.as_str() {
        Some(text) => match octets_in(alloc, text)? {
            Some(octets) => Ok(octets),
            None => Err(FormFault::BadShape),
        },
        None => Err(FormFault::BadShape),
    }
}

/// The octet of a text of one character.
pub fn char_of(alloc: Global, json: &Json) -> Result<u8, FormFault>
    ensures { Shows (λ octet. octet) result (char_shown (view json.now)) }
{
    let octets = octets_of(alloc, json)?;
    match octets.as_slice() {
        [octet] => Ok(*octet),
        _ => Err(FormFault::BadShape),
    }
}

/// The octets that a JSON text says in hexadecimal digits.
pub fn hex_of(alloc: Global, json: &Json) -> Result<OctetList, FormFault>
    ensures { Shows (λ octets. octets) result (hex_shown (view json.now)) }
{
    match json.as_str() {
        Some(text) => match hex::decode(alloc, text) {
            Ok(octets) => Ok(OctetList::from(octets)),
            Err(FromHexError::OutOfMemory) => Err(FormFault::NoMemory),
            Err(_) => Err(FormFault::BadShape),
        },
        None => Err(FormFault::BadShape),
    }
}

// The ordinal of the first name that has this text, or the number of names where none has it. It
// takes no memory.
fn ordinal_in(text: &str, names: &[OctetList]) -> usize
    ensures { result ≡ ordinal_in text.now names.now }
{
    for (i, name) in names.iter().enumerate() {
        if is_text_of(name.as_slice(), text) {
            return i;
        }
    }
    names.len()
}

/// The ordinal of a name, or the number of names where the text is none of them. A text with a
/// character above U+00FF is BadShape.
pub fn ordinal_of(alloc: Global, names: &[OctetList], json: &Json) -> Result<usize, FormFault>
    ensures { Shows (λ ordinal. ordinal) result (ordinal_shown names.now (view json.now)) }
{
    let Some(text) = json.as_str() else {
        return Err(FormFault::BadShape);
    };
    let ordinal = ordinal_in(text, names);
    if ordinal < names.len() {
        return Ok(ordinal);
    }
    match octets_in(alloc, text)? {
        Some(_) => Ok(names.len()),
        None => Err(FormFault::BadShape),
    }
}

/// An ordinal as a value. It is one that doesn't fit where an unsigned long can't hold the ordinal.
pub fn ordinal_value(ordinal: usize) -> Value
    ensures { value_view result ≡ ordinal_tree ordinal }
{
    match u32::try_from(ordinal) {
        Ok(ordinal) => Value::Label(ordinal),
        Err(_) => Value::ULongLong(ordinal as u64),
    }
}

/// Reads a discriminant, as a number: of a boolean 0 or 1, of a char its octet, of an enum its
/// ordinal.
pub fn label_of(alloc: Global, disc: &Desc, json: &Json) -> Result<i128, FormFault>
    ensures { Shows (λ z. z) result (label_shown (desc_view disc.now) (view json.now)) }
{
    match disc {
        Desc::Boolean => match json.as_bool() {
            Some(boolean) => Ok(i128::from(boolean)),
            None => Err(FormFault::BadShape),
        },
        Desc::Char => Ok(i128::from(char_of(alloc, json)?)),
        Desc::Labels(names) => Ok(ordinal_of(alloc, names, json)? as i128),
        _ => whole_of(json),
    }
}
