//! Writing the parts of values that are one JSON value: texts, names, numbers and discriminants.
//! read_leaves.rt reads them.
ghost use Rattle.std.specs.Prelude.{◌≡◌, true, IfOk};
ghost use Rattle.serde_json.specs.View.{view};
ghost use Rattle.giop_json.specs.ToJson.{text_data, name_data, is_safe, integer_data, whole_data, label_data};
ghost use Rattle.giop_types.specs.Values.Views.{desc_view};

use crate::number_form::NumberForm;
use crate::texts::text_of;
use giop_cdr::OctetList;
use giop_types::Desc;
use serde_json::{Number, Value as Json};
use std::alloc::{AllocError, Global};

/// Octets as a JSON text, a character for each octet.
pub fn text_json(alloc: Global, octets: &[u8]) -> Result<Json, AllocError>
    ensures { IfOk result (λ json. view json ≡ text_data octets.now) }
{
    Ok(Json::String(text_of(alloc, octets)?))
}

/// The name of an ordinal as a JSON text, or null where it has none.
pub fn name_json(alloc: Global, names: &[OctetList], ordinal: usize) -> Result<Json, AllocError>
    ensures { IfOk result (λ json. view json ≡ name_data names.now ordinal) }
{
    if ordinal < names.len() {
        text_json(alloc, names[ordinal].as_slice())
    } else {
        Ok(Json::Null)
    }
}

// Whether a number is within those that a float of 64 bits tells from the ones beside them.
fn is_safe(number: &i128) -> bool
    ensures { result ≡ is_safe number.now }
{
    -0x1f_ffff_ffff_ffff <= *number && *number <= 0x1f_ffff_ffff_ffff
}

/// Whether a number is written as a JSON number: it takes 64 bits at most, and its form doesn't
/// want a text.
pub fn is_number(numbers: NumberForm, number: &i128) -> bool
    ensures { result ≡ true → whole_data numbers number.now ≡ integer_data number.now }
{
    let is_of_64_bits = -0x8000_0000_0000_0000 <= *number && *number <= 0xffff_ffff_ffff_ffff;
    is_of_64_bits && (numbers == NumberForm::Plain || is_safe(number))
}

/// A number as JSON, or null where it takes more than 64 bits.
pub fn whole_json(alloc: Global, numbers: NumberForm, number: &i128) -> Result<Json, AllocError>
    ensures { IfOk result (λ json. view json ≡ whole_data numbers number.now) }
{
    let Some(plain) = Number::from_i128(*number) else {
        return Ok(Json::Null);
    };
    match numbers {
        NumberForm::Quoted if !is_safe(number) => Ok(Json::String(number.to_string(alloc)?)),
        _ => Ok(Json::Number(plain)),
    }
}

/// A discriminant as JSON. It is null where a char or an enum has no such number, or the number
/// takes more than 64 bits.
pub fn label_json(
    alloc: Global,
    numbers: NumberForm,
    disc: &Desc,
    label: &i128,
) -> Result<Json, AllocError>
    ensures { IfOk result
        (λ json. view json ≡ label_data numbers (desc_view disc.now) label.now) }
{
    match disc {
        Desc::Boolean => Ok(Json::Bool(*label != 0)),
        Desc::Char => match u8::try_from(*label) {
            Ok(octet) => text_json(alloc, &[octet]),
            Err(_) => Ok(Json::Null),
        },
        Desc::Labels(names) => match u32::try_from(*label) {
            Ok(ordinal) => name_json(alloc, names, ordinal as usize),
            Err(_) => Ok(Json::Null),
        },
        _ => whole_json(alloc, numbers, label),
    }
}
