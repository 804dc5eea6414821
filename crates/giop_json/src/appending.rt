//! The text of values in JSON, written as they stand: of a number or a list no JSON value is made
//! before. It is the text of what to_json.rt makes.
ghost use Rattle.std.specs.Prelude.{◌≡◌, ◌++◌, map, IfOk, OnOk, decimal};
ghost use Rattle.std.specs.Fmt.{signed_decimal};
ghost use Rattle.std.specs.String.{string_bytes};
ghost use Rattle.serde_json.specs.Data.{array};
ghost use Rattle.serde_json.specs.View.{items_of};
ghost use Rattle.serde_json.specs.Written.{compact_text};
ghost use Rattle.giop_types.specs.Descriptions.CheckedShape.{checked_shape};
ghost use Rattle.giop_json.specs.ToJson.{to_data};
ghost use Rattle.giop_json.specs.ValuesText.{value_data, values_text};
ghost use Rattle.giop_types.specs.Values.Views.{desc_view, value_view};

use crate::leaves::is_number;
use crate::number_form::NumberForm;
use crate::to_json::to_json;
use giop_types::{CheckedDesc, Desc, Parameter, Value, fits};
use itoa::Buffer;
use std::alloc::{AllocError, Global};

/// Values as a JSON list, as `append_values` appends them.
pub fn values_to_text(
    alloc: Global,
    numbers: NumberForm,
    parameters: &[Parameter],
    values: &[Value],
) -> Result<String, AllocError>
    ensures { IfOk result (λ text. string_bytes text
        ≡ values_text numbers parameters.now (map value_view values.now)) }
{
    let mut text = String::with_capacity(alloc, 64)?;
    append_values(&mut text, alloc, numbers, parameters, values)?;
    Ok(text)
}

/// Appends values as a JSON list without blanks, each by the description of its parameter, their
/// whole numbers in a form. A value that is none of its description is null, and so many stand in
/// the list as both have.
pub fn append_values(
    text: &mut String,
    alloc: Global,
    numbers: NumberForm,
    parameters: &[Parameter],
    values: &[Value],
) -> Result<(), AllocError>
    ensures { OnOk result (string_bytes text.new ≡ string_bytes text.old
        ++ values_text numbers parameters.now (map value_view values.now)) }
{
    text.push_str("[")?;
    for i in 0..parameters.len().min(values.len()) {
        if i > 0 {
            text.push_str(",")?;
        }
        append_checked(text, alloc, numbers, &values[i], &parameters[i].desc)?;
    }
    text.push_str("]")?;
    Ok(())
}

// Appends a value of a description; null where it is none.
fn append_checked(
    text: &mut String,
    alloc: Global,
    numbers: NumberForm,
    value: &Value,
    desc: &CheckedDesc,
) -> Result<(), AllocError>
    ensures { OnOk result (string_bytes text.new ≡ string_bytes text.old
        ++ compact_text (value_data numbers (checked_shape desc.now) (value_view value.now))) }
{
    if fits(desc, value) {
        append(text, alloc, numbers, value, desc.desc())
    } else {
        text.push_str("null")
    }
}

// Appends a value. It is null where the value is of another kind than its description.
#[cycle(append)]
#[tactic(auto, unfolding(crate::specs::ToJson::to_data))]
fn append(
    text: &mut String,
    alloc: Global,
    numbers: NumberForm,
    value: &Value,
    desc: &Desc,
) -> Result<(), AllocError>
    ensures { OnOk result (string_bytes text.new ≡ string_bytes text.old
        ++ compact_text (to_data numbers (desc_view desc.now) (value_view value.now))) }
{
    match desc {
        Desc::Items(item, _) => match value {
            Value::Items(values) => append_list(text, alloc, numbers, values, item),
            _ => text.push_str("null"),
        },
        Desc::Row(item, _) => match value {
            Value::Row(values) => append_list(text, alloc, numbers, values, item),
            _ => text.push_str("null"),
        },
        _ => append_single(text, alloc, numbers, value, desc),
    }
}

// Appends a value that is no list.
#[tactic(auto, unfolding(crate::specs::ToJson::to_data))]
fn append_single(
    text: &mut String,
    alloc: Global,
    numbers: NumberForm,
    value: &Value,
    desc: &Desc,
) -> Result<(), AllocError>
    ensures { OnOk result (string_bytes text.new ≡ string_bytes text.old
        ++ compact_text (to_data numbers (desc_view desc.now) (value_view value.now))) }
{
    match (desc, value) {
        (Desc::Octet, Value::Octet(number)) => append_natural(text, u64::from(*number)),
        (Desc::Short, Value::Short(number)) => append_integer(text, i64::from(*number)),
        (Desc::UShort, Value::UShort(number)) => append_natural(text, u64::from(*number)),
        (Desc::Long, Value::Long(number)) => append_integer(text, i64::from(*number)),
        (Desc::ULong, Value::ULong(number)) => append_natural(text, u64::from(*number)),
        (Desc::LongLong, Value::LongLong(number)) if is_number(numbers, &i128::from(*number)) => {
            append_integer(text, *number)
        }
        (Desc::ULongLong, Value::ULongLong(number)) if is_number(numbers, &i128::from(*number)) => {
            append_natural(text, *number)
        }
        _ => text.push_str(made_text(alloc, numbers, value, desc)?.as_str()),
    }
}

// Appends the digits of a number of 0 or more.
fn append_natural(text: &mut String, number: u64) -> Result<(), AllocError>
    ensures { OnOk result (string_bytes text.new ≡ string_bytes text.old ++ decimal number) }
{
    text.push_str(Buffer::new().format(number))
}

// Appends the digits of a number, behind a sign where it is below 0.
fn append_integer(text: &mut String, number: i64) -> Result<(), AllocError>
    ensures { OnOk result
        (string_bytes text.new ≡ string_bytes text.old ++ signed_decimal number) }
{
    text.push_str(Buffer::new().format(number))
}

// Appends a list of values.
#[cycle(append)]
fn append_list(
    text: &mut String,
    alloc: Global,
    numbers: NumberForm,
    values: &[Value],
    item: &Desc,
) -> Result<(), AllocError>
    ensures { OnOk result (string_bytes text.new ≡ string_bytes text.old
        ++ compact_text (array (items_of (map (to_data numbers (desc_view item.now))
        (map value_view values.now))))) }
{
    text.push_str("[")?;
    for (i, value) in values.iter().enumerate() {
        if i > 0 {
            text.push_str(",")?;
        }
        append(text, alloc, numbers, value, item)?;
    }
    text.push_str("]")
}

// The text of the JSON value that is made of a value.
fn made_text(
    alloc: Global,
    numbers: NumberForm,
    value: &Value,
    desc: &Desc,
) -> Result<String, AllocError>
    ensures { IfOk result (λ text. string_bytes text
        ≡ compact_text (to_data numbers (desc_view desc.now) (value_view value.now))) }
{
    let json = to_json(alloc, numbers, value, desc)?;
    Ok(json.to_string(alloc)?)
}
