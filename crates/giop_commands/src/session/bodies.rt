//! What the bodies of messages hold, as the text of a table's lines. The texts are
//! specs/Bodies.antt: change both.
ghost use Rattle.std.specs.Prelude.{◌≡◌, ◌≤◌, map, IfOk};
ghost use Rattle.std.specs.String.{string_bytes};
ghost use Rattle.serde_json.specs.View.{view};
ghost use Rattle.giop_types.specs.Descriptions.CheckedShape.{checked_shape};
ghost use Rattle.giop_types.specs.Values.Views.{value_view};
ghost use Rattle.giop_commands.specs.Bodies.{forward_text, value_data, values_data, values_text};

use giop_cdr::EncodeFault;
use giop_ior::{Ior, ior_to_text};
use giop_types::{CheckedDesc, FormFault, NumberForm, Parameter, Value, value_to_json_in};
use percent_encoding::ascii_str;
use serde_json::Value as Json;
use std::alloc::{AllocError, Global};

/// Values as a JSON list, each by the description of its parameter, their whole numbers in a form.
pub fn values_text(
    alloc: Global,
    numbers: NumberForm,
    parameters: &[Parameter],
    values: &[Value],
) -> Result<String, AllocError>
    ensures { IfOk result (λ text. string_bytes text
        ≡ values_text numbers parameters.now (map value_view values.now)) }
{
    let list = values_json(alloc, numbers, parameters, values)?;
    Ok(list.to_string(alloc)?)
}

/// The text of the reference that a Reply forwards to.
pub fn forward_text(alloc: Global, ior: &Ior) -> Result<String, AllocError>
    ensures { IfOk result (λ text. string_bytes text ≡ forward_text ior.now) }
{
    match ior_to_text(alloc, ior) {
        Ok(text) => String::from_str(alloc, ascii_str(text.as_slice())),
        Err(EncodeFault::Unfit) => String::from_str(alloc, "-"),
        Err(EncodeFault::NoMemory) => Err(AllocError),
    }
}

fn values_json(
    alloc: Global,
    numbers: NumberForm,
    parameters: &[Parameter],
    values: &[Value],
) -> Result<Json, AllocError>
    ensures { IfOk result (λ json. view json
        ≡ values_data numbers parameters.now (map value_view values.now)) }
{
    let mut list = Vec::with_capacity(alloc, values.len())?;
    for i in 0..parameters.len().min(values.len()) {
        let json = value_json(alloc, numbers, &parameters[i].desc, &values[i])?;
        list.push(json)?;
    }
    Ok(Json::Array(list))
}

// A value by its description; null where it is no value of that.
fn value_json(
    alloc: Global,
    numbers: NumberForm,
    desc: &CheckedDesc,
    value: &Value,
) -> Result<Json, AllocError>
    ensures { IfOk result (λ json. view json
        ≡ value_data numbers (checked_shape desc.now) (value_view value.now)) }
{
    match value_to_json_in(alloc, numbers, desc, value) {
        Ok(json) => Ok(json),
        Err(FormFault::Unfit) => Ok(Json::Null),
        Err(_) => Err(AllocError),
    }
}
