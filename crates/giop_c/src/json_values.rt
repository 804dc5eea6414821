//! The values of parameters as a JSON text, a list of them. Its form is specs/JsonValues.antt, and
//! for users docs/FORMATS.md: change them together.
ghost use Rattle.std.specs.Prelude.{◌≡◌, ◌↔◌, true, false, map, IfOk, IsErrOf};
ghost use Rattle.serde_json.specs.Data.{array};
ghost use Rattle.serde_json.specs.View.{items_of, items_view, view};
ghost use Rattle.giop_json.specs.FromJson.{Reads};
ghost use Rattle.giop_types.specs.Values.Fits.{fields_fit};
ghost use Rattle.giop_types.specs.Values.Views.{value_view};
ghost use Rattle.giop_msg.specs.Messages.Body.{fields_in};
ghost use Rattle.giop_c.specs.JsonValues.{each_data, each_told, text_of_values, values_of_text};

use giop_json::{FormFault, parse_json, value_from_json, value_to_json};
use giop_types::{Parameter, Value, ValueList};
use serde_json::Value as Json;
use std::alloc::Global;

/// The values of parameters that a JSON text lists.
///
/// Refused as BadJson where the text is no JSON; as BadShape where it is no list, or where one of
/// the values is of another form; else as Unfit where one doesn't fit its description, or where they
/// are more or fewer than the parameters. Out of memory is NoMemory, and may stand in place of any.
pub fn values_from_text(
    alloc: Global,
    parameters: &[Parameter],
    text: &[u8],
) -> Result<ValueList, FormFault>
    ensures { Reads (λ values. values) result (values_of_text parameters.now text.now) }
{
    let json = parse_json(alloc, text)?;
    match json.as_array() {
        Some(list) => values_of(alloc, parameters, list.as_slice()),
        None => Err(FormFault::BadShape),
    }
}

// The values that a list says, one after the other. One that doesn't fit is told behind all others.
fn values_of(alloc: Global, parameters: &[Parameter], list: &[Json]) -> Result<ValueList, FormFault>
    ensures { Reads (λ values. values) result (each_told parameters.now (items_view list.now)) }
{
    let mut values = ValueList::new(alloc);
    let mut fit = true;
    for i in 0..list.len().min(parameters.len()) {
        match value_from_json(alloc, &parameters[i].desc, &list[i]) {
            Ok(value) => values.push(value)?,
            Err(FormFault::Unfit) => fit = false,
            Err(why) => return Err(why),
        }
    }
    if fit && list.len() == parameters.len() {
        Ok(values)
    } else {
        Err(FormFault::Unfit)
    }
}

/// The values of parameters as a JSON text, a list of them without blanks.
///
/// Refused as Unfit where there are not as many values as parameters, or one isn't of its
/// parameter's description; else as NoMemory when out of memory.
pub fn values_to_text(
    alloc: Global,
    parameters: &[Parameter],
    values: &[Value],
) -> Result<Vec<u8>, FormFault>
    ensures value { IfOk result (λ text. text.items
        ≡ text_of_values parameters.now (map value_view values.now)) }
    ensures fit { IfOk result (λ text.
        fields_fit (fields_in parameters.now) (map value_view values.now) ≡ true) }
    ensures err { IsErrOf result FormFault.Unfit
        → fields_fit (fields_in parameters.now) (map value_view values.now) ≡ false }
{
    let list = list_of(alloc, parameters, values)?;
    Ok(list.to_vec(alloc)?)
}

// The values of parameters as a JSON list.
fn list_of(alloc: Global, parameters: &[Parameter], values: &[Value]) -> Result<Json, FormFault>
    ensures value { IfOk result (λ json. view json
        ≡ array (items_of (each_data parameters.now (map value_view values.now)))) }
    ensures fit { IfOk result (λ json.
        fields_fit (fields_in parameters.now) (map value_view values.now) ≡ true) }
    ensures err { IsErrOf result FormFault.Unfit
        → fields_fit (fields_in parameters.now) (map value_view values.now) ≡ false }
{
    if parameters.len() != values.len() {
        return Err(FormFault::Unfit);
    }
    let mut list = Vec::with_capacity(alloc, values.len())?;
    for i in 0..parameters.len() {
        let json = value_to_json(alloc, &parameters[i].desc, &values[i])?;
        list.push(json)?;
    }
    Ok(Json::Array(list))
}
