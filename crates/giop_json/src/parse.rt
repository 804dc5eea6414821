//! Parsing a JSON text. The parser is Rattle's serde_json; this file turns its errors into those of
//! this crate.
ghost use Rattle.giop_json.specs.DescFromJson.{json_in};
ghost use Rattle.giop_json.specs.Parse.{Parses};

use crate::form_fault::FormFault;
use serde_json::Value as Json;
use std::alloc::Global;

/// The JSON value of a text. Refused as BadJson where the text is no JSON or no UTF-8, or where
/// arrays and objects nest more than 127 deep; NoMemory when out of memory.
pub fn parse(alloc: Global, text: &[u8]) -> Result<Json, FormFault>
    ensures { Parses result (json_in text.now) }
{
    match Json::from_slice(alloc, text) {
        Ok(json) => Ok(json),
        Err(error) if error.is_memory() => Err(FormFault::NoMemory),
        Err(_) => Err(FormFault::BadJson),
    }
}
