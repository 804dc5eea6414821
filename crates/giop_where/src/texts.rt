//! The text of a JSON value, which is read as that value again.
ghost use Rattle.std.specs.Prelude.{◌≡◌, Some, IfOk, string_bytes};
ghost use Rattle.serde_json.specs.View.{view};
ghost use Rattle.giop_json.specs.DescFromJson.{json_in};

use crate::no_place::NoPlace;
use crate::shallow::is_shallow;
use serde_json::Value as Json;
use std::alloc::Global;

/// The text of a JSON value. Refused as TooDeep where its arrays and objects nest more than 127
/// deep, and the text isn't read again.
#[tactic(auto, using(crate::proofs::ShallowLemmas::read_again))]
pub fn text_of(alloc: Global, json: &Json) -> Result<String, NoPlace>
    ensures { IfOk result (λ text. json_in (string_bytes text) ≡ Some (view json.now)) }
{
    if !is_shallow(json, 127) {
        return Err(NoPlace::TooDeep);
    }
    Ok(json.to_string(alloc)?)
}
