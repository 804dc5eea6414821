//! The plain form of an interface file, and the interface's own id.
ghost use Rattle.std.specs.Prelude.{◌≡◌, string_bytes, option_map, Ok};
ghost use Rattle.serde_json.specs.Data.{null};
ghost use Rattle.serde_json.specs.View.{view};
ghost use Rattle.giop_json.specs.DescFromJson.{json_in};
ghost use Rattle.giop_json.specs.FromJson.{Reads};
ghost use Rattle.giop_names.specs.Interface.{types_of, plain_of, readable, plain_told, told, id_told};

use crate::beside::is_lawful;
use crate::rewriting::plain_part;
use crate::scope::Scope;
use giop_json::{FormFault, parse_json};
use giop_where::is_shallow;
use serde_json::Value as Json;
use std::alloc::Global;

/// How deep names and parts may be nested within one another.
const LEVELS: u32 = 256;

/// How much may stand behind names in a plain form: its parts, its keys, and the octets of its keys
/// and texts.
const ROOM: usize = 1_000_000;

/// The text of the plain form of an interface file, which `interface_from_json` reads.
pub fn plain_interface(alloc: Global, text: &[u8]) -> Result<String, FormFault>
    ensures { Reads (λ plain. json_in (string_bytes plain)) result
        (told (plain_told (json_in text.now))) }
{
    let file = parse_json(alloc, text)?;
    let plain = plain_of(alloc, &file)?;
    written(alloc, &plain)
}

/// The interface's own id, where the file has one.
pub fn interface_id(alloc: Global, text: &[u8]) -> Result<Option<String>, FormFault>
    ensures { Reads (option_map string_bytes) result (id_told (json_in text.now)) }
{
    let file = parse_json(alloc, text)?;
    if !is_lawful(&file) {
        return Err(FormFault::BadShape);
    }
    match file.get("id") {
        Some(Json::String(id)) => Ok(Some(id.clone()?)),
        _ => Ok(None),
    }
}

// The plain form of a file.
fn plain_of(alloc: Global, file: &Json) -> Result<Json, FormFault>
    ensures { Reads view result (plain_of (view file.now)) }
{
    if !is_lawful(file) {
        return Err(FormFault::BadShape);
    }
    let none = Json::Null;
    let types = types_of(file, &none);
    let mut room = ROOM;
    plain_part(alloc, types, Scope::Interface, file, LEVELS, &mut room)
}

// The types that a file names, where it names any.
fn types_of<'a>(file: &'a Json, none: &'a Json) -> &'a Json
    ensures { view none.now ≡ null → view result.now ≡ types_of (view file.now) }
{
    match file.get("types") {
        Some(types) => types,
        None => none,
    }
}

// The text of a plain form.
#[tactic(auto, using(giop_where::proofs::ShallowLemmas::read_again))]
fn written(alloc: Global, plain: &Json) -> Result<String, FormFault>
    ensures { Reads (λ text. json_in (string_bytes text)) result
        (told (readable (Ok (view plain.now)))) }
{
    if !is_shallow(plain, 127) {
        return Err(FormFault::BadShape);
    }
    Ok(plain.to_string(alloc)?)
}
