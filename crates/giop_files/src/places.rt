//! Where a refused file of an interface, a description or a value is at fault, as giop_where tells
//! it. Nothing is told where that isn't known, as when it is out of memory.
ghost use Rattle.std.specs.Prelude.{IfSome};
ghost use Rattle.serde_json.specs.View.{view};
ghost use Rattle.giop_where.specs.First.{IsPlace};
ghost use Rattle.giop_files.specs.Places.{IsPlaceIn, part_of};

mod names;
pub mod parts;

use crate::files::interface_text::InterfaceText;
use crate::places::names::path_in_file;
use giop_json::{FormFault, parse_json};
use giop_where::{Part, Place, Role, fault_code};
use serde_json::Value as Json;
use std::alloc::Global;

/// The first fault of this kind in a text of this role, which stands by itself.
pub(crate) fn of_file(alloc: Global, role: Role, text: &[u8], fault: FormFault) -> Option<Place>
    ensures { IfSome result (IsPlaceIn role text.now text.now fault) }
{
    match parse_json(alloc, text) {
        Ok(json) => first_place(alloc, role, &json, &json, fault_code(fault)),
        Err(_) => None,
    }
}

/// The first fault of this kind in the text of an interface's file, where it has a plain form.
pub(crate) fn of_interface(alloc: Global, text: &InterfaceText, fault: FormFault) -> Option<Place> {
    let mut place = of_file(alloc, Role::Interface, text.as_slice(), fault)?;
    match parse_json(alloc, text.given()) {
        Ok(file) => {
            place.path = path_in_file(alloc, &file, place.path).ok()?;
            Some(place)
        }
        Err(_) => None,
    }
}

/// The first fault of this kind in the text of a value, by the text of its description.
pub fn of_value(alloc: Global, desc: &[u8], text: &[u8], fault: FormFault) -> Option<Place>
    ensures { IfSome result (IsPlaceIn Role.Value desc.now text.now fault) }
{
    match (parse_json(alloc, desc), parse_json(alloc, text)) {
        (Ok(desc), Ok(json)) => first_place(alloc, Role::Value, &desc, &json, fault_code(fault)),
        _ => None,
    }
}

// The first fault of this number in a part, by what stands beside it.
fn first_place(alloc: Global, role: Role, beside: &Json, json: &Json, number: u8) -> Option<Place>
    ensures { IfSome result (IsPlace number (part_of role (view beside.now) (view json.now))) }
{
    match Place::find(alloc, Part { role, beside, json }, number) {
        Ok(place) => Some(place),
        Err(_) => None,
    }
}
