//! Where a part of calls or answers is at fault, by the number of the fault.
ghost use Rattle.std.specs.Prelude.{◌≡◌, IfOk, IfSome};
ghost use Rattle.serde_json.specs.Data.{string};
ghost use Rattle.serde_json.specs.View.{view};
ghost use Rattle.giop_where.specs.First.{IsPlace};
ghost use Rattle.giop_where.specs.Parts.{key as key_step, step_view};
ghost use Rattle.giop_files.specs.Places.{IsPlaceInWhole, IsPlaceUnder, part_of, whole_of};

use giop_where::{NoPlace, Part, Place, Role, Step};
use serde_json::Value as Json;
use std::alloc::{AllocError, Global};

/// The fault of what stands under a key, by the name of its description.
pub fn leaf_place(
    alloc: Global,
    name: &str,
    desc: &str,
    json: &Json,
    number: u8,
) -> Result<Option<Place>, NoPlace>
    ensures { IfOk result (λ found. IfSome found (IsPlaceUnder name.now number
        (part_of Role.Value (string desc.now) (view json.now)))) }
{
    let beside = Json::try_from_str(alloc, desc)?;
    let part = Part {
        role: Role::Value,
        beside: &beside,
        json,
    };
    if part.refusal(alloc)? != number {
        return Ok(None);
    }
    let place = Place::find(alloc, part, number)?;
    Ok(Some(place.under(key(alloc, name)?)?))
}

/// The fault of a list of values, or of the whole that it stands in.
pub fn arguments_place(
    alloc: Global,
    name: &str,
    beside: &Json,
    json: &Json,
    all: &Json,
    role: Role,
    number: u8,
) -> Result<Place, NoPlace>
    ensures { IfOk result (IsPlaceInWhole name.now number
        (part_of Role.Arguments (view beside.now) (view json.now)) (whole_of role (view all.now))) }
{
    let part = Part {
        role: Role::Arguments,
        beside,
        json,
    };
    let place = Place::find(alloc, part, number)?;
    if place.path.is_empty() && json.is_array() {
        return whole(alloc, role, all, number);
    }
    Ok(place.under(key(alloc, name)?)?)
}

/// A part that is at fault as a whole.
pub fn whole(alloc: Global, role: Role, json: &Json, number: u8) -> Result<Place, NoPlace>
    ensures { IfOk result (IsPlace number (whole_of role (view json.now))) }
{
    let part = Part {
        role,
        beside: json,
        json,
    };
    Place::find(alloc, part, number)
}

/// The step to what stands under a key.
pub fn key(alloc: Global, name: &str) -> Result<Step, AllocError>
    ensures { IfOk result (λ step. step_view step ≡ key_step name.now) }
{
    Ok(Step::Key(String::from_str(alloc, name)?))
}
