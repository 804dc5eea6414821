//! The smallest file that holds a part: `file_of` in specs/Alone.antt. Change both.
ghost use Rattle.std.specs.Prelude.{◌≡◌, IfOk};
ghost use Rattle.serde_json.specs.View.{view};
ghost use Rattle.giop_where.specs.Alone.{only, both, list_of, offering, case_of, union_of, file_of};

use crate::part::Part;
use crate::role::Role;
use serde_json::{Map, Value as Json, put};
use std::alloc::{AllocError, Global};

/// The smallest file that holds a part: of an interface, or of a description.
pub fn file_of(alloc: Global, part: Part<'_>) -> Result<Json, AllocError>
    ensures { IfOk result
        (λ file. view file ≡ file_of part.entry.role (view part.entry.beside.now) (view part.entry.json.now)) }
{
    let json = part.json.clone()?;
    match part.role {
        Role::Operations => only(alloc, "operations", json),
        Role::Operation => offering(alloc, json),
        Role::Parameters => offering(alloc, only(alloc, "ins", json)?),
        Role::Parameter => offering(alloc, only(alloc, "ins", list_of(alloc, json)?)?),
        Role::Oneway => offering(alloc, only(alloc, "oneway", json)?),
        Role::Exceptions => {
            both(
                alloc,
                "exceptions",
                json,
                "operations",
                Json::Object(Map::new(alloc)),
            )
        }
        Role::Unknown => only(alloc, "?", json),
        Role::Names => only(alloc, "enum", json),
        Role::Name => only(alloc, "enum", list_of(alloc, json)?),
        Role::Bound => only(alloc, "string", json),
        Role::Length => {
            both(
                alloc,
                "array",
                Json::try_from_str(alloc, "octet")?,
                "length",
                json,
            )
        }
        Role::Members => only(alloc, "struct", json),
        Role::Member => only(alloc, "struct", list_of(alloc, json)?),
        Role::Cases => union_of(alloc, json, part.beside),
        Role::Case => union_of(alloc, list_of(alloc, json)?, part.beside),
        Role::Labels => union_of(alloc, case_of(alloc, json)?, part.beside),
        Role::Label => union_of(alloc, case_of(alloc, list_of(alloc, json)?)?, part.beside),
        _ => Ok(json),
    }
}

// An object of one member.
fn only(alloc: Global, key: &str, json: Json) -> Result<Json, AllocError>
    ensures { IfOk result (λ object. view object ≡ only key.now (view json)) }
{
    let mut object = Map::new(alloc);
    put(&mut object, alloc, key, json)?;
    Ok(Json::Object(object))
}

// An object of two members.
fn both(
    alloc: Global,
    key: &str,
    json: Json,
    other_key: &str,
    other: Json,
) -> Result<Json, AllocError>
    ensures { IfOk result
        (λ object. view object ≡ both key.now (view json) other_key.now (view other)) }
{
    let mut object = Map::new(alloc);
    put(&mut object, alloc, key, json)?;
    put(&mut object, alloc, other_key, other)?;
    Ok(Json::Object(object))
}

// A list of one item.
fn list_of(alloc: Global, json: Json) -> Result<Json, AllocError>
    ensures { IfOk result (λ list. view list ≡ list_of (view json)) }
{
    let mut list = Vec::new(alloc);
    list.push(json)?;
    Ok(Json::Array(list))
}

// An interface of one operation.
fn offering(alloc: Global, operation: Json) -> Result<Json, AllocError>
    ensures { IfOk result (λ file. view file ≡ offering (view operation)) }
{
    only(alloc, "operations", only(alloc, "a", operation)?)
}

// A list of a case that has these labels.
fn case_of(alloc: Global, labels: Json) -> Result<Json, AllocError>
    ensures { IfOk result (λ cases. view cases ≡ case_of (view labels)) }
{
    let mut case = Vec::new(alloc);
    case.push(labels)?;
    case.push(Json::try_from_str(alloc, "a")?)?;
    case.push(Json::try_from_str(alloc, "octet")?)?;
    list_of(alloc, Json::Array(case))
}

// A union of these cases.
fn union_of(alloc: Global, cases: Json, disc: &Json) -> Result<Json, AllocError>
    ensures { IfOk result (λ file. view file ≡ union_of (view cases) (view disc.now)) }
{
    both(alloc, "cases", cases, "union", disc.clone()?)
}
