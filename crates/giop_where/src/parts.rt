//! The parts of a part, and the first of them that is refused. They are specs/Parts.antt and
//! specs/First.antt: change them together.
ghost use Rattle.std.specs.Prelude.{◌≡◌, IfOk, option_map};
ghost use Rattle.giop_where.specs.Parts.{beside_of, part_at, part_under, part_view, value_part, role_at, role_under, interface_role, operation_role, description_role, pair_role, case_role};
ghost use Rattle.giop_where.specs.First.{first_item, first_member, disc_of, first_part, first_union, placed_view};
ghost use Rattle.serde_json.specs.View.{view, items_view, members_view};

use crate::no_place::NoPlace;
use crate::part::Part;
use crate::role::Role;
use crate::step::Step;
use crate::values::{argument_at, value_at, value_under};
use serde_json::{Map, Value as Json};
use std::alloc::Global;

/// A part of a part, and the step to it.
#[derive(Drop)]
pub struct Placed<'a> {
    /// The step.
    pub step: Step,
    /// The part.
    pub part: Part<'a>,
}

// The role of a member of an interface.
fn interface_role(key: &str) -> Role
    ensures { result ≡ interface_role key.now }
{
    match key {
        "operations" => Role::Operations,
        "exceptions" => Role::Exceptions,
        _ => Role::Unknown,
    }
}

// The role of a member of an operation.
fn operation_role(key: &str) -> Role
    ensures { result ≡ operation_role key.now }
{
    match key {
        "ins" => Role::Parameters,
        "outs" => Role::Parameters,
        "oneway" => Role::Oneway,
        _ => Role::Unknown,
    }
}

// The role of a member of a description.
fn description_role(key: &str) -> Role
    ensures { result ≡ description_role key.now }
{
    match key {
        "string" => Role::Bound,
        "octets" => Role::Bound,
        "enum" => Role::Names,
        "struct" => Role::Members,
        "sequence" => Role::Description,
        "bound" => Role::Bound,
        "array" => Role::Description,
        "length" => Role::Length,
        "union" => Role::Description,
        "cases" => Role::Cases,
        "default" => Role::Member,
        _ => Role::Unknown,
    }
}

// The role of what stands under a key.
fn role_under(role: Role, key: &str) -> Role
    ensures { result ≡ role_under role key.now }
{
    match role {
        Role::Interface => interface_role(key),
        Role::Operations => Role::Operation,
        Role::Operation => operation_role(key),
        Role::Exceptions => Role::Parameters,
        Role::Description => description_role(key),
        _ => Role::Nothing,
    }
}

// The role of an item of a name and its description.
fn pair_role(index: usize) -> Role
    ensures { result ≡ pair_role index }
{
    match index {
        0 => Role::Name,
        1 => Role::Description,
        _ => Role::Unknown,
    }
}

// The role of an item of a case.
fn case_role(index: usize) -> Role
    ensures { result ≡ case_role index }
{
    match index {
        0 => Role::Labels,
        _ => pair_role(index - 1),
    }
}

// The role of an item of a list.
fn role_at(role: Role, index: usize) -> Role
    ensures { result ≡ role_at role index }
{
    match role {
        Role::Parameters => Role::Parameter,
        Role::Parameter => pair_role(index),
        Role::Names => Role::Name,
        Role::Members => Role::Member,
        Role::Member => pair_role(index),
        Role::Cases => Role::Case,
        Role::Case => case_role(index),
        Role::Labels => Role::Label,
        _ => Role::Nothing,
    }
}

// What the parts of a part are judged by.
fn beside_of<'a>(part: Part<'a>) -> &'a Json
    ensures { view result.now ≡ beside_of (part_view part.entry) }
{
    match part.role {
        Role::Description => match part.json.get("union") {
            Some(disc) => disc,
            None => part.json,
        },
        _ => part.beside,
    }
}

// A value by its description, where it has one.
fn value_part<'a>(beside: &'a Json, desc: Option<&'a Json>, json: &'a Json) -> Part<'a>
    ensures { part_view result ≡ value_part (view beside.now)
        (option_map (λ d. view d.now) desc.entry) (view json.now) }
{
    match desc {
        Some(desc) => Part {
            role: Role::Value,
            beside: desc,
            json,
        },
        None => Part {
            role: Role::Nothing,
            beside,
            json,
        },
    }
}

// The part under a key.
fn part_under<'a>(part: Part<'a>, key: &str, json: &'a Json) -> Part<'a>
    ensures { part_view result ≡ part_under (part_view part.entry) key.now (view json.now) }
{
    match part.role {
        Role::Value => value_part(part.beside, value_under(part.beside, key), json),
        role => Part {
            role: role_under(role, key),
            beside: beside_of(part),
            json,
        },
    }
}

// The part that has so many before it.
fn part_at<'a>(part: Part<'a>, index: usize, json: &'a Json) -> Part<'a>
    ensures { part_view result ≡ part_at (part_view part.entry) index (view json.now) }
{
    match part.role {
        Role::Value => value_part(part.beside, value_at(part.beside), json),
        Role::Arguments => value_part(part.beside, argument_at(part.beside, index), json),
        role => Part {
            role: role_at(role, index),
            beside: beside_of(part),
            json,
        },
    }
}

/// The first part of a part that alone is refused with a fault of this number.
pub fn first_part<'a>(
    alloc: Global,
    part: Part<'a>,
    number: u8,
) -> Result<Option<Placed<'a>>, NoPlace>
    ensures { IfOk result
        (λ placed. option_map placed_view placed ≡ first_part number (part_view part.entry)) }
{
    match part.json {
        Json::Array(list) => {
            let placed = first_item(alloc, part, list.as_slice(), number)?;
            Ok(placed)
        }
        Json::Object(object) => {
            let union = first_union(alloc, part, number)?;
            let Some(placed) = union else {
                let placed = first_member(alloc, part, object, number)?;
                return Ok(placed);
            };
            Ok(Some(placed))
        }
        _ => Ok(None),
    }
}

// The discriminant of a description, where it is one of a union.
fn disc_of<'a>(part: Part<'a>) -> Option<&'a Json>
    ensures { option_map (λ d. view d.now) result ≡ disc_of (part_view part.entry) }
{
    match part.role {
        Role::Description => part.json.get("union"),
        _ => None,
    }
}

// The discriminant of a union's description, where it is refused so.
fn first_union<'a>(alloc: Global, part: Part<'a>, number: u8) -> Result<Option<Placed<'a>>, NoPlace>
    ensures { IfOk result
        (λ placed. option_map placed_view placed ≡ first_union number (part_view part.entry)) }
{
    let Some(disc) = disc_of(part) else {
        return Ok(None);
    };
    let inner = part_under(part, "union", disc);
    if inner.refusal(alloc)? == number {
        let step = Step::Key(String::from_str(alloc, "union")?);
        return Ok(Some(Placed { step, part: inner }));
    }
    Ok(None)
}

// The first item of a list that is refused so.
fn first_item<'a>(
    alloc: Global,
    part: Part<'a>,
    list: &'a [Json],
    number: u8,
) -> Result<Option<Placed<'a>>, NoPlace>
    ensures { IfOk result (λ placed. option_map placed_view placed
        ≡ first_item number (part_view part.entry) 0 (items_view list.now)) }
{
    for (index, json) in list.iter().enumerate() {
        let inner = part_at(part, index, json);
        if inner.refusal(alloc)? == number {
            let step = Step::Index(index);
            return Ok(Some(Placed { step, part: inner }));
        }
    }
    Ok(None)
}

// The first member of an object that is refused so.
fn first_member<'a>(
    alloc: Global,
    part: Part<'a>,
    object: &'a Map<String, Json>,
    number: u8,
) -> Result<Option<Placed<'a>>, NoPlace>
    ensures { IfOk result (λ placed. option_map placed_view placed
        ≡ first_member number (part_view part.entry) (members_view object.now.entries)) }
{
    for (key, json) in object.iter() {
        let inner = part_under(part, key.as_str(), json);
        if inner.refusal(alloc)? == number {
            let step = Step::Key(key.clone()?);
            return Ok(Some(Placed { step, part: inner }));
        }
    }
    Ok(None)
}
