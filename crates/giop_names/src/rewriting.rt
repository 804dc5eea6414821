//! What a part of an interface file is in the plain form: `plain_at` in specs/Plain.antt. Change
//! both.
ghost use Rattle.std.specs.Prelude.{◌≡◌, Ok, IfOk};
ghost use Rattle.serde_json.specs.View.{view, items_view, members_view};
ghost use Rattle.giop_names.specs.Scopes.{name_in};
ghost use Rattle.giop_names.specs.Plain.{Refuses, plain_at, by_name, stands_for, spelled, each_item, each_member, member_at};

use crate::naming::{name_in, text_in};
use crate::room::spend;
use crate::scope::{Scope, is_left_out, scope_at, scope_under};
use giop_json::FormFault;
use serde_json::{Map, Value as Json};
use std::alloc::Global;

/// What a part is in the plain form, of which `room` may still be behind names. Names and parts may
/// be nested within one another `levels` deep.
#[cycle(part)]
#[tactic(auto, unfolding(crate::specs::Plain::plain_at))]
pub fn plain_part(
    alloc: Global,
    types: &Json,
    scope: Scope,
    json: &Json,
    levels: u32,
    room: &mut usize,
) -> Result<Json, FormFault>
    ensures ok { IfOk result (λ plain.
        plain_at levels (view types.now) scope (view json.now) room.old
        ≡ Ok (view plain, room.new)) }
    ensures err { Refuses result (plain_at levels (view types.now) scope (view json.now) room.old) }
{
    if levels == 0 {
        return Err(FormFault::BadShape);
    }
    spend(scope, text_in(json), room)?;
    let plain = by_name(alloc, types, scope, json, levels - 1, room)?;
    Ok(plain)
}

// A part, by the name that it is.
#[cycle(part)]
fn by_name(
    alloc: Global,
    types: &Json,
    scope: Scope,
    json: &Json,
    levels: u32,
    room: &mut usize,
) -> Result<Json, FormFault>
    ensures ok { IfOk result (λ plain.
        by_name (plain_at levels (view types.now)) (view types.now) scope (view json.now)
        (name_in scope (view json.now)) room.old
        ≡ Ok (view plain, room.new)) }
    ensures err { Refuses result
        (by_name (plain_at levels (view types.now)) (view types.now) scope (view json.now)
        (name_in scope (view json.now)) room.old) }
{
    match name_in(scope, json) {
        Some(name) => named(alloc, types, name, levels, room),
        None => spelled(alloc, types, scope, json, levels, room),
    }
}

// What a name stands for, in the plain form.
#[cycle(part)]
fn named(
    alloc: Global,
    types: &Json,
    name: &str,
    levels: u32,
    room: &mut usize,
) -> Result<Json, FormFault>
    ensures ok { IfOk result (λ plain.
        stands_for (plain_at levels (view types.now)) (view types.now) name.now room.old
        ≡ Ok (view plain, room.new)) }
    ensures err { Refuses result
        (stands_for (plain_at levels (view types.now)) (view types.now) name.now room.old) }
{
    match types.get(name) {
        Some(json) => plain_part(alloc, types, Scope::Named, json, levels, room),
        None => Err(FormFault::BadShape),
    }
}

// A part that is no name, in the plain form.
#[cycle(part)]
fn spelled(
    alloc: Global,
    types: &Json,
    scope: Scope,
    json: &Json,
    levels: u32,
    room: &mut usize,
) -> Result<Json, FormFault>
    ensures ok { IfOk result (λ plain.
        spelled (plain_at levels (view types.now)) scope (view json.now) room.old
        ≡ Ok (view plain, room.new)) }
    ensures err { Refuses result
        (spelled (plain_at levels (view types.now)) scope (view json.now) room.old) }
{
    match json {
        Json::Array(list) => {
            let items = plain_items(alloc, types, scope_at(scope), list.as_slice(), levels, room)?;
            Ok(Json::Array(items))
        }
        Json::Object(object) => {
            let members = plain_members(alloc, types, scope, object, levels, room)?;
            Ok(Json::Object(members))
        }
        _ => Ok(json.clone()?),
    }
}

// The items of a list, in the plain form.
#[cycle(part)]
fn plain_items(
    alloc: Global,
    types: &Json,
    scope: Scope,
    list: &[Json],
    levels: u32,
    room: &mut usize,
) -> Result<Vec<Json>, FormFault>
    ensures ok { IfOk result (λ plain.
        each_item (plain_at levels (view types.now) scope) (items_view list.now) room.old
        ≡ Ok (items_view plain.items, room.new)) }
    ensures err { Refuses result
        (each_item (plain_at levels (view types.now) scope) (items_view list.now) room.old) }
{
    let mut items = Vec::with_capacity(alloc, list.len())?;
    for json in list {
        let item = plain_part(alloc, types, scope, json, levels, room)?;
        items.push(item)?;
    }
    Ok(items)
}

// The members of an object, in the plain form, without those that it leaves out.
#[cycle(part)]
fn plain_members(
    alloc: Global,
    types: &Json,
    scope: Scope,
    object: &Map<String, Json>,
    levels: u32,
    room: &mut usize,
) -> Result<Map<String, Json>, FormFault>
    ensures ok { IfOk result (λ plain. each_member (plain_at levels (view types.now)) scope
        (members_view object.now.entries) room.old
        ≡ Ok (members_view plain.entries, room.new)) }
    ensures err { Refuses result (each_member (plain_at levels (view types.now)) scope
        (members_view object.now.entries) room.old) }
{
    let mut members = Map::new(alloc);
    for (key, json) in object.iter() {
        if !is_left_out(scope, key.as_str()) {
            let member = plain_member(alloc, types, scope, key.as_str(), json, levels, room)?;
            let name = key.clone()?;
            drop(members.insert(name, member)?);
        }
    }
    Ok(members)
}

// What is under a key, in the plain form.
#[cycle(part)]
fn plain_member(
    alloc: Global,
    types: &Json,
    scope: Scope,
    key: &str,
    json: &Json,
    levels: u32,
    room: &mut usize,
) -> Result<Json, FormFault>
    ensures ok { IfOk result (λ plain.
        member_at (plain_at levels (view types.now)) scope key.now (view json.now) room.old
        ≡ Ok (view plain, room.new)) }
    ensures err { Refuses result
        (member_at (plain_at levels (view types.now)) scope key.now (view json.now) room.old) }
{
    spend(scope, key, room)?;
    plain_part(alloc, types, scope_under(scope, key), json, levels, room)
}
