//! The descriptions of a value's parts, found in the JSON of its description. They are
//! specs/Parts.antt: change both.
ghost use Rattle.std.specs.Prelude.{◌≡◌, option_map, option_and_then};
ghost use Rattle.serde_json.specs.Find.{as_array};
ghost use Rattle.serde_json.specs.View.{view, items_view};
ghost use Rattle.giop_json.specs.DescFromJson.{pair_in};
ghost use Rattle.giop_where.specs.Parts.{named_in, member_named, disc_under, value_under, value_at, argument_at};

use serde_json::Value as Json;

// The two items of a list.
#[tactic(auto, using(giop_json::proofs::ParseLemmas::short_pair, giop_json::proofs::ParseLemmas::long_pair))]
fn pair_of(json: &Json) -> Option<(&Json, &Json)>
    ensures { option_map (λ pair. (view pair.0.now, view pair.1.now)) result
        ≡ option_and_then pair_in (as_array (view json.now)) }
{
    match json.as_array() {
        Some(list) => match list.as_slice() {
            [one, two] => Some((one, two)),
            _ => None,
        },
        None => None,
    }
}

// The description of a member, where it has this name.
fn named_in<'a>(key: &str, member: &'a Json) -> Option<&'a Json>
    ensures { option_map (λ d. view d.now) result ≡ named_in key.now (view member.now) }
{
    match pair_of(member) {
        Some((name, desc)) => match name.as_str() {
            Some(name) if name == key => Some(desc),
            _ => None,
        },
        None => None,
    }
}

// The description of the first member of this name.
fn member_named<'a>(key: &str, members: &'a [Json]) -> Option<&'a Json>
    ensures { option_map (λ d. view d.now) result ≡ member_named key.now (items_view members.now) }
{
    for member in members {
        if let Some(desc) = named_in(key, member) {
            return Some(desc);
        }
    }
    None
}

// The description of a struct's member.
fn member_under<'a>(key: &str, members: &'a Json) -> Option<&'a Json>
    ensures { option_map (λ d. view d.now) result
        ≡ option_and_then (member_named key.now) (as_array (view members.now)) }
{
    match members.as_array() {
        Some(list) => member_named(key, list.as_slice()),
        None => None,
    }
}

// The description of a union's discriminant, under its key.
fn disc_under<'a>(key: &str, disc: &'a Json) -> Option<&'a Json>
    ensures { option_map (λ d. view d.now) result ≡ disc_under key.now (view disc.now) }
{
    match key {
        "disc" => Some(disc),
        _ => None,
    }
}

/// The description of what stands under a key of a value.
pub fn value_under<'a>(desc: &'a Json, key: &str) -> Option<&'a Json>
    ensures { option_map (λ d. view d.now) result ≡ value_under (view desc.now) key.now }
{
    if let Some(members) = desc.get("struct") {
        return member_under(key, members);
    }
    match desc.get("union") {
        Some(disc) => disc_under(key, disc),
        None => None,
    }
}

/// The description of the items of a value.
pub fn value_at(desc: &Json) -> Option<&Json>
    ensures { option_map (λ d. view d.now) result ≡ value_at (view desc.now) }
{
    match desc.get("sequence") {
        Some(item) => Some(item),
        None => desc.get("array"),
    }
}

/// The description of the parameter that has so many before it.
pub fn argument_at(parameters: &Json, index: usize) -> Option<&Json>
    ensures { option_map (λ d. view d.now) result ≡ argument_at (view parameters.now) index }
{
    match parameters.get(index) {
        Some(parameter) => match pair_of(parameter) {
            Some((_, desc)) => Some(desc),
            None => None,
        },
        None => None,
    }
}
