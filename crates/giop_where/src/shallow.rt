//! How deep a JSON value nests: `shallow` in specs/Shallow.antt. Change both.
ghost use Rattle.std.specs.Prelude.{◌≡◌};
ghost use Rattle.giop_where.specs.Shallow.{shallow, items_shallow, members_shallow};
ghost use Rattle.serde_json.specs.View.{view, items_view, members_view};

use serde_json::{Map, Value as Json};

/// Whether arrays and objects nest so deep at most. It looks no deeper.
#[cycle(shallow)]
#[tactic(auto, unfolding(crate::specs::Shallow::shallow))]
pub fn is_shallow(json: &Json, levels: u32) -> bool
    ensures { result ≡ shallow levels (view json.now) }
{
    match json {
        Json::Array(list) => {
            if levels == 0 {
                return false;
            }
            are_shallow(list.as_slice(), levels - 1)
        }
        Json::Object(object) => {
            if levels == 0 {
                return false;
            }
            members_shallow(object, levels - 1)
        }
        _ => true,
    }
}

// Whether the items of a list nest so deep at most.
#[cycle(shallow)]
#[tactic(auto, unfolding(crate::specs::Shallow::items_shallow))]
fn are_shallow(list: &[Json], levels: u32) -> bool
    ensures { result ≡ items_shallow levels (items_view list.now) }
{
    for json in list {
        if !is_shallow(json, levels) {
            return false;
        }
    }
    true
}

// Whether the members of an object nest so deep at most.
#[cycle(shallow)]
#[tactic(auto, unfolding(crate::specs::Shallow::members_shallow))]
fn members_shallow(object: &Map<String, Json>, levels: u32) -> bool
    ensures { result ≡ members_shallow levels (members_view object.now.entries) }
{
    for (_, json) in object.iter() {
        if !is_shallow(json, levels) {
            return false;
        }
    }
    true
}
