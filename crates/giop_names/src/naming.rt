//! The name that a part is.
ghost use Rattle.std.specs.Prelude.{◌≡◌, option_map};
ghost use Rattle.serde_json.specs.View.{view};
ghost use Rattle.giop_names.specs.Scopes.{has_one_key, lone_type, name_in, text_in};

use crate::scope::Scope;
use serde_json::Value as Json;

/// The name that a part is, where it is one: `{"type":NAME}`.
pub fn name_in(scope: Scope, json: &Json) -> Option<&str>
    ensures { option_map (λ name. name.now) result ≡ name_in scope (view json.now) }
{
    match scope {
        Scope::Elsewhere | Scope::Named => lone_type(json),
        _ => None,
    }
}

// The text under the key `type`, in an object that has no other key.
fn lone_type(json: &Json) -> Option<&str>
    ensures { option_map (λ name. name.now) result ≡ lone_type (view json.now) }
{
    if !has_one_key(json) {
        return None;
    }
    match json.get("type") {
        Some(name) => name.as_str(),
        None => None,
    }
}

// Whether a part is an object of one key.
fn has_one_key(json: &Json) -> bool
    ensures { result ≡ has_one_key (view json.now) }
{
    match json.as_object() {
        Some(members) => members.len() == 1,
        None => false,
    }
}

/// The text that a part is, which is empty where it is none.
pub fn text_in(json: &Json) -> &str
    ensures { result.now ≡ text_in (view json.now) }
{
    match json {
        Json::String(text) => text.as_str(),
        _ => "",
    }
}
