//! What an interface file says beside the plain form: specs/Beside.antt. Change both.
ghost use Rattle.std.specs.Prelude.{◌≡◌, option_map};
ghost use Rattle.serde_json.specs.View.{view, items_view, members_view};
ghost use Rattle.giop_names.specs.Beside.{may_be_text, may_be_object, is_exception, are_exceptions, may_be_raises, are_lawful, may_be_operations, is_lawful};

use serde_json::{Map, Value as Json};

/// Whether the id, the comments, the types and what operations raise have their forms.
pub fn is_lawful(file: &Json) -> bool
    ensures { result ≡ is_lawful (view file.now) }
{
    may_be_text(file.get("id"))
        && may_be_text(file.get("comment"))
        && may_be_object(file.get("types"))
        && may_be_operations(file, file.get("operations"))
}

// Whether a part is a text, where it is there.
fn may_be_text(json: Option<&Json>) -> bool
    ensures { result ≡ may_be_text (option_map (λ j. view j.now) json.entry) }
{
    match json {
        Some(json) => json.is_string(),
        None => true,
    }
}

// Whether a part is an object, where it is there.
fn may_be_object(json: Option<&Json>) -> bool
    ensures { result ≡ may_be_object (option_map (λ j. view j.now) json.entry) }
{
    match json {
        Some(json) => json.is_object(),
        None => true,
    }
}

// Whether each of the operations has lawful comments and exceptions, where they are operations.
fn may_be_operations(file: &Json, operations: Option<&Json>) -> bool
    ensures { result
        ≡ may_be_operations (view file.now) (option_map (λ j. view j.now) operations.entry) }
{
    match operations {
        Some(Json::Object(operations)) => are_lawful(file, operations),
        _ => true,
    }
}

// Whether each of these operations has a lawful comment, and raises exceptions of the file.
fn are_lawful(file: &Json, operations: &Map<String, Json>) -> bool
    ensures { result ≡ are_lawful (view file.now) (members_view operations.now.entries) }
{
    for (_, operation) in operations.iter() {
        if !may_be_text(operation.get("comment")) || !may_be_raises(file, operation.get("raises")) {
            return false;
        }
    }
    true
}

// Whether a part is a list of exceptions of the file, where it is there.
fn may_be_raises(file: &Json, raises: Option<&Json>) -> bool
    ensures { result ≡ may_be_raises (view file.now) (option_map (λ j. view j.now) raises.entry) }
{
    match raises {
        Some(Json::Array(ids)) => are_exceptions(file, ids.as_slice()),
        Some(_) => false,
        None => true,
    }
}

// Whether each of these is the id of an exception of the file.
fn are_exceptions(file: &Json, ids: &[Json]) -> bool
    ensures { result ≡ are_exceptions (view file.now) (items_view ids.now) }
{
    for id in ids {
        if !is_exception(file, id) {
            return false;
        }
    }
    true
}

// Whether this is the id of an exception of the file.
fn is_exception(file: &Json, id: &Json) -> bool
    ensures { result ≡ is_exception (view file.now) (view id.now) }
{
    match id.as_str() {
        Some(id) => match file.get("exceptions") {
            Some(exceptions) => exceptions.get(id).is_some(),
            None => false,
        },
        None => false,
    }
}
