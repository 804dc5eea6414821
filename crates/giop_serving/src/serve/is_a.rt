//! The answer to `_is_a`, which goes by its argument (CORBA 3.3 Part 1, 8.3.3). Its meaning is
//! specs/Serve/IsA.antt: change both.
ghost use Rattle.std.specs.Prelude.{◌≡◌, ◌∷◌, [], map, IfOk};
ghost use Rattle.serde_json.specs.View.{view};
ghost use Rattle.giop_json.specs.FromJson.{Shows};
ghost use Rattle.giop_types.specs.Values.Tree.{boolean_of};
ghost use Rattle.giop_types.specs.Values.Views.{value_view};
ghost use Rattle.giop_serving.specs.Serve.IsA.{are_boolean, is_a, is_a_body, is_a_in, is_asked};

use crate::serve::answers::AnswerGiven;
use giop_commands::session::json::{is_object_of, octets_of};
use giop_json::FormFault;
use giop_msg::ReplyBody;
use giop_types::{Desc, Parameter, Value, ValueList};
use serde_json::Value as Json;
use std::alloc::{AllocError, Global};

/// An answer by the id of the object's type, and by the object that has it alone; `None` where the
/// outs aren't one boolean. `BadShape` where the id is no text, or other members stand beside it.
pub fn is_a_of(
    alloc: Global,
    outs: &[Parameter],
    id: &Json,
    json: &Json,
) -> Result<Option<AnswerGiven>, FormFault>
    ensures { Shows (λ given. given) result (is_a_in outs.now (view id.now) (view json.now)) }
{
    if !is_object_of(1, json) {
        return Err(FormFault::BadShape);
    }
    let id = octets_of(alloc, id)?;
    if are_boolean(outs) {
        Ok(Some(AnswerGiven::IsA(id)))
    } else {
        Ok(None)
    }
}

// Whether these outs are one boolean.
fn are_boolean(outs: &[Parameter]) -> bool
    ensures { result ≡ are_boolean outs.now }
{
    match outs {
        [out] => matches!(out.desc.desc(), Desc::Boolean),
        _ => false,
    }
}

/// The result of `_is_a` for an object whose type has this id, by the ins of the Request.
pub fn is_a_body(alloc: Global, id: &[u8], ins: &[Value]) -> Result<ReplyBody, AllocError>
    ensures { IfOk result (λ body. body ≡ is_a_body id.now (map value_view ins.now)) }
{
    let mut outs = ValueList::new(alloc);
    outs.push(Value::Boolean(is_asked(id, ins)))?;
    Ok(ReplyBody::NoException(outs))
}

// Whether the type that these ins ask for is one of the object's.
fn is_asked(id: &[u8], ins: &[Value]) -> bool
    ensures { result ≡ is_asked id.now (map value_view ins.now) }
{
    match ins {
        [Value::Text(asked)] => is_a(id, asked.as_slice()),
        _ => false,
    }
}

// Whether an object of the type of this id is of that which is asked for.
fn is_a(id: &[u8], asked: &[u8]) -> bool
    ensures { result ≡ is_a id.now asked.now }
{
    asked == id || asked == b"IDL:omg.org/CORBA/Object:1.0".as_slice()
}
