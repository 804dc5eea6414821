//! The answers that a file gives `serve`, in JSON (docs/FORMATS.md, "Calls and answers"). Their
//! form is `answers_in` in specs/Serve/AnswerFiles.antt: change both.
ghost use Rattle.std.specs.Prelude.{◌≡◌, ◌&&◌, ◌⊎◌, IfOk, IfErr, string_bytes};
ghost use Rattle.serde_json.specs.View.{view};
ghost use Rattle.giop_json.specs.declared.form_fault.FormFault.TheVariants.{NoMemory};
ghost use Rattle.giop_json.specs.JsonText.{text_of};
ghost use Rattle.giop_serving.specs.Serve.AnswerFiles.{answers_in, are_fit, default_count, default_formed, has_own, member_count, own_count};
ghost use Rattle.giop_serving.specs.Serve.AnswerForms.{given_in, given_under};

mod fitting;
pub mod general;
pub mod let_out;
mod reading;

use crate::serve::answers::fitting::{are_fit, default_formed};
use crate::serve::answers::reading::given_under;
use crate::serve::given::Sending;
use giop_cdr::OctetList;
use giop_commands::session::json::is_object_of;
use giop_ior::Ior;
use giop_json::{FormFault, parse_json};
use giop_msg::Completion;
use giop_types::{Interface, Offer, Operation, Parameter, Parameters, ValueList};
use serde_json::Value as Json;
use std::alloc::{AllocError, Global};

/// What an operation is answered.
#[derive(Debug, Drop)]
pub enum AnswerGiven {
    /// Its result, and the inout and out parameters, in their order.
    Ok(ValueList),
    /// An exception of the interface.
    User {
        /// The repository id of the exception.
        id: OctetList,
        /// The members of the exception, in their order.
        members: ValueList,
    },
    /// A system exception.
    System {
        /// The repository id of the exception.
        id: OctetList,
        /// The minor code.
        minor: u32,
        /// Whether the operation was carried out.
        completion: Completion,
    },
    /// The result of `_is_a`, of an object whose type has this repository id.
    IsA(OctetList),
    /// Where the object is, for this call.
    Forward(Ior),
    /// Where the object is from now on.
    ForwardPerm(Ior),
}

/// What the operations of an interface are answered, each but the oneway ones.
#[derive(Debug, Drop)]
pub struct Answers {
    /// An object with a member for each of them, or with one under `*` for those without their own.
    pub json: Json,
}

impl Answers {
    /// What an operation of this name is answered, by what the object offers for which the answers
    /// were read, where so many of its answers are passed. `None` where nothing is given, as for a
    /// oneway operation.
    pub fn given(
        &self,
        alloc: Global,
        offer: &Offer,
        passed: usize,
        name: &[u8],
    ) -> Result<Option<AnswerGiven>, AllocError>
        ensures { IfOk result (λ given. given
            ≡ given_in offer.now (view self.now.json) passed name.now) }
    {
        let operation = match offer.operation(name) {
            Some(operation) if !operation.oneway => operation,
            _ => return Ok(None),
        };
        match given_under(alloc, offer, name, &self.json, passed, operation) {
            Ok(given) => Ok(given),
            Err(FormFault::NoMemory) => Err(AllocError),
            Err(_) => Ok(None),
        }
    }
}

/// The answers that a JSON text gives: an object with a member for each operation of the interface
/// that isn't oneway, and no other. A member `*` stands for each of these that has none of its own.
/// A member but `*` may be a list of one answer or more, which are given in turn, a call of the
/// operation each; the last stays. An answer is one of these:
///
/// - `{"ok":[VALUE,..]}`, with the operation's outs.
/// - `{"user":ID,"members":[VALUE,..]}`, with an exception of the interface and its members.
/// - `{"is_a":ID}`, with the repository id of the object's type: true where the argument is this id
///   or that of CORBA::Object.
/// - `{"system":ID,"minor":N,"completion":N}`; `minor` and `completion` may be left out.
/// - `{"forward":TEXT}` or `{"forward_perm":TEXT}`, with the text of a reference or a corbaloc.
///
/// Refused as the first of these that holds; in place of any it may be NoMemory, where it is out of
/// memory:
///
/// - BadJson, where the text is no JSON.
/// - BadShape, where it, or a part of it, has another form, or an exception isn't in the interface.
/// - Unfit, where a value doesn't fit, or there are more or fewer values than outs or members, or
///   `is_a` answers an operation whose outs aren't one boolean, a minor code is no unsigned long, a
///   completion is above 2, or octets spell no reference of a corbaloc; or where the Reply of an
///   answer to a Request that wants its outs is one that no version lets out, in this form and
///   within these limits.
pub fn answers_from_json(
    alloc: Global,
    interface: &Interface,
    sending: Sending,
    text: &[u8],
) -> Result<Answers, FormFault>
    ensures ok { IfOk result (λ answers. answers_in interface.now sending text.now
        ≡ Ok (view answers.json)) }
    ensures err { IfErr result
        (λ e. (e ≡ NoMemory) ⊎ (answers_in interface.now sending text.now ≡ Err e)) }
{
    let json = parse_json(alloc, text)?;
    if !is_object_of(member_count(alloc, interface, &json)?, &json) {
        return Err(FormFault::BadShape);
    }
    default_formed(alloc, interface, &json)?;
    if are_fit(alloc, interface, sending, &json)? {
        Ok(Answers { json })
    } else {
        Err(FormFault::Unfit)
    }
}

// How many members answers have.
fn member_count(alloc: Global, interface: &Interface, json: &Json) -> Result<usize, AllocError>
    ensures { IfOk result (λ count. count ≡ member_count interface.now (view json.now)) }
{
    let own = own_count(alloc, interface, json)?;
    match own.checked_add(default_count(interface, json)) {
        Some(count) => Ok(count),
        None => Err(AllocError),
    }
}

// How many operations have an answer of their own.
fn own_count(alloc: Global, interface: &Interface, json: &Json) -> Result<usize, AllocError>
    ensures { IfOk result (λ count. count ≡ own_count interface.now (view json.now)) }
{
    let mut count: usize = 0;
    for (name, operation) in interface.operations().iter() {
        if has_own(alloc, json, name.as_slice(), operation)? {
            count += 1;
        }
    }
    Ok(count)
}

fn has_own(
    alloc: Global,
    json: &Json,
    name: &[u8],
    operation: &Operation,
) -> Result<bool, AllocError>
    ensures { IfOk result (λ own. own ≡ has_own (view json.now) name.now operation.now) }
{
    let key = text_of(alloc, name)?;
    Ok(!operation.oneway && json.get(key.as_str()).is_some())
}

// How many members are a default: the one under `*`, unless an operation of that name is answered.
fn default_count(interface: &Interface, json: &Json) -> usize
    ensures { result ≡ default_count interface.now (view json.now) }
{
    if json.get("*").is_none() {
        return 0;
    }
    match interface.operation(b"*") {
        Some(operation) if !operation.oneway => 0,
        _ => 1,
    }
}

/// The text of octets: the octet n is the character U+00n.
pub fn text_of(alloc: Global, octets: &[u8]) -> Result<String, AllocError>
    ensures { IfOk result (λ text. string_bytes text ≡ text_of octets.now) }
{
    let mut text = String::with_capacity(alloc, octets.len())?;
    for octet in octets {
        text.push(char::from(*octet))?;
    }
    Ok(text)
}
