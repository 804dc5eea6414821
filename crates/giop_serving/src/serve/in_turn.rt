//! Which of an operation's answers were given, where a file lists several. Its meaning is
//! specs/Serve/InTurn.antt: change both.
ghost use Rattle.std.specs.Prelude.{◌≡◌, ◌++◌, ◌∷◌, [], map, option_map, IfOk, OnOk};
ghost use Rattle.serde_json.specs.View.{view};
ghost use Rattle.giop_serving.specs.Serve.InTurn.{ListsAreGivenInTurn, ObjectsPassApart, due_in, has_next, passed_at, passed_behind, passed_by, passed_for, passed_of};
ghost use Rattle.giop_serving.specs.Serve.Objects.{object_of};

use crate::serve::answering::Answer;
use crate::serve::answers::text_of;
use crate::serve::given::ServedObject;
use crate::serve::objects::object_for;
use giop_calls::ServerEntry;
use giop_cdr::OctetList;
use giop_msg::Request;
use serde_json::Value as Json;
use std::alloc::{AllocError, Global};

/// Whose an answer is.
#[derive(Debug, Drop)]
pub struct AnswerName {
    /// The key of the object.
    pub key: OctetList,
    /// The name of the operation.
    pub operation: OctetList,
}

/// Which answers of lists were given and have another behind them.
#[derive(Debug, Drop)]
pub struct Passed {
    /// For each of them whose it is.
    pub names: Vec<AnswerName>,
}

impl Passed {
    /// None was. It takes no memory.
    pub fn new(alloc: Global) -> Passed
        ensures { result.names.items ≡ [] }
    {
        Passed {
            names: Vec::new(alloc),
        }
    }

    /// How many are passed of an operation of the object of a key.
    pub fn of(&self, key: &[u8], name: &[u8]) -> usize
        ensures { result ≡ passed_of self.now.names.items key.now name.now }
    {
        let names = self.names.as_slice();
        let mut count: usize = 0;
        for other in names {
            if other.key.as_slice() == key && other.operation.as_slice() == name {
                count += 1;
            }
        }
        count
    }

    /// Passes the answer that is given to what is stored for an id, where another stands behind it.
    /// Out of memory, nothing changes.
    pub fn pass(
        &mut self,
        alloc: Global,
        objects: &[ServedObject<'_>],
        entry: &ServerEntry,
        answer: Answer,
    ) -> Result<(), AllocError>
        ensures { OnOk result (self.new.names.items
            ≡ passed_behind (map object_of objects.now) self.old.names.items entry.now answer) }
    {
        match entry {
            ServerEntry::Asked { request } => self.pass_for(alloc, objects, request, answer),
            _ => Ok(()),
        }
    }

    // Passes the answer that is given to a Request, where another stands behind it.
    fn pass_for(
        &mut self,
        alloc: Global,
        objects: &[ServedObject<'_>],
        request: &Request,
        answer: Answer,
    ) -> Result<(), AllocError>
        ensures { OnOk result (self.new.names.items
            ≡ passed_for (map object_of objects.now) self.old.names.items request.now answer) }
    {
        match answer {
            Answer::Given { .. } => {
                let object = object_for(objects, &request.head.target);
                let name = request.head.operation.as_slice();
                self.pass_at(alloc, object, name)
            }
            _ => Ok(()),
        }
    }

    // Passes the answer that is due to an operation of an object, where that is served and another
    // answer stands behind it.
    fn pass_at(
        &mut self,
        alloc: Global,
        object: Option<ServedObject<'_>>,
        name: &[u8],
    ) -> Result<(), AllocError>
        ensures { OnOk result (self.new.names.items
            ≡ passed_at (option_map object_of object.entry) self.old.names.items name.now) }
    {
        match object {
            Some(object) => self.pass_one(alloc, object, name),
            None => Ok(()),
        }
    }

    // Passes the answer that is due to an operation, where another stands behind it.
    fn pass_one(
        &mut self,
        alloc: Global,
        object: ServedObject<'_>,
        name: &[u8],
    ) -> Result<(), AllocError>
        ensures { OnOk result (self.new.names.items
            ≡ passed_by (object_of object.entry) self.old.names.items name.now) }
    {
        if self.has_next(alloc, object, name)? {
            let key = OctetList::from_slice(alloc, object.key)?;
            let operation = OctetList::from_slice(alloc, name)?;
            self.names.push(AnswerName { key, operation })?;
        }
        Ok(())
    }

    // Whether an answer stands behind that which is due to an operation.
    fn has_next(
        &self,
        alloc: Global,
        object: ServedObject<'_>,
        name: &[u8],
    ) -> Result<bool, AllocError>
        ensures { IfOk result (λ next. next
            ≡ has_next (object_of object.entry) self.now.names.items name.now) }
    {
        let text = text_of(alloc, name)?;
        let Some(own) = object.answers.json.get(text.as_str()) else {
            return Ok(false);
        };
        match self.of(object.key, name).checked_add(1) {
            Some(next) => Ok(own.get(next).is_some()),
            None => Err(AllocError),
        }
    }
}

/// The answer that is due behind so many: the member itself, or one of a list.
pub fn due_in(n: usize, json: &Json) -> Option<&Json>
    ensures { option_map (λ v. view v.now) result ≡ due_in n (view json.now) }
{
    if json.is_array() {
        json.get(n)
    } else {
        Some(json)
    }
}

/// A law of the definitions above, which no program calls: a list's answers are given in turn, and
/// what is asked of one object passes no answer of another.
pub fn lists_are_given_in_turn()
    ensures turn { ListsAreGivenInTurn }
    ensures apart { ObjectsPassApart }
{}
