//! Which of an operation's answers were given, where a file lists several. Its meaning is
//! specs/InTurn.antt: change both.
ghost use Rattle.std.specs.Prelude.{◌≡◌, ◌++◌, ◌∷◌, [], option_map, IfOk, OnOk};
ghost use Rattle.serde_json.specs.View.{view};
ghost use Rattle.giop_commands.specs.InTurn.{due_in, has_next, passed_behind, passed_by, passed_for, passed_of};

use crate::serve::answering::Answer;
use crate::serve::answers::{Answers, text_of};
use giop_calls::ServerEntry;
use giop_cdr::OctetList;
use giop_msg::Request;
use serde_json::Value as Json;
use std::alloc::{AllocError, Global};

/// Which answers of lists were given and have another behind them.
#[derive(Debug, Drop)]
pub struct Passed {
    /// For each of them the name of its operation.
    pub names: Vec<OctetList>,
}

impl Passed {
    /// None was. It takes no memory.
    pub fn new(alloc: Global) -> Passed
        ensures { result.names.items ≡ [] }
    {
        Passed {
            names: Vec::new(alloc),
        }
    }

    /// How many of an operation's are passed.
    pub fn of(&self, name: &[u8]) -> usize
        ensures { result ≡ passed_of self.now.names.items name.now }
    {
        let names = self.names.as_slice();
        let mut count: usize = 0;
        for other in names {
            if other.as_slice() == name {
                count += 1;
            }
        }
        count
    }

    /// Passes the answer that is given to what is stored for an id, where another stands behind it.
    /// Out of memory, nothing changes.
    pub fn pass(
        &mut self,
        alloc: Global,
        answers: &Answers,
        entry: &ServerEntry,
        answer: Answer,
    ) -> Result<(), AllocError>
        ensures { OnOk result (self.new.names.items
            ≡ passed_behind (view answers.now.json) self.old.names.items entry.now answer) }
    {
        match entry {
            ServerEntry::Asked { request } => self.pass_for(alloc, answers, request, answer),
            _ => Ok(()),
        }
    }

    // Passes the answer that is given to a Request, where another stands behind it.
    fn pass_for(
        &mut self,
        alloc: Global,
        answers: &Answers,
        request: &Request,
        answer: Answer,
    ) -> Result<(), AllocError>
        ensures { OnOk result (self.new.names.items
            ≡ passed_for (view answers.now.json) self.old.names.items request.now answer) }
    {
        match answer {
            Answer::Given { .. } => {
                let name = request.head.operation.as_slice();
                self.pass_one(alloc, answers, name)
            }
            _ => Ok(()),
        }
    }

    // Passes the answer that is due to an operation, where another stands behind it.
    fn pass_one(&mut self, alloc: Global, answers: &Answers, name: &[u8]) -> Result<(), AllocError>
        ensures { OnOk result (self.new.names.items
            ≡ passed_by (view answers.now.json) self.old.names.items name.now) }
    {
        if self.has_next(alloc, answers, name)? {
            let name = OctetList::from_slice(alloc, name)?;
            self.names.push(name)?;
        }
        Ok(())
    }

    // Whether an answer stands behind that which is due to an operation.
    fn has_next(&self, alloc: Global, answers: &Answers, name: &[u8]) -> Result<bool, AllocError>
        ensures { IfOk result (λ next. next
            ≡ has_next (view answers.now.json) self.now.names.items name.now) }
    {
        let key = text_of(alloc, name)?;
        let Some(own) = answers.json.get(key.as_str()) else {
            return Ok(false);
        };
        match self.of(name).checked_add(1) {
            Some(next) => Ok(own.get(next).is_some()),
            None => Err(AllocError),
        }
    }
}

/// The answer that is due behind so many: the member itself, or one of a list.
pub fn due_in(n: usize, json: &Json) -> Option<&Json>
    ensures { option_map (λ v. view v.now) result ≡ due_in n (view json.now) }
{
    if json.is_array() {
        json.get(n)
    } else {
        Some(json)
    }
}
