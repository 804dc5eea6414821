//! A server's end, for rows.

use crate::acts::server_input;
use crate::one_end::{answered, fed, taken, write_off};
use crate::shown::{write_fault, write_outcome, write_server_entry};
use crate::side::RowEnd;
use anyhow::Result;
use giop_calls::{ServerEntry, ServerRule};
use giop_session::End;
use giop_session::laws::{Answered, ServerInput};
use std::alloc::{AllocError, Global};
use std::fmt::Write;

impl<'a> RowEnd for End<'a, ServerRule> {
    type Input = ServerInput;

    type Entry = ServerEntry;

    fn input(alloc: Global, words: &[&str]) -> Result<ServerInput> {
        server_input(alloc, words)
    }

    fn give(&mut self, input: ServerInput, read: usize) -> Answered<ServerEntry> {
        match input {
            ServerInput::Feed(octets) => fed(self, octets.as_slice(), read),
            ServerInput::Answer { reply, form } => answered(self.answer(reply, form.form)),
            ServerInput::AnswerLocate { id, here, order } => {
                answered(self.answer_locate(id, here, order))
            }
            ServerInput::Send(id) => answered(self.send(id)),
            ServerInput::Take(id) => taken(self, id),
            ServerInput::Close => answered(self.close()),
        }
    }

    fn write_entry(text: &mut String, entry: &ServerEntry) -> Result<(), AllocError> {
        write_server_entry(text, entry)
    }

    fn write_table(&self, alloc: Global, text: &mut String) -> Result<(), AllocError> {
        for id in self.ids(alloc)? {
            if let Some(entry) = self.entry(id) {
                write!(text, "{id} ")?;
                write_server_entry(text, entry)?;
                text.push_str(", ")?;
            }
        }
        write_fault(text, self.fault())
    }

    fn write_outcome(&self, text: &mut String, id: u32) -> Result<(), AllocError> {
        write_outcome(text, self.outcome(id))
    }

    fn put_out(&self) -> &[u8] {
        self.outgoing()
    }

    fn write_off(&mut self, n: usize) {
        write_off(self, n);
    }

    fn counts(&self) -> (usize, usize) {
        (self.blocks(), self.rest())
    }

    fn error(&self) -> Option<[u8; 12]> {
        self.error_message()
    }
}
