//! A client's end, for rows.

use crate::acts::client_input;
use crate::one_end::{answered, fed, taken, write_off};
use crate::shown::{write_client_entry, write_fault, write_outcome};
use crate::side::RowEnd;
use anyhow::Result;
use giop_calls::{ClientEntry, ClientRule};
use giop_session::End;
use giop_session::laws::{Answered, ClientInput};
use std::alloc::{AllocError, Global};
use std::fmt::Write;

impl<'a> RowEnd for End<'a, ClientRule> {
    type Input = ClientInput;

    type Entry = ClientEntry;

    fn input(alloc: Global, words: &[&str]) -> Result<ClientInput> {
        client_input(alloc, words)
    }

    fn give(&mut self, input: ClientInput, read: usize) -> Answered<ClientEntry> {
        match input {
            ClientInput::Feed(octets) => fed(self, octets.as_slice(), read),
            ClientInput::Call { request, form } => answered(self.call(request, form.form)),
            ClientInput::Locate { request, form } => answered(self.locate(request, form.form)),
            ClientInput::Cancel { id, order } => answered(self.cancel(id, order)),
            ClientInput::Send(id) => answered(self.send(id)),
            ClientInput::Take(id) => taken(self, id),
            ClientInput::Close => answered(self.close()),
        }
    }

    fn write_entry(text: &mut String, entry: &ClientEntry) -> Result<(), AllocError> {
        write_client_entry(text, entry)
    }

    fn write_table(&self, alloc: Global, text: &mut String) -> Result<(), AllocError> {
        for id in self.ids(alloc)? {
            if let Some(entry) = self.entry(id) {
                write!(text, "{id} ")?;
                write_client_entry(text, entry)?;
                text.push_str(", ")?;
            }
        }
        write_fault(text, self.fault())
    }

    fn write_outcome(&self, text: &mut String, id: u32) -> Result<(), AllocError> {
        write_outcome(text, self.outcome(id))
    }

    fn put_out(&self) -> &[u8] {
        self.outgoing()
    }

    fn write_off(&mut self, n: usize) {
        write_off(self, n);
    }

    fn counts(&self) -> (usize, usize) {
        (self.blocks(), self.rest())
    }

    fn error(&self) -> Option<[u8; 12]> {
        self.error_message()
    }
}
