//! The calls of a client that are over, and their lines: as in its table.
use crate::session::streaming::Streamed;
use crate::session::table::Tabled;
use giop_calls::{ClientEntry, ClientRule};
use giop_forms::LineForm;
use giop_types::Interface;
use std::alloc::{AllocError, Global};

impl Streamed for ClientRule {
    ghost use Rattle.giop_commands.specs.Session.Tables.Table.{client_entry_in};

    ghost told = { client_entry_in };

    fn is_over(entry: &ClientEntry) -> bool {
        entry.is_closed()
    }

    fn told_text(
        alloc: Global,
        lines: LineForm,
        interface: &Interface,
        id: u32,
        entry: &ClientEntry,
    ) -> Result<String, AllocError> {
        ClientRule::entry_text(alloc, lines, interface, id, entry)
    }
}
