//! The lines of a client's table, in a form. Their text is specs/Session/Tables/Table.antt, of the lines
//! of giop_lines.
ghost use Rattle.std.specs.Prelude.{◌≡◌, IfOk};
ghost use Rattle.std.specs.String.{string_bytes};
ghost use Rattle.giop_commands.specs.Session.Tables.Bodies.{brought_text};

use crate::session::table::Tabled;
use giop_call_lines::{ClientEntryJson, ClientEntryLine};
use giop_calls::{ClientEntry, ClientRule};
use giop_forms::LineForm;
use giop_json::NumberForm;
use giop_show::bodies::brought_by;
use giop_show::form::line_text;
use giop_types::Interface;
use std::alloc::{AllocError, Global};

impl Tabled for ClientRule {
    ghost use Rattle.giop_commands.specs.Session.Tables.Table.{client_entry_in};

    ghost line = { client_entry_in };

    fn entry_text(
        alloc: Global,
        lines: LineForm,
        interface: &Interface,
        id: u32,
        entry: &ClientEntry,
    ) -> Result<String, AllocError> {
        let brought = brought_text(alloc, lines.numbers(), interface, entry)?;
        let brought = brought.as_str();
        let (text, json) = (
            ClientEntryLine { id, entry, brought },
            ClientEntryJson { id, entry, brought },
        );
        line_text(alloc, lines, text, json)
    }
}

// What the Reply of an entry brought, as text; empty where the entry has none.
fn brought_text(
    alloc: Global,
    numbers: NumberForm,
    interface: &Interface,
    entry: &ClientEntry,
) -> Result<String, AllocError>
    ensures { IfOk result (λ text. string_bytes text ≡ brought_text numbers interface.now entry.now) }
{
    match entry {
        ClientEntry::Done { request, reply } => {
            brought_by(alloc, numbers, interface, request, &reply.body)
        }
        _ => Ok(String::new(alloc)),
    }
}
