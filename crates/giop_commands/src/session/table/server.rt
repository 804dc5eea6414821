//! The lines of a server's table, in a form. Their text is specs/Session/Tables/Table.antt, of the lines
//! of giop_lines.
ghost use Rattle.std.specs.Prelude.{◌≡◌, IfOk};
ghost use Rattle.std.specs.String.{string_bytes};
ghost use Rattle.giop_commands.specs.Session.Tables.Bodies.{ins_text};

use crate::session::table::Tabled;
use crate::session::table::shown::{EntryObject, EntryShownLine, entry_shown};
use giop_call_lines::ServerEntryLine;
use giop_calls::{ServerEntry, ServerRule};
use giop_forms::LineForm;
use giop_json::NumberForm;
use giop_show::bodies::request_ins;
use giop_show::form::line_text;
use giop_types::Interface;
use std::alloc::{AllocError, Global};

impl Tabled for ServerRule {
    ghost use Rattle.giop_commands.specs.Session.Tables.Table.{server_entry_in};

    ghost line = { server_entry_in };

    fn entry_text(
        alloc: Global,
        lines: LineForm,
        interface: &Interface,
        id: u32,
        entry: &ServerEntry,
    ) -> Result<String, AllocError> {
        let ins = ins_text(alloc, lines.numbers(), interface, entry)?;
        let ins = ins.as_str();
        let shown = entry_shown(alloc, lines, interface, entry)?;
        let shown = shown.as_str();
        let line = ServerEntryLine { id, entry, ins };
        let text = EntryShownLine(line, shown);
        let json = EntryObject {
            id,
            entry,
            ins,
            shown,
        };
        line_text(alloc, lines, text, json)
    }
}

/// The ins of the decoded Request of an entry, as a JSON list; empty where the entry has none.
pub fn ins_text(
    alloc: Global,
    numbers: NumberForm,
    interface: &Interface,
    entry: &ServerEntry,
) -> Result<String, AllocError>
    ensures { IfOk result (λ text. string_bytes text ≡ ins_text numbers interface.now entry.now) }
{
    match entry {
        ServerEntry::Asked { request } => request_ins(alloc, numbers, interface, request),
        ServerEntry::Delivered { request } => request_ins(alloc, numbers, interface, request),
        _ => Ok(String::new(alloc)),
    }
}
