//! The table of a server's end, in a form: a line for each call. Its text is `table_text` in
//! specs/Table.antt, of the lines that specs/Check.antt says: change them together.
ghost use Rattle.std.specs.Prelude.{◌≡◌, OnOk};
ghost use Rattle.std.specs.Io.KnownBytes.{Appends};
ghost use Rattle.giop_commands.specs.Check.{server_entry_in};
ghost use Rattle.giop_commands.specs.Dump.{ended};
ghost use Rattle.giop_commands.specs.Table.{table_text};

use crate::failure::Failure;
use crate::form::{LineForm, write_line};
use crate::serve::table::ins_text;
use giop_calls::ServerEntry;
use giop_lines::{ServerEntryJson, ServerEntryLine};
use giop_session::ServerEnd;
use giop_types::Interface;
use std::alloc::Global;
use std::io::Write;

/// Writes a line for each id for which something is stored, ascending.
pub fn write_entries<W: Write>(
    alloc: Global,
    interface: &Interface,
    form: LineForm,
    end: &ServerEnd<'_>,
    writer: &mut W,
) -> Result<(), Failure>
    ensures { OnOk result (Appends (W.contents writer.old) (W.contents writer.new)
        (table_text (server_entry_in form interface.now) end.now.calls.table)) }
{
    let ids = end.ids(alloc)?;
    for id in &ids {
        if let Some(entry) = end.entry(*id) {
            write_entry(alloc, interface, form, *id, entry, writer)?;
        }
    }
    Ok(())
}

// Writes the line of what is stored for an id.
fn write_entry<W: Write>(
    alloc: Global,
    interface: &Interface,
    form: LineForm,
    id: u32,
    entry: &ServerEntry,
    writer: &mut W,
) -> Result<(), Failure>
    ensures { OnOk result (Appends (W.contents writer.old) (W.contents writer.new)
        (ended (server_entry_in form interface.now id entry.now))) }
{
    let ins = ins_text(alloc, interface, entry)?;
    let ins = ins.as_str();
    let (text, json) = (
        ServerEntryLine { id, entry, ins },
        ServerEntryJson { id, entry, ins },
    );
    write_line(form, text, json, writer)
}
