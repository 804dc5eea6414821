//! The table of the calls of an end, a line for each, in a form. Its text is `table_text` in
//! specs/Session/Tables/Table.antt: change both.
ghost use Rattle.std.specs.Prelude.{◌≡◌, OnOk};
ghost use Rattle.std.specs.Io.KnownBytes.{Appends};
ghost use Rattle.giop_commands.specs.Session.Tables.Table.{table_text};

pub mod client;
pub mod server;
pub mod shown;

use giop_end::{End, Hearing};
use giop_forms::LineForm;
use giop_mux::CallRule;
use giop_show::failure::Failure;
use giop_types::Interface;
use std::alloc::{AllocError, Global};
use std::io::Write;

/// A side of a connection whose entries have lines in a table.
pub trait Tabled: Hearing {
    ghost use Rattle.std.specs.Prelude.{◌≡◌, ℕ, List, IfOk};
    ghost use Rattle.std.specs.String.{string_bytes};
    ghost use Rattle.giop_types.specs.declared.interfaces.interface.Interface.{Interface};
    ghost use Rattle.giop_forms.specs.declared.line_form.LineForm.{LineForm};

    ghost line: { LineForm → Interface → ℕ → Self.Entry → List ℕ };

    /// The line of what is stored for an id in a form, with its values by an interface, without its
    /// newline.
    fn entry_text(
        alloc: Global,
        lines: LineForm,
        interface: &Interface,
        id: u32,
        entry: &Self::Entry,
    ) -> Result<String, AllocError>
        ensures { IfOk result (λ text. string_bytes text ≡ line lines interface.now id entry.now) };
}

/// Writes the table of an end: a line for each id for which something is stored, ascending.
pub fn write_table<R: Tabled, W: Write>(
    alloc: Global,
    lines: LineForm,
    interface: &Interface,
    end: &End<'_, R>,
    writer: &mut W,
) -> Result<(), Failure>
    ensures { OnOk result (Appends (W.contents writer.old) (W.contents writer.new)
        (table_text (R.line lines interface.now) end.now.calls.table)) }
{
    let ids = end.ids(alloc)?;
    for id in &ids {
        if let Some(entry) = end.entry(*id) {
            let line = R::entry_text(alloc, lines, interface, *id, entry)?;
            writeln!(writer, "{line}")?;
        }
    }
    Ok(())
}
