//! The calls of an end that are over: each is told and taken out. Its meaning is
//! specs/Session/Streaming.antt: change both.
ghost use Rattle.std.specs.Prelude.{◌≡◌, None, IsErrOf, OnErr, OnOk};
ghost use Rattle.std.specs.FinMap as finite;
ghost use Rattle.std.specs.List.{IsDistinct};
ghost use Rattle.std.specs.Ordering.{eq_by_cmp, nat_cmp};
ghost use Rattle.std.specs.Io.KnownBytes.{Appends, Keeps};
ghost use Rattle.giop_commands.specs.Session.Streaming.{OutInPart, SomeTold, over_lines, ended_at, over_at, over_text, without_ended, without_over};
ghost use Rattle.giop_commands.specs.Session.Tables.Table.{table_text, text_at};

pub mod client;
pub mod server;

use crate::session::given::Showing;
use crate::session::table::Tabled;
use crate::session::untold::Untold;
use giop_end::{End, Hearing};
use giop_forms::LineForm;
use giop_mux::CallRule;
use giop_show::failure::Failure;
use giop_types::Interface;
use std::alloc::{AllocError, Global};
use std::io::Write;

/// A side of a connection whose calls are told when they are over.
pub trait Streamed: Tabled {
    ghost use Rattle.std.specs.Prelude.{◌≡◌, ℕ, List, IfOk};
    ghost use Rattle.std.specs.String.{string_bytes};
    ghost use Rattle.giop_types.specs.declared.interfaces.interface.Interface.{Interface};
    ghost use Rattle.giop_forms.specs.declared.line_form.LineForm.{LineForm};

    ghost told: { LineForm → Interface → ℕ → Self.Entry → List ℕ };

    /// Whether the call of an entry is over.
    fn is_over(entry: &Self::Entry) -> bool
        ensures { (rule : _) → result ≡ ⟦<Self as CallRule>⟧.closed rule entry.now };

    /// The line of what is stored for an id in a form, with its values by an interface, without its
    /// newline.
    fn told_text(
        alloc: Global,
        lines: LineForm,
        interface: &Interface,
        id: u32,
        entry: &Self::Entry,
    ) -> Result<String, AllocError>
        ensures { IfOk result (λ text. string_bytes text ≡ told lines interface.now id entry.now) };
}

/// Writes the line of each call that is over, in ascending order of the ids, and takes it
/// out as soon as it is written; then it flushes the writer.
///
/// Where that fails, the calls up to some id are out, and all others stay: where it is out of
/// memory, these are exactly those whose lines were written, and nothing else was.
pub fn tell_over<R: Streamed, W: Write>(
    alloc: Global,
    showing: Showing<'_>,
    end: &mut End<'_, R>,
    writer: &mut W,
) -> Result<(), Untold>
    requires { end.old.fault ≡ None }
    ensures text { OnOk result (Appends (W.contents writer.old) (W.contents writer.new)
        (over_text (R.closed end.old.calls.rule)
        (R.told showing.entry.lines showing.entry.interface.now) end.old.calls.table)) }
    ensures left { OnOk result (end.new ≡ record end.old {
      calls = record end.old.calls {
        table = without_over (R.closed end.old.calls.rule) (finite.keys end.old.calls.table)
            end.old.calls.table;
      };
    }) }
    ensures memory { IsErrOf result Untold.Memory → SomeTold R.closed R.told showing.entry
        (finite.keys end.old.calls.table) end.old.calls end.new.calls
        (W.contents writer.old) (W.contents writer.new) }
    ensures err { OnErr result (OutInPart (R.closed end.old.calls.rule)
        (finite.keys end.old.calls.table) end.old.calls.table end.new.calls.table) }
    ensures others { end.new ≡ record end.old {
      calls = record end.old.calls { table = end.new.calls.table };
    } }
{
    let ids = end.ids(alloc)?;
    tell_each_over(alloc, showing, end, ids.as_slice(), writer)?;
    writer.flush()?;
    Ok(())
}

// Tells those of these ids whose calls are over, one after the other, and takes them out.
fn tell_each_over<R: Streamed, W: Write>(
    alloc: Global,
    showing: Showing<'_>,
    end: &mut End<'_, R>,
    ids: &[u32],
    writer: &mut W,
) -> Result<(), Untold>
    requires fault { end.old.fault ≡ None }
    requires apart { IsDistinct (eq_by_cmp nat_cmp) ids.now }
    ensures text { OnOk result (Appends (W.contents writer.old) (W.contents writer.new)
        (over_lines R.closed R.told showing.entry ids.now end.old.calls)) }
    ensures left { OnOk result (end.new.calls.table
        ≡ without_over (R.closed end.old.calls.rule) ids.now end.old.calls.table) }
    ensures memory { IsErrOf result Untold.Memory → SomeTold R.closed R.told showing.entry ids.now
        end.old.calls end.new.calls (W.contents writer.old) (W.contents writer.new) }
    ensures err { OnErr result (OutInPart (R.closed end.old.calls.rule)
        ids.now end.old.calls.table end.new.calls.table) }
    ensures others { end.new ≡ record end.old {
      calls = record end.old.calls { table = end.new.calls.table };
    } }
{
    for id in ids {
        tell_if_over(alloc, showing, end, *id, writer)?;
    }
    Ok(())
}

// Writes the line of an id, where its call is over, and takes the call out. Where that fails, the
// call stays.
fn tell_if_over<R: Streamed, W: Write>(
    alloc: Global,
    showing: Showing<'_>,
    end: &mut End<'_, R>,
    id: u32,
    writer: &mut W,
) -> Result<(), Untold>
    requires { end.old.fault ≡ None }
    ensures text { OnOk result (Appends (W.contents writer.old) (W.contents writer.new)
        (over_at (R.closed end.old.calls.rule)
        (R.told showing.entry.lines showing.entry.interface.now) end.old.calls.table id)) }
    ensures left { OnOk result (end.new ≡ record end.old {
      calls = record end.old.calls {
        table = without_ended (R.closed end.old.calls.rule) id end.old.calls.table;
      };
    }) }
    ensures memory { IsErrOf result Untold.Memory
        → Keeps (W.contents writer.old) (W.contents writer.new) }
    ensures kept { OnErr result (end.new ≡ end.old) }
{
    if is_over_at(end, id) {
        write_at(alloc, showing, end, id, writer)?;
        let _ = end.take(id);
    }
    Ok(())
}

// Writes the line of what is stored for an id, if anything is. Out of memory, nothing is written.
fn write_at<R: Streamed, W: Write>(
    alloc: Global,
    showing: Showing<'_>,
    end: &End<'_, R>,
    id: u32,
    writer: &mut W,
) -> Result<(), Untold>
    ensures text { OnOk result (Appends (W.contents writer.old) (W.contents writer.new)
        (text_at (R.told showing.entry.lines showing.entry.interface.now) end.now.calls.table id)) }
    ensures memory { IsErrOf result Untold.Memory
        → Keeps (W.contents writer.old) (W.contents writer.new) }
{
    if let Some(entry) = end.entry(id) {
        let line = R::told_text(alloc, showing.lines, showing.interface, id, entry)?;
        writeln!(writer, "{line}")?;
    }
    Ok(())
}

/// Whether something is stored for an id, and the call is over.
pub fn is_over_at<R: Streamed>(end: &End<'_, R>, id: u32) -> bool
    ensures { result ≡ ended_at (R.closed end.now.calls.rule) end.now.calls.table id }
{
    match end.entry(id) {
        Some(entry) => R::is_over(entry),
        None => false,
    }
}

/// Writes the line of each id for which something is stored, in ascending order.
pub fn tell_left<R: Streamed, W: Write>(
    alloc: Global,
    showing: Showing<'_>,
    end: &End<'_, R>,
    writer: &mut W,
) -> Result<(), Failure>
    ensures { OnOk result (Appends (W.contents writer.old) (W.contents writer.new)
        (table_text (R.told showing.entry.lines showing.entry.interface.now) end.now.calls.table)) }
{
    let ids = end.ids(alloc)?;
    for id in &ids {
        write_at(alloc, showing, end, *id, writer)?;
    }
    Ok(())
}
