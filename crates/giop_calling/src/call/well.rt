//! Whether the calls of a client's end are over, and whether they went well. Their meaning is
//! specs/Call/Calling.antt, specs/Call/Printed.antt and specs/Call/Streaming.antt: change both.
ghost use Rattle.std.specs.Prelude.{◌≡◌, IfOk, option_copied};
ghost use Rattle.giop_calling.specs.Call.Calling.{are_over, is_over};
ghost use Rattle.giop_calling.specs.Call.Streaming.{all_over_well, is_over_well};
ghost use Rattle.giop_calling.specs.Call.Printed.{all_well, is_well};

use giop_calls::ClientEntry;
use giop_end::ClientEnd;
use std::alloc::{AllocError, Global};

/// Whether the calls of all ids are over.
pub fn are_over(end: &ClientEnd<'_>, ids: &[u32]) -> bool
    ensures { result ≡ are_over ids.now end.now.calls }
{
    ids.iter().all(|id| is_over(end.entry(*id)))
}

// Whether the call of an entry is over; it is where there is no entry.
fn is_over(entry: Option<&ClientEntry>) -> bool
    ensures { result ≡ is_over (option_copied entry.entry) }
{
    match entry {
        Some(entry) => entry.is_closed(),
        None => true,
    }
}

/// Whether all calls of an end went well.
pub fn all_well(alloc: Global, end: &ClientEnd<'_>) -> Result<bool, AllocError>
    ensures { IfOk result (λ well. well ≡ all_well end.now.calls.table) }
{
    let ids = end.ids(alloc)?;
    Ok(ids.iter().all(|id| is_well(end.entry(*id))))
}

/// Whether all calls of an end that are over went well.
pub fn all_over_well(alloc: Global, end: &ClientEnd<'_>) -> Result<bool, AllocError>
    ensures { IfOk result (λ well. well ≡ all_over_well end.now.calls.table) }
{
    let ids = end.ids(alloc)?;
    Ok(ids.iter().all(|id| is_over_well(end.entry(*id))))
}

/// Whether the call of an entry went well: it got a result, or is sent and expects no reply. It did
/// where there is no entry.
pub fn is_well(entry: Option<&ClientEntry>) -> bool
    ensures { result ≡ is_well (option_copied entry.entry) }
{
    match entry {
        Some(ClientEntry::Done { reply, .. }) => reply.body.status() == 0,
        Some(ClientEntry::OnewaySent { .. }) | None => true,
        Some(_) => false,
    }
}

// Whether the call of an entry went well, where it is over.
fn is_over_well(entry: Option<&ClientEntry>) -> bool
    ensures { result ≡ is_over_well (option_copied entry.entry) }
{
    match entry {
        Some(entry) if entry.is_closed() => is_well(Some(entry)),
        _ => true,
    }
}
