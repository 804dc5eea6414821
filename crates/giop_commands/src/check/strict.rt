//! `check --strict`: what can't be decoded is refused. Its meaning is `strict_status` in
//! specs/Check.antt: change both.
ghost use Rattle.std.specs.Prelude.{◌≡◌, IfOk, option_copied};
ghost use Rattle.std.specs.FinMap as finite;
ghost use Rattle.std.specs.List.{list_all};
ghost use Rattle.giop_table.specs.Sending.{entry_of};
ghost use Rattle.giop_commands.specs.Check.{all_decoded, is_decoded, strict_status};

use giop_calls::ServerEntry;
use giop_end::ServerEnd;
use giop_show::failure::Failure;
use giop_show::status::Status;
use std::alloc::{AllocError, Global};

/// The status of a check, by that of its end: where it is strict, a call that can't be decoded is
/// refused.
pub fn strictly(
    alloc: Global,
    strict: bool,
    end: &ServerEnd<'_>,
    status: Status,
) -> Result<Status, Failure>
    ensures { IfOk result (λ judged. judged ≡ strict_status strict end.now.calls.table status) }
{
    if !strict {
        return Ok(status);
    }
    let decoded = all_decoded(alloc, end)?;
    Ok(match status {
        Status::Done if !decoded => Status::Refused,
        status => status,
    })
}

// Whether all calls were decoded, as far as they are there.
fn all_decoded(alloc: Global, end: &ServerEnd<'_>) -> Result<bool, AllocError>
    ensures { IfOk result (λ decoded. decoded ≡ all_decoded end.now.calls.table) }
{
    let ids = end.ids(alloc)?;
    Ok(are_decoded(end, ids.as_slice()))
}

// Whether the calls of all ids were decoded.
fn are_decoded(end: &ServerEnd<'_>, ids: &[u32]) -> bool
    ensures { result
        ≡ list_all (λ id. is_decoded (entry_of (finite.get end.now.calls.table id))) ids.now }
{
    ids.iter().all(|id| is_decoded_at(end, *id))
}

// Whether the call of an id was decoded.
fn is_decoded_at(end: &ServerEnd<'_>, id: u32) -> bool
    ensures { result ≡ is_decoded (entry_of (finite.get end.now.calls.table id)) }
{
    is_decoded(end.entry(id))
}

// Whether what stands for an id was decoded, as far as it is there.
fn is_decoded(entry: Option<&ServerEntry>) -> bool
    ensures { result ≡ is_decoded (option_copied entry.entry) }
{
    match entry {
        Some(ServerEntry::Undecoded { .. }) => false,
        _ => true,
    }
}
