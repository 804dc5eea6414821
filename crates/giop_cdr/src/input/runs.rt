//! Octets of a store by index: copied and searched. Nothing here knows of offsets or alignment.
//! Octets that lie together are taken as one run, since one by one they would be slow.
ghost use Rattle.std.specs.Prelude.{◌≡◌, ◌+◌, ◌<◌, ◌≤◌, ◌^◌, length, take, drop, IfOk};
ghost use Rattle.giop_cdr.specs.Reading.Values.{has_null, is_text};

use crate::octets::Octets;
use std::alloc::{AllocError, Global};

/// The N octets that stand `skipped` octets behind an index. The run is asked for at the index, so
/// that a slice as long as its reader is tested once, for the padding and the value.
#[inline(always)]
pub fn field_of<S: Octets, const N: usize>(source: &S, from: usize, skipped: usize) -> [u8; N]
    requires some { 0 < N }
    requires within { from + (skipped + N) ≤ length (S.octets source.now) }
    requires small { from + (skipped + N) < 2 ^ 64 }
    ensures { result ≡ take N (drop (from + skipped) (S.octets source.now)) }
{
    let run = source.run(from);
    if skipped + N <= run.len() {
        let behind = &run[skipped..];
        if let Ok(octets) = <[u8; N]>::try_from(&behind[..N]) {
            return octets;
        }
    }
    scattered_field(source, from + skipped)
}

// The N octets from an index on, one by one: for `field_of`, where they don't lie together.
#[cold]
#[inline(never)]
fn scattered_field<S: Octets, const N: usize>(source: &S, from: usize) -> [u8; N]
    requires within { from + N ≤ length (S.octets source.now) }
    requires small { from + N < 2 ^ 64 }
    ensures { result ≡ take N (drop from (S.octets source.now)) }
{
    let mut octets = [0; N];
    for i in 0..N {
        octets[i] = source.at(from + i);
    }
    octets
}

/// A copy of the octets from an index on, in one step where they lie together.
#[inline(always)]
pub fn copy_of<S: Octets>(
    alloc: Global,
    source: &S,
    from: usize,
    count: usize,
) -> Result<Vec<u8>, AllocError>
    requires within { from + count ≤ length (S.octets source.now) }
    requires small { from + count < 2 ^ 64 }
    ensures { IfOk result (λ v. v.items ≡ take count (drop from (S.octets source.now))) }
{
    if count > 0 {
        let run = source.run(from);
        if count <= run.len() {
            return Vec::from_slice(alloc, &run[..count]);
        }
    }
    copy_by_runs(alloc, source, from, count)
}

// A copy of the octets from an index on, run by run: for `copy_of`, where they don't lie together.
fn copy_by_runs<S: Octets>(
    alloc: Global,
    source: &S,
    from: usize,
    count: usize,
) -> Result<Vec<u8>, AllocError>
    requires within { from + count ≤ length (S.octets source.now) }
    requires small { from + count < 2 ^ 64 }
    ensures { IfOk result (λ v. v.items ≡ take count (drop from (S.octets source.now))) }
{
    let mut octets = Vec::with_capacity(alloc, count)?;
    'runs: while octets.len() < count {
        let run = source.run(from + octets.len());
        let part = run.len().min(count - octets.len());
        octets.extend_from_slice(&run[..part])?;
    }
    Ok(octets)
}

/// Whether one of the octets from an index on is a null.
pub fn null_among<S: Octets>(source: &S, from: usize, count: usize) -> bool
    requires within { from + count ≤ length (S.octets source.now) }
    requires small { from + count < 2 ^ 64 }
    ensures { result ≡ has_null (take count (drop from (S.octets source.now))) }
{
    let mut done = 0;
    'runs: while done < count {
        let run = source.run(from + done);
        let part = run.len().min(count - done);
        if run[..part].contains(&0) {
            return true;
        }
        done += part;
    }
    false
}

/// Whether the octets from an index on are those that a string's length counts (9.3.2.7): with one
/// null, which is the last, or no octets at all.
pub fn text_lies_at<S: Octets>(source: &S, from: usize, count: usize) -> bool
    requires within { from + count ≤ length (S.octets source.now) }
    requires small { from + count < 2 ^ 64 }
    ensures { result ≡ is_text (take count (drop from (S.octets source.now))) }
{
    if count == 0 {
        return true;
    }
    let last = count - 1;
    source.at(from + last) == 0 && !null_among(source, from, last)
}
