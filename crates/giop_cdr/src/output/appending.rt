//! Octets appended to a list. Room for all of a call is made before anything changes, so a call
//! that is out of memory leaves the list as it was.
ghost use Rattle.std.specs.Prelude.{◌≡◌, ◌+◌, ◌<◌, ◌≤◌, ◌^◌, ◌++◌, length, take, drop, replicate, OnOk, OnErr};
ghost use Rattle.std.specs.Vec.{vec_len, vec_capacity};
ghost use Rattle.giop_cdr.specs.Reading.Cursor.{pad};

use std::alloc::AllocError;
use std::mem;

/// Appends `count` zeros, and makes room for `behind` octets after them.
pub fn push_zeros(octets: &mut Vec<u8>, count: usize, behind: usize) -> Result<(), AllocError>
    requires few { count ≤ 8 }
    requires short { behind ≤ 8 }
    ensures ok { OnOk result (octets.new.items ≡ octets.old.items ++ replicate count 0) }
    ensures room { OnOk result (vec_len octets.new + behind ≤ vec_capacity octets.new) }
    ensures capacity { vec_capacity octets.old ≤ vec_capacity octets.new }
    ensures err { OnErr result (octets.new.items ≡ octets.old.items) }
    ensures succeeds { OnErr result
        (vec_capacity octets.old < vec_len octets.old + (count + behind)) }
{
    octets.reserve(count + behind)?;
    octets.extend_from_slice(&[0; 8][..count])
}

// Appends N octets, which the compiler stores as one value. A copy out of a slice would ask whether
// the two overlap. Of eight octets it stores one value only where they come to a list of its own.
#[inline(always)]
fn push_array<const N: usize>(octets: &mut Vec<u8>, field: [u8; N]) -> Result<(), AllocError>
    ensures ok { OnOk result (octets.new.items ≡ octets.old.items ++ field.entry) }
    ensures capacity { vec_capacity octets.old ≤ vec_capacity octets.new }
    ensures err { OnErr result (octets.new.items ≡ octets.old.items) }
    ensures succeeds { OnErr result (vec_capacity octets.old < vec_len octets.old + N) }
{
    octets.reserve(N)?;
    if N < 8 {
        push_each(octets, field);
        return Ok(());
    }
    let nothing = Vec::new(*octets.allocator());
    let mut list = mem::replace(octets, nothing);
    push_each(&mut list, field);
    // What is put back replaces a list without memory, which needs no drop.
    mem::forget(mem::replace(octets, list));
    Ok(())
}

/// Appends N octets where there is room for them.
#[inline(always)]
pub fn push_each<const N: usize>(octets: &mut Vec<u8>, field: [u8; N])
    requires { vec_len octets.old + N ≤ vec_capacity octets.old }
    ensures items { octets.new.items ≡ octets.old.items ++ field.entry }
    ensures capacity { vec_capacity octets.new ≡ vec_capacity octets.old }
{
    for i in 0..N {
        octets.push_reserved(field[i]);
    }
}

/// Appends zeros up to the next multiple of N, and the N octets of a field. The end of the list has
/// the offset `at`.
#[inline(always)]
pub fn push_field<const N: usize>(
    octets: &mut Vec<u8>,
    at: usize,
    field: [u8; N],
) -> Result<(), AllocError>
    requires some { 0 < N }
    requires few { N ≤ 8 }
    ensures ok { OnOk result
        (octets.new.items ≡ octets.old.items ++ (replicate (pad N at) 0 ++ field.entry)) }
    ensures capacity { vec_capacity octets.old ≤ vec_capacity octets.new }
    ensures err { OnErr result (octets.new.items ≡ octets.old.items) }
    ensures succeeds { OnErr result
        (vec_capacity octets.old < vec_len octets.old + (pad N at + N)) }
{
    let pad = (N - at % N) % N;
    if pad != 0 {
        push_zeros(octets, pad, N)?;
    }
    push_array(octets, field)
}

/// Appends a count, aligned to 4, and what it counts, in two parts. The end of the list has the
/// offset `at`. Inlined, since the callers know one of the parts: no octet, or one.
#[inline(always)]
pub fn push_counted(
    octets: &mut Vec<u8>,
    at: usize,
    count: [u8; 4],
    content: &[u8],
    tail: &[u8],
) -> Result<(), AllocError>
    requires content { length content.now < 2 ^ 32 }
    requires tail { length tail.now ≤ 8 }
    ensures ok { OnOk result (octets.new.items
        ≡ octets.old.items ++ (replicate (pad 4 at) 0 ++ count) ++ (content.now ++ tail.now)) }
    ensures err { OnErr result (octets.new.items ≡ octets.old.items) }
{
    octets.reserve(16 + content.len() + tail.len())?;
    push_field(octets, at, count)?;
    octets.extend_from_slice(content)?;
    octets.extend_from_slice(tail)
}

/// Writes four octets over those at an index.
pub fn fill(octets: &mut [u8], at: usize, field: [u8; 4])
    requires { at + 4 ≤ length octets.old }
    ensures { octets.new ≡ take at octets.old ++ (field ++ drop (at + 4) octets.old) }
{
    octets[at..at + 4].copy_from_slice(&field);
}
