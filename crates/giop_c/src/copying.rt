//! Copies into the caller's buffers.
ghost use Rattle.std.specs.Prelude.{◌≡◌, ◌++◌, ◌≤◌, drop, length};
ghost use Rattle.std.specs.Option.{option_map};
ghost use Rattle.giop_c.specs.Copying.{CopiesFront, CopiesOctets};

use crate::status::{OK, SMALL, WAITS};

/// Copies octets to the front of a buffer that has room for them.
pub fn fill(octets: &[u8], buffer: &mut [u8])
    requires { length octets.now ≤ length buffer.old }
    ensures { buffer.new ≡ octets.now ++ drop (length octets.now) buffer.old }
{
    buffer[..octets.len()].copy_from_slice(octets);
}

/// Copies as many octets to the front of a buffer as it has room for, and writes how many there are.
pub fn copy_front(octets: &[u8], buffer: &mut [u8], size: &mut usize)
    ensures { CopiesFront octets.now buffer.old buffer.new size.new }
{
    *size = octets.len();
    if octets.len() <= buffer.len() {
        buffer[..octets.len()].copy_from_slice(octets);
    } else {
        buffer.copy_from_slice(&octets[..buffer.len()]);
    }
}

/// Copies as many ids to the front of a buffer as it has room for, and writes how many there are.
pub fn copy_ids(ids: &[u32], buffer: &mut [u32], size: &mut usize)
    ensures { CopiesFront ids.now buffer.old buffer.new size.new }
{
    *size = ids.len();
    if ids.len() <= buffer.len() {
        buffer[..ids.len()].copy_from_slice(ids);
    } else {
        buffer.copy_from_slice(&ids[..buffer.len()]);
    }
}

/// Copies octets to the front of a buffer, and writes how many they are. It answers OK; SMALL,
/// where the buffer has no room for them; or WAITS, where there are none to copy.
pub fn copy_octets(octets: Option<&[u8]>, buffer: &mut [u8], size: &mut usize) -> u32
    ensures { CopiesOctets (option_map (λ octets. octets.now) octets.entry) buffer.old buffer.new
        size.old size.new result }
{
    let Some(octets) = octets else {
        return WAITS;
    };
    *size = octets.len();
    if buffer.len() < octets.len() {
        return SMALL;
    }
    fill(octets, buffer);
    OK
}
