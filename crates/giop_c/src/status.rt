//! The statuses that an exported function answers. `include/giop.h` has them under the same names.

/// The call did what it is for.
pub const OK: u32 = 0;
/// The handle holds nothing, and nothing has changed.
pub const CLOSED: u32 = 1;
/// Memory ran out. The call can be made again.
pub const NO_MEMORY: u32 = 2;
/// No whole message is there yet, or no message was taken.
pub const WAITS: u32 = 3;
/// The octets are refused, and the fault says why and where.
pub const FAULT: u32 = 4;
/// The caller's buffer is too small, and nothing was copied.
pub const SMALL: u32 = 5;
