//! Where forwards lead to, as standard error has it, and how many are followed.

use giop_commands::Endpoint;
use giop_commands::session::target::endpoint_text;
use giop_lines::EscapedText;
use std::alloc::Global;
use std::str;

/// So many forwards of a call, or of a LocateRequest, are followed.
pub const MOST_FORWARDS: usize = 5;

/// The text of the corbaloc of an object, escaped where a character isn't printable; none where it
/// is out of memory.
pub(crate) fn place_text(alloc: Global, to: &Endpoint) -> Option<String> {
    let Ok(octets) = endpoint_text(alloc, to) else {
        return None;
    };
    let text = match str::from_utf8(octets.as_slice()) {
        Ok(text) if is_graphic(octets.as_slice()) => String::from_str(alloc, text),
        _ => format!(in alloc; "{}", EscapedText(octets.as_slice())),
    };
    text.ok()
}

// Whether all octets are printable ASCII but for the space.
fn is_graphic(octets: &[u8]) -> bool {
    octets.iter().all(|octet| octet.is_ascii_graphic())
}
