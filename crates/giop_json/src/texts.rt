//! JSON texts that are octets: the characters U+0000 to U+00FF are the octets 0 to 255. The code is
//! specs/JsonText.antt; other characters are refused.
ghost use Rattle.std.specs.Prelude.{◌≡◌, ◌&&◌, ◌==◌, nat_lt, length, slice_index, IfOk, option_map, string_bytes, bytes_eq};
ghost use Rattle.giop_json.specs.JsonText.{text_of, octets_in};

use giop_cdr::OctetList;
use std::alloc::{AllocError, Global};

/// The text of octets, a character for each. Octets below 128 are copied at once.
pub fn text_of(alloc: Global, octets: &[u8]) -> Result<String, AllocError>
    ensures { IfOk result (λ text. string_bytes text ≡ text_of octets.now) }
{
    if octets.is_ascii() {
        if let Ok(text) = str::from_utf8(octets) {
            return String::from_str(alloc, text);
        }
    }
    let mut text = String::with_capacity(alloc, octets.len())?;
    for octet in octets {
        text.push(char::from(*octet))?;
    }
    Ok(text)
}

/// Whether a text is that of these octets. It takes no memory, and ends at the first character that
/// isn't theirs.
pub fn is_text_of(octets: &[u8], text: &str) -> bool
    ensures { result ≡ bytes_eq (text_of octets.now) text.now }
{
    let mut passed = 0;
    for c in text.chars() {
        if !is_at(octets, passed, c) {
            return false;
        }
        passed += 1;
    }
    passed == octets.len()
}

// Whether an octet stands at a place, and is this character.
fn is_at(octets: &[u8], at: usize, c: char) -> bool
    ensures { result ≡ (nat_lt at (length octets.now) && (slice_index octets.now at == c)) }
{
    at < octets.len() && u32::from(octets[at]) == u32::from(c)
}

/// The octets of a text, or None where a character is above U+00FF.
pub fn octets_in(alloc: Global, text: &str) -> Result<Option<OctetList>, AllocError>
    ensures { IfOk result (λ octets. octets ≡ octets_in text.now) }
{
    let mut octets = Vec::with_capacity(alloc, text.len())?;
    for c in text.chars() {
        let Ok(octet) = u8::try_from(u32::from(c)) else {
            return Ok(None);
        };
        octets.push(octet)?;
    }
    Ok(Some(OctetList::from(octets)))
}
