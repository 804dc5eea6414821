//! The object key in a corbaloc text (CORBA 3.3 Part 2, 7.6.10.1), read with its escapes. Which
//! octets are escaped is `ESCAPED`, for reading and writing; the grammar in `specs/Corbaloc.antt`
//! has them too.
ghost use Rattle.std.specs.Prelude.{◌≡◌, ◌+◌, ◌<◌, ◌^◌, length, slice_index, Some, None, MatchResult};
ghost use Rattle.std.specs.Char.{is_digit};
ghost use Rattle.giop_ior.specs.Corbaloc.{is_key_octet};
ghost use Rattle.giop_ior.specs.CorbalocFault.{AnswersOrWants};
ghost use Rattle.giop_ior.specs.CorbalocReading.{key_octet_len, key_fault, key_at, wrong_key_octet};

use crate::addresses::corbaloc_fault::{CorbalocFault, CorbalocKind};
use giop_cdr::OctetList;
use percent_encoding::{AsciiSet, NON_ALPHANUMERIC, ascii_set, percent_decode};
use std::alloc::Global;

// The ASCII octets that are escaped in a key: all but letters, digits and ;/:?@&=+$,-_.!~*'()
pub const ESCAPED: AsciiSet = ascii_set!(
    NON_ALPHANUMERIC
        .remove(b';')
        .remove(b'/')
        .remove(b':')
        .remove(b'?')
        .remove(b'@')
        .remove(b'&')
        .remove(b'=')
        .remove(b'+')
        .remove(b'$')
        .remove(b',')
        .remove(b'-')
        .remove(b'_')
        .remove(b'.')
        .remove(b'!')
        .remove(b'~')
        .remove(b'*')
        .remove(b'\'')
        .remove(b'(')
        .remove(b')')
);

fn is_key_octet(octet: u8) -> bool
    ensures { result ≡ is_key_octet octet }
{
    !ESCAPED.should_percent_encode(octet)
}

fn is_hex_digit_at(i: usize, text: &[u8]) -> bool
    ensures { result ≡ is_digit (slice_index text.now i) 16 }
{
    i < text.len() && text[i].is_ascii_hexdigit()
}

// How many octets spell the first octet of the key: 0 where none do.
fn key_octet_len(text: &[u8]) -> usize
    requires { 0 < length text.now }
    ensures { result ≡ key_octet_len text.now }
{
    if is_key_octet(text[0]) {
        return 1;
    }
    if text[0] == b'%' && is_hex_digit_at(1, text) && is_hex_digit_at(2, text) {
        return 3;
    }
    0
}

fn wrong_key_octet(octet: u8) -> CorbalocKind
    ensures { result ≡ wrong_key_octet octet }
{
    if octet == b'%' {
        CorbalocKind::BadEscape
    } else {
        CorbalocKind::BadChar
    }
}

/// Whether each octet of a key that begins at this place stands for itself or is escaped.
pub fn judge_key(at: usize, text: &[u8]) -> Result<(), CorbalocFault>
    requires { at + length text.now < 2 ^ 64 }
    ensures { MatchResult result (λ _. key_fault at text.now ≡ None)
        (λ e. key_fault at text.now ≡ Some e) }
{
    let mut i = 0;
    while i < text.len() {
        let len = key_octet_len(&text[i..]);
        if len == 0 {
            return Err(CorbalocFault {
                at: at + i,
                kind: wrong_key_octet(text[i]),
            });
        }
        i += len;
    }
    Ok(())
}

// The key that begins at this place.
#[tactic(auto, unfolding(crate::specs::CorbalocReading::key_at))]
pub fn key_at(alloc: Global, at: usize, text: &[u8]) -> Result<OctetList, CorbalocFault>
    requires { at + length text.now < 2 ^ 64 }
    ensures { AnswersOrWants (λ key. key) result (key_at at text.now) }
{
    judge_key(at, text)?;
    let mut key = Vec::new(alloc);
    percent_decode(text).append_to(&mut key)?;
    Ok(OctetList::from(key))
}
