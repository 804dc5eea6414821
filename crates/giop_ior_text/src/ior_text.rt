//! The text of a reference (CORBA 3.3 Part 2, 7.6.9): `IOR:` and the hexadecimal digits of octets,
//! which are an encapsulation. The grammar is specs/IorText.antt.
ghost use Rattle.std.specs.Prelude.{◌≡◌, true, false, IfOk, MatchOption, MatchResult, Ok, Err, drop, take};
ghost use Rattle.std.specs.String.{string_bytes};
ghost use Rattle.giop_cdr.specs.Reading.Cursor.{Cursor};
ghost use Rattle.giop_cdr.specs.Encapsulation.Opened.{content_of, opened_of};
ghost use Rattle.giop_ior_text.specs.IorText.{is_prefix, octets_of, prefixed};
ghost use Rattle.giop_ior_text.specs.IorTextFault.{AnswersOrWants};

use crate::ior_text_fault::IorTextFault;
use giop_cdr::{CdrFault, CdrKind, Order};
use hex::FromHexError;
use std::alloc::{AllocError, Global};

/// The octets that the text of a reference says: after `IOR:`, in any case, each is two hexadecimal
/// digits in either case, the high one first. Whether they are a reference is not judged.
///
/// Refused as BadPrefix where the text begins otherwise, else as BadHex where a character is no
/// hexadecimal digit or their number is odd. Out of memory, NoMemory may be returned in place of
/// either.
#[tactic(auto, unfolding(crate::specs::IorText::octets_of))]
pub fn ior_octets_from_text(alloc: Global, text: &[u8]) -> Result<Vec<u8>, IorTextFault>
    ensures { AnswersOrWants (λ octets. octets.items) result (octets_of text.now) }
{
    let Some(digits) = digits_of(text) else {
        return Err(IorTextFault::BadPrefix);
    };
    match hex::decode(alloc, digits) {
        Ok(octets) => Ok(octets),
        Err(FromHexError::OutOfMemory) => Err(IorTextFault::NoMemory),
        Err(_) => Err(IorTextFault::BadHex),
    }
}

// The octets after the prefix `IOR:`, where the text begins with it.
fn digits_of(text: &[u8]) -> Option<&[u8]>
    ensures { MatchOption result (is_prefix (take 4 text.now) ≡ false)
        (λ digits. (is_prefix (take 4 text.now) ≡ true) × (digits.now ≡ drop 4 text.now)) }
{
    if text.len() >= 4 && text[..4].eq_ignore_ascii_case(b"ior:") {
        Some(&text[4..])
    } else {
        None
    }
}

/// The text of a reference whose octets these are: `IOR:` and lower-case digits.
pub fn ior_octets_to_text(alloc: Global, octets: &[u8]) -> Result<String, AllocError>
    ensures { IfOk result (λ text. string_bytes text ≡ prefixed octets.now) }
{
    let digits = hex::encode(alloc, octets)?;
    let mut text = String::from_str(alloc, "IOR:")?;
    text.push_str(digits.as_str())?;
    Ok(text)
}

/// The byte order and the content of an encapsulation that is these octets (9.3.3); the content
/// begins at offset 1. Refused as Short at 0 where there are none, and as BadOrder at 0 where the
/// first is no byte order.
pub fn open_octets(octets: &[u8]) -> Result<(Order, &[u8]), CdrFault>
    ensures { (behind : Cursor) → MatchResult result
        (λ parts. opened_of 0 octets.now behind ≡ Ok (content_of parts.0 parts.1.now, behind))
        (λ e. opened_of 0 octets.now behind ≡ Err e) }
{
    let Some((first, content)) = octets.split_first() else {
        return Err(CdrFault {
            at: 0,
            kind: CdrKind::Short,
        });
    };
    match *first {
        0 => Ok((Order::Big, content)),
        1 => Ok((Order::Little, content)),
        _ => Err(CdrFault {
            at: 0,
            kind: CdrKind::BadOrder,
        }),
    }
}
