//! The text of a reference (CORBA 3.3 Part 2, 7.6.9), read and written. giop_ior_text makes octets of
//! its digits, by its `specs/IorText.antt`; here the octets are a reference.
ghost use Rattle.std.specs.Prelude.{◌≡◌, ◌↔◌, false, true, ℕ, List, Ok, IfOk, IsErrOf, OnOk};
ghost use Rattle.giop_cdr.specs.declared.order.Order.{Order};
ghost use Rattle.giop_cdr.specs.Layout.{AreOctets};
ghost use Rattle.giop_ior_text.specs.IorText.{IorText, encapsulated, ior_text_of, prefixed, text_written};
ghost use Rattle.giop_ior_text.specs.IorTextFault.{AnswersOrWants, IsAnswered};
ghost use Rattle.giop_ior.specs.Ior.{Reference, ior_layout};

use crate::references::ior::Ior;
use crate::references::ior_reading::view_ior;
use crate::references::ior_writing::append_ior;
use giop_cdr::{CdrIn, CdrOut, EncodeFault, Order, SliceOctets};
use giop_ior_text::{IorTextFault, ior_octets_from_text, ior_octets_to_text, open_octets};
use std::alloc::{AllocError, Global};

/// The reference that a text is, in octets (CORBA 3.3 Part 2, 7.6.9): `IOR:` in any case, and in
/// hexadecimal digits of either case the octets of an encapsulation of the reference. Octets behind
/// the reference are passed over.
///
/// Another text is refused as BadPrefix where it begins otherwise; else as BadHex where what
/// follows is no even number of digits; else as Cdr with the first field that is refused, in
/// reading order. The offset of that field counts from the first octet, which is the byte order.
/// That one is refused as Short or BadOrder at 0, the others as `view_ior` says. When out of memory
/// it is NoMemory, in place of any of these.
pub fn ior_from_text(alloc: Global, text: &[u8]) -> Result<Ior, IorTextFault>
    // What is returned is what the text says by the grammar, and what it says is returned.
    ensures found { IfOk result (λ ior. IorText ior_layout.spells ior text.now) }
    ensures only { (ior : Reference) → IorText ior_layout.spells ior text.now
        → IsAnswered result ior }

    // Which refusal it is.
    ensures exact { AnswersOrWants (λ ior. ior) result (ior_text_of ior_layout.read text.now) }

    // What was read can be written.
    ensures writable { IfOk result (λ ior. ior_layout.fits ior ≡ true) }
{
    ior_of(alloc, text)
}

#[tactic(auto, unfolding(giop_ior_text::specs::IorText::ior_text_of))]
fn ior_of(alloc: Global, text: &[u8]) -> Result<Ior, IorTextFault>
    ensures { AnswersOrWants (λ ior. ior) result (ior_text_of ior_layout.read text.now) }
{
    let octets = ior_octets_from_text(alloc, text)?;
    encapsulated(alloc, octets.as_slice())
}

// The reference that octets encapsulate.
#[tactic(auto, unfolding(giop_ior_text::specs::IorText::encapsulated, giop_cdr::specs::Encapsulation::OfLayout::inside_at))]
fn encapsulated(alloc: Global, octets: &[u8]) -> Result<Ior, IorTextFault>
    ensures { AnswersOrWants (λ ior. ior) result (encapsulated ior_layout.read octets.now) }
{
    let (order, content) = open_octets(octets)?;
    if content.len() > 1 << 62 {
        return Err(IorTextFault::NoMemory);
    }
    let source = SliceOctets::new(content);
    let view = view_ior(&mut CdrIn::new(&source, order, 1))?;
    Ok(view.to_owned(alloc)?)
}

/// The text of a reference, in octets (7.6.9): `IOR:`, and in lower-case hexadecimal digits the
/// octets of an encapsulation of the reference, big-endian, with nothing behind it.
///
/// Refused as Unfit where `is_writable` is false, and then no octets spell the reference; else as
/// NoMemory when out of memory.
#[tactic(auto, using(crate::proofs::IorTextLemmas::begins, crate::proofs::IorLemmas::ior_unspelled))]
pub fn ior_to_text(alloc: Global, ior: &Ior) -> Result<Vec<u8>, EncodeFault>
    ensures value { IfOk result (λ text. text.items ≡ text_written ior_layout.written ior.now) }
    ensures err { IsErrOf result EncodeFault.Unfit ↔ (ior_layout.fits ior.now ≡ false) }
    ensures unfit { IsErrOf result EncodeFault.Unfit → (order : Order) (at : ℕ) (octets : List ℕ)
        → AreOctets octets → ior_layout.spells order at ior.now octets → ⊥ }

    // What was written is in the ranges of its types, and is read as the reference again.
    ensures held { OnOk result (ior_layout.holds ior.now) }
    ensures back { IfOk result (λ text. ior_text_of ior_layout.read text.items ≡ Ok ior.now) }
{
    if !ior.is_writable() {
        return Err(EncodeFault::Unfit);
    }
    let mut out = CdrOut::new(alloc, Order::Big, 0);
    out.write_octet(0)?;
    append_ior(ior, &mut out)?;
    Ok(text_of_octets(alloc, out.as_slice())?)
}

// The text of octets, as giop_ior_text makes it, and that each is below 256, as its type says.
fn text_of_octets(alloc: Global, octets: &[u8]) -> Result<Vec<u8>, AllocError>
    ensures written { IfOk result (λ text. text.items ≡ prefixed octets.now) }
    ensures held { OnOk result (AreOctets octets.now) }
{
    let text = ior_octets_to_text(alloc, octets)?;
    Ok(text.into_bytes())
}
