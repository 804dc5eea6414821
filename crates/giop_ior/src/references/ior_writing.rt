//! A reference written (CORBA 3.3 Part 2, 7.6.2), and whether it can be. The fields are those of
//! `specs/Ior.antt`, in its order. Sequences of tagged values are written here for profiles,
//! components and service contexts alike.
ghost use Rattle.std.specs.Prelude.{◌≡◌, ◌↔◌, false, true, ℕ, List, IsErrOf, OnOk};
ghost use Rattle.std.specs.List.{list_all, AllByRecursion};
ghost use Rattle.giop_cdr.specs.declared.order.Order.{Order};
ghost use Rattle.giop_cdr.specs.RoundTrip.{IsReadBack};
ghost use Rattle.giop_cdr.specs.Writing.Output.{items_out};
ghost use Rattle.giop_cdr.specs.Writing.Outcome.{Writes, Appends};
ghost use Rattle.giop_cdr.specs.Layout.{sequence, tagged, is_countable, is_spellable, AreOctets};
ghost use Rattle.giop_ior.specs.Ior.{tagged_profile, ior_layout};

use crate::references::ior::Ior;
use crate::references::tagged_profile::TaggedParts;
use giop_cdr::{CdrOut, EncodeFault};
use std::alloc::AllocError;

impl Ior {
    /// Whether octets spell the reference: no null is in the type id, and each text and list is
    /// short enough for its count. It takes no memory.
    #[tactic(auto, unfolding(crate::specs::Ior::ior_layout, crate::specs::Ior::tagged_profile, giop_cdr::specs::Layout::field, giop_cdr::specs::Layout::text, giop_cdr::specs::Layout::gives))]
    pub fn is_writable(&self) -> bool
        ensures { result ≡ ior_layout.fits self.now }
    {
        is_text(self.type_id.as_slice()) && are_writable(self.profiles.as_slice())
    }
}

/// Writes a reference (CORBA 3.3 Part 2, 7.6.2): the type id and the profiles, in their order.
///
/// Refused as Unfit where `is_writable` is false, and then no octets spell the reference; else as
/// NoMemory when out of memory. The output is then as it was.
#[tactic(auto, using(crate::proofs::IorLemmas::ior_unspelled))]
pub fn write_ior(out: &mut CdrOut, ior: &Ior) -> Result<(), EncodeFault>
    ensures value { Writes out.old result out.new (ior_layout.written ior.now out.old) }
    ensures err { IsErrOf result EncodeFault.Unfit ↔ (ior_layout.fits ior.now ≡ false) }
    ensures unfit { IsErrOf result EncodeFault.Unfit → (order : Order) (at : ℕ) (octets : List ℕ)
        → AreOctets octets → ior_layout.spells order at ior.now octets → ⊥ }

    // What was appended is in the ranges of its types, spells the reference, and is read as it
    // again, whatever octets follow.
    ensures held { OnOk result (ior_layout.holds ior.now) }
    ensures back { OnOk result (IsReadBack ior_layout.spells ior_layout.read ior.now out.old
        out.new) }
{
    if !ior.is_writable() {
        return Err(EncodeFault::Unfit);
    }
    let point = out.checkpoint();
    if append_ior(ior, out).is_err() {
        out.back_to(point);
        return Err(EncodeFault::NoMemory);
    }
    Ok(())
}

/// Whether octets are few enough for the count of a sequence.
pub fn is_countable(octets: &[u8]) -> bool
    ensures { result ≡ is_countable octets.now }
{
    octets.len() <= u32::MAX as usize
}

/// Whether octets are a string's, and few enough for their count.
pub fn is_text(octets: &[u8]) -> bool
    ensures { result ≡ is_spellable octets.now }
{
    octets.len() < u32::MAX as usize && !octets.contains(&0)
}

#[tactic(auto, unfolding(giop_cdr::specs::Layout::sequence))]
pub fn are_writable<I: TaggedParts>(items: &[I]) -> bool
    ensures { result ≡ (sequence (tagged I.tag_of I.contents_of I.made)).fits items.now }
{
    items.len() <= u32::MAX as usize && each_is_writable(items)
}

fn each_is_writable<I: TaggedParts>(items: &[I]) -> bool
    ensures { result ≡ list_all (tagged I.tag_of I.contents_of I.made).fits items.now }
{
    for item in items {
        if !is_writable_item(item) {
            return false;
        }
    }
    true
}

#[tactic(auto, unfolding(giop_cdr::specs::Layout::tagged, giop_cdr::specs::Layout::field, giop_cdr::specs::Layout::number, giop_cdr::specs::Layout::octets, giop_cdr::specs::Layout::gives))]
fn is_writable_item<I: TaggedParts>(item: &I) -> bool
    ensures { result ≡ (tagged I.tag_of I.contents_of I.made).fits item.now }
{
    is_countable(item.contents())
}

#[tactic(auto, unfolding(giop_cdr::specs::Layout::tagged, giop_cdr::specs::Layout::field, giop_cdr::specs::Layout::number, giop_cdr::specs::Layout::octets, giop_cdr::specs::Layout::gives), using(giop_cdr::proofs::Writing::WriterLemmas::grows_then, giop_cdr::proofs::Writing::WriterLemmas::grows_not))]
fn append_item<I: TaggedParts>(item: &I, out: &mut CdrOut) -> Result<(), AllocError>
    requires { (tagged I.tag_of I.contents_of I.made).fits item.now ≡ true }
    ensures written { Appends out.old result out.new
        ((tagged I.tag_of I.contents_of I.made).written item.now out.old) }
    ensures held { OnOk result ((tagged I.tag_of I.contents_of I.made).holds item.now) }
{
    out.write_ulong(item.tag())?;
    out.write_octets(item.contents())?;
    Ok(())
}

fn append_each<I: TaggedParts>(items: &[I], out: &mut CdrOut) -> Result<(), AllocError>
    requires { list_all (tagged I.tag_of I.contents_of I.made).fits items.now ≡ true }
    ensures written { Appends out.old result out.new
        (items_out (tagged I.tag_of I.contents_of I.made).written items.now out.old) }
    ensures held { OnOk result
        (AllByRecursion (tagged I.tag_of I.contents_of I.made).holds items.now) }
{
    for item in items {
        append_item(item, out)?;
    }
    Ok(())
}

#[tactic(auto, unfolding(giop_cdr::specs::Layout::sequence, giop_cdr::specs::Writing::Output::sequence_out), using(giop_cdr::proofs::Writing::WriterLemmas::grows_then, giop_cdr::proofs::Writing::WriterLemmas::grows_not))]
pub fn append_tagged<I: TaggedParts>(items: &[I], out: &mut CdrOut) -> Result<(), AllocError>
    requires { (sequence (tagged I.tag_of I.contents_of I.made)).fits items.now ≡ true }
    ensures written { Appends out.old result out.new
        ((sequence (tagged I.tag_of I.contents_of I.made)).written items.now out.old) }
    ensures held { OnOk result
        ((sequence (tagged I.tag_of I.contents_of I.made)).holds items.now) }
{
    out.write_ulong(items.len() as u32)?;
    append_each(items, out)?;
    Ok(())
}

// Appends the fields in their order. Out of memory, a part of them is left.
#[tactic(auto, unfolding(crate::specs::Ior::ior_layout, crate::specs::Ior::tagged_profile, giop_cdr::specs::Layout::field, giop_cdr::specs::Layout::text, giop_cdr::specs::Layout::gives), using(giop_cdr::proofs::Writing::WriterLemmas::grows_then, giop_cdr::proofs::Writing::WriterLemmas::grows_not))]
pub fn append_ior(ior: &Ior, out: &mut CdrOut) -> Result<(), AllocError>
    requires { ior_layout.fits ior.now ≡ true }
    ensures written { Appends out.old result out.new (ior_layout.written ior.now out.old) }
    ensures held { OnOk result (ior_layout.holds ior.now) }
{
    out.write_string(ior.type_id.as_slice())?;
    append_tagged(ior.profiles.as_slice(), out)?;
    Ok(())
}
