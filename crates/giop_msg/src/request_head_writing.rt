//! Writing the head of a Request (9.4.2). Its layout is specs/RequestHead.antt, and request_head.rt
//! reads it, in the order of the fields: change them together.
#![tactic(auto, unfolding(crate::specs::RequestHead::request_head, crate::specs::RequestHead::request_head_1_2, crate::specs::RequestHead::early_request_head, crate::specs::RequestHead::response_flags, crate::specs::RequestHead::response_expected, crate::specs::RequestHead::reserved_of, crate::specs::RequestHead::reserved_octets, crate::specs::RequestHead::reserved_octet, crate::specs::RequestHead::principal, crate::specs::Meaning::meaning, giop_cdr::specs::Layout::field, giop_cdr::specs::Layout::such, giop_cdr::specs::Layout::number, giop_cdr::specs::Layout::boolean, giop_cdr::specs::Layout::octets, giop_cdr::specs::Layout::text, giop_cdr::specs::Layout::reserved, giop_cdr::specs::Layout::gives), using(giop_cdr::proofs::Writing::WriterLemmas::grows_then, giop_cdr::proofs::Writing::WriterLemmas::grows_not))]

ghost use Rattle.std.specs.Prelude.{◌≡◌, true, OnOk};
ghost use Rattle.giop_cdr.specs.Writing.Outcome.{Appends};
ghost use Rattle.giop_cdr.specs.Layout.{is_spellable};
ghost use Rattle.giop_msg.specs.declared.version.Version.TheVariants.{V12};
ghost use Rattle.giop_msg.specs.Heads.{WritesBy};
ghost use Rattle.giop_msg.specs.RequestHead.{early_request_head, reserved_octets, reserved_of, request_head, request_head_1_2};

use crate::laid_out;
use crate::laid_out::LaidOut;
use crate::request_head::RequestHead;
use crate::target_writing::{append_key, append_target, is_writable_key, is_writable_target};
use crate::version::Version;
use giop_cdr::{CdrOut, EncodeFault};
use giop_ior::{append_contexts, are_writable_contexts};
use std::alloc::AllocError;

impl RequestHead {
    /// Whether octets spell the head in its version. Its flags are 0, 1 or 3, no null is in the
    /// operation, and each text and list is short enough for its count. Before 1.2 the flags are 0
    /// or 3 and the target is a key. It takes no memory.
    pub fn is_writable(&self) -> bool
        ensures { result ≡ (request_head self.now.version).fits self.now }
    {
        self.fits()
    }

    /// Writes the head: the fields in their order, reserved octets as zeros and the principal as
    /// empty. In 1.2 the body is aligned to 8 behind it, unless it is empty.
    ///
    /// Refused as Unfit where `is_writable` is false, and then no octets spell the head; else as
    /// NoMemory when out of memory. The output is then as it was.
    pub fn write(&self, out: &mut CdrOut) -> Result<(), EncodeFault>
        ensures { WritesBy (request_head self.now.version) self.now out.old result out.new }
    {
        laid_out::write(self, out)
    }
}

fn is_writable_1_2(head: &RequestHead) -> bool
    ensures { result ≡ request_head_1_2.fits head.now }
{
    matches!(head.flags, 0 | 1 | 3)
        && is_writable_target(&head.target)
        && is_text(head.operation.as_slice())
        && are_writable_contexts(head.contexts.as_slice())
}

fn is_writable_early(version: Version, head: &RequestHead) -> bool
    ensures { result ≡ (early_request_head version).fits head.now }
{
    are_writable_contexts(head.contexts.as_slice())
        && matches!(head.flags, 0 | 3)
        && is_writable_key(&head.target)
        && is_text(head.operation.as_slice())
}

/// Whether octets can be a string: no null is in them, and they are few enough for its count.
pub(crate) fn is_text(octets: &[u8]) -> bool
    ensures { result ≡ is_spellable octets.now }
{
    octets.len() < u32::MAX as usize && !octets.contains(&0)
}

fn append_reserved(out: &mut CdrOut) -> Result<(), AllocError>
    ensures written { Appends out.old result out.new (reserved_octets.written 0 out.old) }
    ensures held { OnOk result (reserved_octets.holds 0) }
{
    out.write_octet(0)?;
    out.write_octet(0)?;
    out.write_octet(0)?;
    Ok(())
}

fn append_reserved_of(version: Version, out: &mut CdrOut) -> Result<(), AllocError>
    ensures written { Appends out.old result out.new ((reserved_of version).written 0 out.old) }
    ensures held { OnOk result ((reserved_of version).holds 0) }
{
    match version {
        Version::V10 => Ok(()),
        Version::V11 | Version::V12 => append_reserved(out),
    }
}

// Appends the fields of 1.2 in their order. Out of memory, a part of them is left.
fn append_head_1_2(head: &RequestHead, out: &mut CdrOut) -> Result<(), AllocError>
    requires { request_head_1_2.fits head.now ≡ true }
    ensures written { Appends out.old result out.new
        (request_head_1_2.written head.now out.old) }
    ensures held { head.now.version ≡ V12 → OnOk result (request_head_1_2.holds head.now) }
{
    out.write_ulong(head.id)?;
    out.write_octet(head.flags)?;
    append_reserved(out)?;
    append_target(&head.target, out)?;
    out.write_string(head.operation.as_slice())?;
    append_contexts(head.contexts.as_slice(), out)?;
    Ok(())
}

// Appends the fields before 1.2 in their order, the principal empty. Out of memory, a part of them
// is left.
fn append_early_head(
    version: Version,
    head: &RequestHead,
    out: &mut CdrOut,
) -> Result<(), AllocError>
    requires { (early_request_head version).fits head.now ≡ true }
    ensures written { Appends out.old result out.new
        ((early_request_head version).written head.now out.old) }
    ensures held { head.now.version ≡ version
        → OnOk result ((early_request_head version).holds head.now) }
{
    append_contexts(head.contexts.as_slice(), out)?;
    out.write_ulong(head.id)?;
    out.write_boolean(head.flags == 3)?;
    append_reserved_of(version, out)?;
    append_key(&head.target, out)?;
    out.write_string(head.operation.as_slice())?;
    out.write_octets(&[])?;
    Ok(())
}

impl LaidOut for RequestHead {
    ghost use Rattle.giop_msg.specs.RequestHead.{request_head};

    ghost layout = { λ head. request_head head.version };

    fn fits(&self) -> bool {
        match self.version {
            Version::V10 => is_writable_early(Version::V10, self),
            Version::V11 => is_writable_early(Version::V11, self),
            Version::V12 => is_writable_1_2(self),
        }
    }

    fn append(&self, out: &mut CdrOut) -> Result<(), AllocError> {
        match self.version {
            Version::V10 => append_early_head(Version::V10, self, out),
            Version::V11 => append_early_head(Version::V11, self, out),
            Version::V12 => append_head_1_2(self, out),
        }
    }
}
