//! Writing the head of a Reply (9.4.3). Its layout is specs/ReplyHead.antt, and reply_head.rt reads
//! it, in the order of the fields: change them together.
#![tactic(auto, unfolding(crate::specs::ReplyHead::reply_head, crate::specs::ReplyHead::reply_head_1_2, crate::specs::ReplyHead::early_reply_head, crate::specs::ReplyHead::reply_status, giop_cdr::specs::Layout::field, giop_cdr::specs::Layout::such, giop_cdr::specs::Layout::number, giop_cdr::specs::Layout::gives), using(giop_cdr::proofs::Writing::WriterLemmas::grows_then, giop_cdr::proofs::Writing::WriterLemmas::grows_not))]

ghost use Rattle.std.specs.Prelude.{◌≡◌, true, ℕ, OnOk};
ghost use Rattle.giop_cdr.specs.Writing.Outcome.{Appends};
ghost use Rattle.giop_msg.specs.declared.version.Version.TheVariants.{V12};
ghost use Rattle.giop_msg.specs.Heads.{WritesBy};
ghost use Rattle.giop_msg.specs.ReplyHead.{early_reply_head, head_of, reply_head, reply_head_1_2};

use crate::laid_out;
use crate::laid_out::LaidOut;
use crate::reply_head::{ReplyHead, last_reply_status};
use crate::version::Version;
use giop_cdr::{CdrOut, EncodeFault};
use giop_ior::{ServiceContext, append_contexts, are_writable_contexts};
use std::alloc::AllocError;

impl ReplyHead {
    /// Whether octets spell the head in its version: the version has its status, and the contexts
    /// are short enough for their counts. It takes no memory.
    pub fn is_writable(&self) -> bool
        ensures { result ≡ (reply_head self.now.version).fits self.now }
    {
        self.fits()
    }

    /// Writes the head: the fields in their order. In 1.2 the body is aligned to 8 behind it,
    /// unless it is empty.
    ///
    /// Refused as Unfit where `is_writable` is false, and then no octets spell the head; else as
    /// NoMemory when out of memory. The output is then as it was.
    pub fn write(&self, out: &mut CdrOut) -> Result<(), EncodeFault>
        ensures { WritesBy (reply_head self.now.version) self.now out.old result out.new }
    {
        laid_out::write(self, out)
    }
}

impl LaidOut for ReplyHead {
    ghost use Rattle.giop_msg.specs.ReplyHead.{reply_head};

    ghost layout = { λ head. reply_head head.version };

    fn fits(&self) -> bool {
        are_writable_parts(self.version, self.status, self.contexts.as_slice())
    }

    fn append(&self, out: &mut CdrOut) -> Result<(), AllocError> {
        append_parts(
            self.version,
            self.id,
            self.status,
            self.contexts.as_slice(),
            out,
        )
    }
}

/// Whether octets spell a head of a version that has these parts, whatever its id.
pub(crate) fn are_writable_parts(version: Version, status: u32, contexts: &[ServiceContext]) -> bool
    ensures { (id : ℕ) → result ≡ (reply_head version).fits (head_of version id status contexts.now) }
{
    match version {
        Version::V10 => are_writable_early(Version::V10, status, contexts),
        Version::V11 => are_writable_early(Version::V11, status, contexts),
        Version::V12 => are_writable_1_2(status, contexts),
    }
}

fn are_writable_1_2(status: u32, contexts: &[ServiceContext]) -> bool
    ensures { (id : ℕ) → result ≡ reply_head_1_2.fits (head_of V12 id status contexts.now) }
{
    status <= last_reply_status(Version::V12) && are_writable_contexts(contexts)
}

fn are_writable_early(version: Version, status: u32, contexts: &[ServiceContext]) -> bool
    ensures { (id : ℕ) → result ≡ (early_reply_head version).fits (head_of version id status contexts.now) }
{
    are_writable_contexts(contexts) && status <= last_reply_status(version)
}

// Appends the fields of 1.2 in their order. Out of memory, a part of them is left.
fn append_parts_1_2(
    id: u32,
    status: u32,
    contexts: &[ServiceContext],
    out: &mut CdrOut,
) -> Result<(), AllocError>
    requires { reply_head_1_2.fits (head_of V12 id status contexts.now) ≡ true }
    ensures written { Appends out.old result out.new (reply_head_1_2.written (head_of V12 id status contexts.now) out.old) }
    ensures held { OnOk result (reply_head_1_2.holds (head_of V12 id status contexts.now)) }
{
    out.write_ulong(id)?;
    out.write_ulong(status)?;
    append_contexts(contexts, out)?;
    Ok(())
}

// Appends the fields before 1.2 in their order. Out of memory, a part of them is left.
fn append_early_parts(
    version: Version,
    id: u32,
    status: u32,
    contexts: &[ServiceContext],
    out: &mut CdrOut,
) -> Result<(), AllocError>
    requires { (early_reply_head version).fits (head_of version id status contexts.now) ≡ true }
    ensures written { Appends out.old result out.new ((early_reply_head version).written (head_of version id status contexts.now) out.old) }
    ensures held { OnOk result ((early_reply_head version).holds (head_of version id status contexts.now)) }
{
    append_contexts(contexts, out)?;
    out.write_ulong(id)?;
    out.write_ulong(status)?;
    Ok(())
}

/// Appends a head that has these parts. Out of memory, a part of it is left.
pub(crate) fn append_parts(
    version: Version,
    id: u32,
    status: u32,
    contexts: &[ServiceContext],
    out: &mut CdrOut,
) -> Result<(), AllocError>
    requires { (reply_head version).fits (head_of version id status contexts.now) ≡ true }
    ensures written { Appends out.old result out.new ((reply_head version).written (head_of version id status contexts.now) out.old) }
    ensures held { OnOk result ((reply_head version).holds (head_of version id status contexts.now)) }
{
    match version {
        Version::V10 => append_early_parts(Version::V10, id, status, contexts, out),
        Version::V11 => append_early_parts(Version::V11, id, status, contexts, out),
        Version::V12 => append_parts_1_2(id, status, contexts, out),
    }
}
