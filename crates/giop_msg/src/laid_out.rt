//! What is written by the table of its version: the heads of Requests, Replies and LocateReplies, and
//! LocateRequests (9.4.2 to 9.4.6).
ghost use Rattle.giop_cdr.specs.Layout.{IsLawful};
ghost use Rattle.giop_msg.specs.Heads.{WritesBy};

use giop_cdr::{CdrOut, EncodeFault};
use std::alloc::AllocError;

/// A value whose fields the table of its version lays out.
pub trait LaidOut: Sized {
    ghost use Rattle.std.specs.Prelude.{◌≡◌, true, OnOk};
    ghost use Rattle.giop_cdr.specs.Layout.{Layout};
    ghost use Rattle.giop_cdr.specs.Writing.Outcome.{Appends};

    // The table of a value's version.
    ghost layout: { Self → Layout Self };

    /// Whether octets spell the value.
    fn fits(&self) -> bool
        ensures { result ≡ (layout self.now).fits self.now };

    /// Appends the fields in their order. Out of memory, a part of them is left.
    fn append(&self, out: &mut CdrOut) -> Result<(), AllocError>
        requires { (layout self.now).fits self.now ≡ true }
        ensures written { Appends out.old result out.new
            ((layout self.now).written self.now out.old) }
        ensures held { OnOk result ((layout self.now).holds self.now) };
}

/// Writes the fields in their order. Refused as Unfit where the value doesn't fit, else as NoMemory
/// when out of memory. The output is then as it was.
#[inline(always)]
pub fn write<V: LaidOut>(value: &V, out: &mut CdrOut) -> Result<(), EncodeFault>
    requires { IsLawful (V.layout value.now) }
    ensures { WritesBy (V.layout value.now) value.now out.old result out.new }
{
    if !value.fits() {
        return Err(EncodeFault::Unfit);
    }
    let point = out.checkpoint();
    if value.append(out).is_err() {
        out.back_to(point);
        return Err(EncodeFault::NoMemory);
    }
    Ok(())
}
