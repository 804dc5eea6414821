//! The head of a LocateReply (9.4.6): read and written. Its layout is specs/Locate.antt, in the
//! order of the fields: change them together.
#![tactic(auto, unfolding(crate::specs::Locate::locate_reply_head, crate::specs::Locate::locate_status, giop_cdr::specs::Layout::field, giop_cdr::specs::Layout::such, giop_cdr::specs::Layout::number, giop_cdr::specs::Layout::gives, giop_cdr::specs::Reading::Values::such_at))]

ghost use Rattle.std.specs.Prelude.{◌≡◌, ◌≤◌, ◌^◌, length};
ghost use Rattle.giop_cdr.specs.Reading.Outcome.{Exactly};
ghost use Rattle.giop_msg.specs.Heads.{ViewsHead, WritesBy};
ghost use Rattle.giop_msg.specs.Joined.{right_behind};
ghost use Rattle.giop_msg.specs.Locate.{last_locate_status, locate_reply_head};

use crate::laid_out;
use crate::laid_out::LaidOut;
use crate::status::read_status;
use crate::version::Version;
use giop_cdr::{CdrFault, CdrIn, CdrOut, EncodeFault, Octets, Order};
use std::alloc::AllocError;

/// What a LocateReply says before the octets behind its status (9.4.6).
#[derive(Clone, Copy, Debug, PartialEq, Eq)]
pub struct LocateReplyHead {
    /// The version in which the head is laid out.
    pub version: Version,
    /// The id of the LocateRequest that is answered.
    pub id: u32,
    /// 0 UNKNOWN_OBJECT, 1 OBJECT_HERE, 2 OBJECT_FORWARD; and in 1.2 alone 3 OBJECT_FORWARD_PERM,
    /// 4 LOC_SYSTEM_EXCEPTION, 5 LOC_NEEDS_ADDRESSING_MODE.
    pub status: u32,
}

impl LocateReplyHead {
    /// The head that joined octets begin with, and the offset behind it. It takes no memory.
    ///
    /// The joined octets are as for `RequestHead::view`. Refused as the first field that is
    /// refused, in reading order: each as its own reader says, and a status that the version hasn't
    /// as BadLabel.
    pub fn view<S: Octets>(
        octets: &S,
        version: Version,
        order: Order,
    ) -> Result<(LocateReplyHead, usize), CdrFault>
        requires { length (S.octets octets.now) ≤ 2 ^ 62 }
        ensures { ViewsHead (locate_reply_head version) right_behind order
            (S.octets octets.now) result }
    {
        let mut input = CdrIn::new(octets, order, 12);
        let head = read_head(version, &mut input)?;
        Ok((head, input.position()))
    }

    /// Whether octets spell the head: its version has its status. It takes no memory.
    pub fn is_writable(&self) -> bool
        ensures { result ≡ (locate_reply_head self.now.version).fits self.now }
    {
        self.fits()
    }

    /// Writes the head: the fields in their order.
    ///
    /// Refused as Unfit where `is_writable` is false, and then no octets spell the head; else as
    /// NoMemory when out of memory. The output is then as it was.
    pub fn write(&self, out: &mut CdrOut) -> Result<(), EncodeFault>
        ensures { WritesBy (locate_reply_head self.now.version) self.now out.old result out.new }
    {
        laid_out::write(self, out)
    }
}

// The greatest locate status of a version.
fn last_locate_status(version: Version) -> u32
    ensures { result ≡ last_locate_status version }
{
    match version {
        Version::V10 | Version::V11 => 2,
        Version::V12 => 5,
    }
}

// Reads the fields in their order.
pub(crate) fn read_head<S: Octets>(
    version: Version,
    input: &mut CdrIn<S>,
) -> Result<LocateReplyHead, CdrFault>
    ensures { Exactly result input.new ((locate_reply_head version).read input.old) }
{
    let id = input.read_ulong()?;
    let status = read_status(last_locate_status(version), input)?;
    Ok(LocateReplyHead {
        version,
        id,
        status,
    })
}

impl LaidOut for LocateReplyHead {
    ghost use Rattle.giop_msg.specs.Locate.{locate_reply_head};

    ghost layout = { λ head. locate_reply_head head.version };

    fn fits(&self) -> bool {
        self.status <= last_locate_status(self.version)
    }

    #[tactic(auto, unfolding(crate::specs::Locate::locate_reply_head, crate::specs::Locate::locate_status, giop_cdr::specs::Layout::field, giop_cdr::specs::Layout::such, giop_cdr::specs::Layout::number, giop_cdr::specs::Layout::gives), using(giop_cdr::proofs::Writing::WriterLemmas::grows_then, giop_cdr::proofs::Writing::WriterLemmas::grows_not))]
    fn append(&self, out: &mut CdrOut) -> Result<(), AllocError> {
        out.write_ulong(self.id)?;
        out.write_ulong(self.status)?;
        Ok(())
    }
}
