//! LocateReply, a whole message (9.4.6): read and written. Its layout is
//! specs/Messages/LocateReply.antt, above that of its head (locate_reply_head.rt).
#![tactic(auto, unfolding(crate::specs::Messages::LocateReply::locate_reply, giop_cdr::specs::Ending::leads, giop_cdr::specs::Ending::made_of, giop_cdr::specs::Ending::remainder))]

ghost use Rattle.std.specs.Prelude.{◌≡◌, ◌≤◌, ◌^◌, length, true, Ok, IfOk, OnOk};
ghost use Rattle.giop_cdr.specs.Writing.Outcome.{Appends};
ghost use Rattle.giop_msg.specs.Joined.{joined_from};
ghost use Rattle.giop_msg.specs.Messages.LocateReply.{locate_reply};
ghost use Rattle.giop_msg.specs.Messages.Outcome.{Decodes, DecodesMessage, EncodesMessage};

use crate::joined::{joined_output, no_memory};
use crate::laid_out::LaidOut;
use crate::locate_reply_head::{LocateReplyHead, read_head};
use crate::version::Version;
use giop_cdr::{CdrFault, CdrIn, CdrOut, EncodeFault, OctetList, Octets, Order};
use std::alloc::{AllocError, Global};

/// A LocateReply (CORBA 3.3 Part 2, 9.4.6): its head, and the octets behind it as they came.
#[derive(Debug, Drop)]
pub struct LocateReply {
    /// The version, the id and the status.
    pub head: LocateReplyHead,
    /// The octets behind the status, undecoded.
    pub rest: OctetList,
}

impl LocateReply {
    /// The LocateReply that joined octets are, which are as for `RequestHead::view`. It takes
    /// memory for the octets behind the status.
    ///
    /// Refused as the first field of the head that is refused, in reading order: each as its own
    /// reader says, and a status that the version hasn't as BadLabel. It is NoMemory at 12 when out
    /// of memory, where nothing is refused.
    pub fn decode<S: Octets>(
        alloc: Global,
        octets: &S,
        version: Version,
        order: Order,
    ) -> Result<LocateReply, CdrFault>
        requires { length (S.octets octets.now) ≤ 2 ^ 62 }
        ensures { DecodesMessage (locate_reply version) order (S.octets octets.now) result }
    {
        read_reply(alloc, octets, version, order)
    }

    /// Whether octets spell the LocateReply: its version has its status. It takes no memory.
    #[tactic(auto, using(crate::proofs::WholeMessages::LocateReplyLemmas::locate_reply_fits))]
    pub fn is_writable(&self) -> bool
        ensures { result ≡ (locate_reply self.now.head.version).fits self.now }
    {
        self.head.is_writable()
    }

    /// The joined octets of the LocateReply, in a byte order: the fields in their order, and the
    /// octets behind them as they are.
    ///
    /// Refused as Unfit where `is_writable` is false, and then no octets spell it; else as NoMemory
    /// when out of memory.
    #[tactic(auto, using(crate::proofs::WholeMessages::LocateReplyLemmas::locate_reply_unspelled))]
    pub fn encode(&self, alloc: Global, order: Order) -> Result<Vec<u8>, EncodeFault>
        ensures encoded { EncodesMessage (locate_reply self.now.head.version) self.now order result }

        // What was written is read as the LocateReply again.
        ensures back { IfOk result (λ octets.
            (locate_reply self.now.head.version).read (joined_from order octets.items)
            ≡ Ok self.now) }
    {
        if !self.is_writable() {
            return Err(EncodeFault::Unfit);
        }
        let Ok(mut out) = joined_output(alloc, order) else {
            return Err(EncodeFault::NoMemory);
        };
        if append_reply(self, &mut out).is_err() {
            return Err(EncodeFault::NoMemory);
        }
        Ok(out.into_bytes())
    }
}

fn read_reply<S: Octets>(
    alloc: Global,
    octets: &S,
    version: Version,
    order: Order,
) -> Result<LocateReply, CdrFault>
    requires { length (S.octets octets.now) ≤ 2 ^ 62 }
    ensures { Decodes result
        ((locate_reply version).read (joined_from order (S.octets octets.now))) }
{
    let mut input = CdrIn::new(octets, order, 12);
    let head = match read_head(version, &mut input) {
        Ok(head) => head,
        Err(fault) => return Err(fault),
    };
    match input.view_remainder().to_list(alloc) {
        Ok(rest) => Ok(LocateReply { head, rest }),
        Err(_) => Err(no_memory()),
    }
}

// Appends the head and the octets behind it. Out of memory, a part of them is left.
#[tactic(auto, unfolding(crate::specs::Messages::LocateReply::locate_reply, giop_cdr::specs::Ending::leads, giop_cdr::specs::Ending::made_of, giop_cdr::specs::Ending::remainder), using(giop_cdr::proofs::Writing::WriterLemmas::grows_then, giop_cdr::proofs::Writing::WriterLemmas::grows_not))]
fn append_reply(reply: &LocateReply, out: &mut CdrOut) -> Result<(), AllocError>
    requires { (locate_reply reply.now.head.version).fits reply.now ≡ true }
    ensures written { Appends out.old result out.new
        ((locate_reply reply.now.head.version).written reply.now out.old) }
    ensures held { OnOk result ((locate_reply reply.now.head.version).holds reply.now) }
{
    reply.head.append(out)?;
    out.append_octets(reply.rest.as_slice())?;
    Ok(())
}
