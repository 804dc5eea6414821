//! Writing a whole Reply (9.4.3). The layout is specs/Messages/Reply.antt, and reply.rt reads it:
//! change them together.
ghost use Rattle.std.specs.Prelude.{◌≡◌, true, Ok, IfOk, OnOk};
ghost use Rattle.std.specs.Option.{option_copied};
ghost use Rattle.giop_cdr.specs.Writing.Outcome.{Appends};
ghost use Rattle.giop_msg.specs.Joined.{joined_from};
ghost use Rattle.giop_msg.specs.Messages.Outcome.{EncodesMessage};
ghost use Rattle.giop_msg.specs.Messages.Reply.{outs_for, reply};

use crate::joined::joined_output;
use crate::messages::reply::Reply;
use crate::messages::reply_body_writing::{append_reply_body, is_fitting_body};
use crate::messages::reply_reading::{may_answer, offer_for, outs_for};
use crate::messages::request::Request;
use crate::reply_head_writing::{append_parts, are_writable_parts};
use giop_cdr::{CdrOut, EncodeFault, Order};
use giop_types::{Interface, Parameter};
use std::alloc::{AllocError, Global};

impl Reply {
    /// Whether octets spell the Reply to a Request of an interface in its version, which has its
    /// status.
    ///
    /// The outs are as many as the operation's, or none where the flags of the request are 1, and
    /// each is of its description. An exception of the interface is known, and so are its members.
    /// No null is in an id, and each text and list is short enough for its count. Without a
    /// request, as where it could not be decoded, a system exception alone is. It takes no memory.
    pub fn is_writable(&self, interface: &Interface, request: Option<&Request>) -> bool
        ensures { result ≡ (reply interface.now (option_copied request.entry)
            self.now.version).fits self.now }
    {
        self.is_writable_by(interface, request, outs_for(interface, request))
    }

    // Whether octets spell the Reply, as `is_writable`, by the outs that the request expects. The
    // caller looks these up once.
    fn is_writable_by(
        &self,
        interface: &Interface,
        request: Option<&Request>,
        outs: &[Parameter],
    ) -> bool
        requires { outs.now ≡ outs_for interface.now (option_copied request) }
        ensures { result ≡ (reply interface.now (option_copied request.entry)
            self.now.version).fits self.now }
    {
        let status = self.body.status();
        if !may_answer(request, status) {
            return false;
        }
        are_writable_parts(self.version, status, self.contexts.as_slice())
            && is_fitting_body(offer_for(interface, request), outs, &self.body)
    }

    /// The joined octets of the Reply to a Request of an interface, in a byte order: its head, and
    /// its body by its status, padded with zeros. In 1.2 a body that has octets begins at a
    /// multiple of 8, and an empty one is written without padding.
    ///
    /// Refused as Unfit where `is_writable` is false, and then no octets spell it; else as NoMemory
    /// when out of memory.
    #[tactic(auto, using(crate::proofs::WholeMessages::ReplyWritingLemmas::reply_unspelled))]
    pub fn encode(
        &self,
        alloc: Global,
        interface: &Interface,
        request: Option<&Request>,
        order: Order,
    ) -> Result<Vec<u8>, EncodeFault>
        ensures encoded { EncodesMessage
            (reply interface.now (option_copied request.entry) self.now.version) self.now order
            result }

        // What was written is read as the Reply again.
        ensures back { IfOk result (λ octets.
            (reply interface.now (option_copied request.entry) self.now.version).read
            (joined_from order octets.items) ≡ Ok self.now) }
    {
        let outs = outs_for(interface, request);
        if !self.is_writable_by(interface, request, outs) {
            return Err(EncodeFault::Unfit);
        }
        let Ok(mut out) = joined_output(alloc, order) else {
            return Err(EncodeFault::NoMemory);
        };
        if append_reply(self, interface, request, outs, &mut out).is_err() {
            return Err(EncodeFault::NoMemory);
        }
        Ok(out.into_bytes())
    }
}

// Appends the head, and the body behind it. Out of memory, a part of them is left.
#[tactic(auto, using(giop_cdr::proofs::Writing::WriterLemmas::grows_then, giop_cdr::proofs::Writing::WriterLemmas::grows_not))]
fn append_reply(
    answer: &Reply,
    interface: &Interface,
    request: Option<&Request>,
    outs: &[Parameter],
    out: &mut CdrOut,
) -> Result<(), AllocError>
    requires fits { (reply interface.now (option_copied request) answer.now.version).fits
        answer.now ≡ true }
    requires outs { outs.now ≡ outs_for interface.now (option_copied request) }
    ensures written { Appends out.old result out.new
        ((reply interface.now (option_copied request.entry) answer.now.version).written
        answer.now out.old) }
    ensures held { OnOk result ((reply interface.now (option_copied request.entry)
        answer.now.version).holds answer.now) }
{
    let status = answer.body.status();
    append_parts(
        answer.version,
        answer.id,
        status,
        answer.contexts.as_slice(),
        out,
    )?;
    let offer = offer_for(interface, request);
    append_reply_body(answer.version, offer, outs, &answer.body, out)
}
