//! Writing a whole Request (9.4.2). The layout is specs/Messages/Request.antt, and request.rt reads
//! it: change them together.
ghost use Rattle.std.specs.Prelude.{◌≡◌, true, Ok, IfOk, OnOk};
ghost use Rattle.giop_cdr.specs.Writing.Outcome.{Appends};
ghost use Rattle.giop_msg.specs.Messages.Outcome.{EncodesMessage};
ghost use Rattle.giop_msg.specs.Messages.Request.{request};
ghost use Rattle.giop_msg.specs.Messages.RequestAnswer.{request_of_joined};

use crate::joined::joined_output;
use crate::laid_out::LaidOut;
use crate::messages::body_writing::{append_body, are_fitting};
use crate::messages::request::Request;
use giop_cdr::{CdrOut, EncodeFault, Order};
use giop_types::Interface;
use std::alloc::{AllocError, Global};

impl Request {
    /// Whether octets spell the Request in its version. Its head is writable, the interface has its
    /// operation, and there are as many values as ins, each of its description. It takes no memory.
    pub fn is_writable(&self, interface: &Interface) -> bool
        ensures { result ≡ (request interface.now self.now.head.version).fits self.now }
    {
        let Some(operation) = self.head.operation_asked(interface) else {
            return false;
        };
        self.head.is_writable() && are_fitting(operation.ins.as_slice(), self.body.as_slice())
    }

    /// The joined octets of the Request, in a byte order: its head and its body, padded with zeros.
    /// In 1.2 a body that has octets begins at a multiple of 8, and an empty one is written without
    /// padding.
    ///
    /// Refused as Unfit where `is_writable` is false, and then no octets spell it; else as NoMemory
    /// when out of memory.
    #[tactic(auto, using(crate::proofs::WholeMessages::RequestLemmas::request_unspelled))]
    pub fn encode(
        &self,
        alloc: Global,
        interface: &Interface,
        order: Order,
    ) -> Result<Vec<u8>, EncodeFault>
        ensures encoded { EncodesMessage (request interface.now self.now.head.version) self.now order
            result }

        // What was written is read as the Request again.
        ensures back { IfOk result (λ octets.
            request_of_joined interface.now self.now.head.version order octets.items
            ≡ Ok self.now) }
    {
        if !self.is_writable(interface) {
            return Err(EncodeFault::Unfit);
        }
        let Ok(mut out) = joined_output(alloc, order) else {
            return Err(EncodeFault::NoMemory);
        };
        if append_request(self, interface, &mut out).is_err() {
            return Err(EncodeFault::NoMemory);
        }
        Ok(out.into_bytes())
    }
}

// Appends the head, and the body behind it. Out of memory, a part of them is left.
#[tactic(auto, using(giop_cdr::proofs::Writing::WriterLemmas::grows_then, giop_cdr::proofs::Writing::WriterLemmas::grows_not))]
fn append_request(q: &Request, interface: &Interface, out: &mut CdrOut) -> Result<(), AllocError>
    requires { (request interface.now q.now.head.version).fits q.now ≡ true }
    ensures written { Appends out.old result out.new
        ((request interface.now q.now.head.version).written q.now out.old) }
    ensures held { OnOk result ((request interface.now q.now.head.version).holds q.now) }
{
    q.head.append(out)?;
    let Some(operation) = q.head.operation_asked(interface) else {
        return Ok(());
    };
    append_body(
        q.head.version,
        operation.ins.as_slice(),
        q.body.as_slice(),
        out,
    )
}
