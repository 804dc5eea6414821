//! A message as the framer returns it (9.4.1), and its request id (9.4.2 to 9.4.9). Its octets on
//! the wire are specs/Msg.antt, and its id specs/RequestId.antt.
ghost use Rattle.std.specs.Prelude.{◌≡◌, ◌^◌, ◌<◌, ◌≤◌, length};

use crate::request_id::read_request_id;
use crate::{Header, Kind, Version};
use giop_cdr::{CdrFault, CdrIn, OctetList, Order, SliceOctets};

/// A message: what its header says but for its size, and the octets after the header.
#[derive(Debug, Drop, PartialEq, Eq)]
pub struct Msg {
    /// The version in which the payload is laid out.
    pub version: Version,
    /// The byte order of the header and of the payload.
    pub order: Order,
    /// Whether more fragments follow (9.4.9).
    pub more: bool,
    /// The message type.
    pub kind: Kind,
    /// The octets from offset 12 on, where offset 0 is the first octet of the header.
    pub payload: OctetList,
}

impl Msg {
    ghost use Rattle.giop_msg.specs.Msg.{head_of};
    ghost use Rattle.giop_msg.specs.RequestId.{request_id_of};

    /// The header of the message, whose size is the number of its octets after the header.
    pub fn header(&self) -> Header
        requires { length self.now.payload < 2 ^ 32 }
        ensures { result ≡ head_of self.now }
    {
        Header {
            version: self.version,
            order: self.order,
            more: self.more,
            kind: self.kind,
            size: self.payload.len() as u32,
        }
    }

    /// The request id, in the message's byte order: the unsigned long at offset 12 or, in a Request
    /// or a Reply before 1.2, the one behind the service contexts. It takes no memory.
    ///
    /// It is `None` for CloseConnection and MessageError, which have none. Refused as the first
    /// field up to the id that is refused; in a message of a `Framer` that begins with its id, none
    /// is.
    #[tactic(auto, using(crate::proofs::RequestIdLemmas::value_exact))]
    pub fn request_id(&self) -> Option<Result<u32, CdrFault>>
        requires { length self.now.payload ≤ 2 ^ 62 }
        ensures { result ≡ request_id_of self.now }
    {
        if !self.kind.has_request_id() {
            return None;
        }
        let joined = SliceOctets::new(self.payload.as_slice());
        let mut input = CdrIn::new(&joined, self.order, 12);
        Some(read_request_id(self.version, self.kind, &mut input))
    }
}
