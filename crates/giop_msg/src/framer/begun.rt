//! A large message that comes in parts. Its octets go to its payload as they come, so that they
//! are copied once.
ghost use Rattle.std.specs.Prelude.{◌≡◌, ◌+◌, ◌++◌, ◌<◌, ◌≤◌, ◌^◌, ◌↔◌, IsTrue, [], Some, IfOk, IfErr, IfSome, OnOk, OnErr, length};
ghost use Rattle.giop_msg.specs.declared.fault.WireKind.TheVariants.{NoMemory};
ghost use Rattle.giop_msg.specs.Fault.{fault};
ghost use Rattle.giop_msg.specs.Framing.{begun_octets, IsBefore, message_of, payload_so_far, with_begun};

use super::buffer::Buffer;
use super::spare::Spare;
use crate::{Header, Msg, WireFault};
use giop_cdr::OctetList;
use std::alloc::AllocError;

// The greatest size of a message that is small, in octets.
const MOST_SMALL: u32 = 4_096;

/// A message whose header is judged, and the octets of its payload that came so far.
#[derive(Debug, Drop)]
pub struct Begun {
    header: Header,
    payload: Vec<u8>,
}

impl Begun {
    /// The large message that the octets begin, where its end isn't among them. Most messages are
    /// small, and their headers are judged once, as they are taken.
    #[inline(always)]
    pub fn begin(spare: &mut Spare, octets: &[u8], limit: u32) -> Result<Option<Begun>, AllocError>
        ensures octets { IfOk result (λ o. IfSome o (λ b. octets.now ≡ begun_octets b)) }
        ensures before { IfOk result (λ o. IfSome o (λ b.
            IsBefore b (record { limit = limit; octets = [] }))) }
    {
        match octets.first_chunk::<12>() {
            Some(head) if Header::size_in(head) > MOST_SMALL => {
                Begun::begin_judged(spare, octets, limit)
            }
            _ => Ok(None),
        }
    }

    // The message that the octets begin, where its header is sound and its end isn't among them.
    #[inline(never)]
    fn begin_judged(
        spare: &mut Spare,
        octets: &[u8],
        limit: u32,
    ) -> Result<Option<Begun>, AllocError>
        ensures octets { IfOk result (λ o. IfSome o (λ b. octets.now ≡ begun_octets b)) }
        ensures before { IfOk result (λ o. IfSome o (λ b.
            IsBefore b (record { limit = limit; octets = [] }))) }
    {
        let Some((head, payload)) = octets.split_first_chunk::<12>() else {
            return Ok(None);
        };
        match Header::judge(head, limit) {
            Ok(header) if payload.len() < header.size as usize => Ok(Some(Begun {
                header,
                payload: spare.copied(payload)?,
            })),
            _ => Ok(None),
        }
    }

    /// Whether all of the payload is there.
    #[inline(always)]
    pub fn is_whole(&self) -> bool
        ensures { IsTrue result ↔ (self.now.header.size ≤ length (payload_so_far self.now)) }
    {
        self.payload.len() >= self.header.size as usize
    }

    /// The number of its octets, with the header.
    pub fn len(&self) -> usize
        requires sized { self.now.header.size < 2 ^ 32 }
        requires within { length (payload_so_far self.now) ≤ self.now.header.size }
        ensures value { result ≡ length (begun_octets self.now) }
        ensures bound { result < 2 ^ 33 }
    {
        12 + self.payload.len()
    }

    /// Appends what the payload wants of the octets to it, and the others to those behind it.
    pub fn feed(&mut self, octets: &[u8], behind: &mut Buffer) -> Result<(), WireFault>
        requires { IsBefore self.old behind.old }
        ensures ok { OnOk result (with_begun (Some self.new) behind.new
            ≡ record behind.old {
              octets = begun_octets self.old ++ behind.old.octets
                  ++ octets.now;
            }) }
        ensures err { IfErr result (λ e. e ≡ fault 0 NoMemory) }
        ensures kept { OnErr result (with_begun (Some self.new) behind.new
            ≡ with_begun (Some self.old) behind.old) }
        ensures before { IsBefore self.new behind.new }
    {
        let wanted = self.header.size as usize - self.payload.len();
        let (own, others) = octets.split_at(wanted.min(octets.len()));
        // Where memory is refused, neither has changed.
        self.payload.reserve(own.len())?;
        behind.append(others)?;
        self.payload.extend_from_slice(own).unwrap();
        Ok(())
    }

    /// The message of its header and its payload. It takes no memory.
    pub fn into_message(self) -> Msg
        ensures { result ≡ message_of self.header self.payload.items }
    {
        Msg {
            version: self.header.version,
            order: self.header.order,
            more: self.header.more,
            kind: self.header.kind,
            payload: OctetList::from(self.payload),
        }
    }
}
