//! The header of a message (9.4.1): its fields, its twelve octets, and what is wrong with octets
//! that are none. The tests and their order are specs/Header.antt; the framer refuses by them.
ghost use Rattle.std.specs.Prelude.{◌≡◌, ◌<◌, Some, None, IfOk, IfErr, slice_index};
ghost use Rattle.giop_msg.specs.Header.{octet_fault};

use crate::{Kind, Version, WireFault, WireKind};
use giop_cdr::Order;

/// The header of a message (9.4.1), without its magic, which is `GIOP`, and its major version,
/// which is 1.
///
/// The fields can say what no header may: in 1.0 that more fragments follow, and before 1.2 that
/// the message is a Fragment. A `Framer` refuses the octets of such a header.
#[derive(Clone, Copy, Debug, PartialEq, Eq)]
pub struct Header {
    /// The version in which the message is laid out: octet 5, the minor number.
    pub version: Version,
    /// The byte order of the message, its size included: bit 0 of octet 6.
    pub order: Order,
    /// Whether more fragments follow: bit 1 of octet 6.
    pub more: bool,
    /// The message type.
    pub kind: Kind,
    /// The number of octets after the header.
    pub size: u32,
}

impl Header {
    ghost use Rattle.giop_msg.specs.Header.{can_continue, flags_of, header_octets, header_of, field_fault, header_fault};

    /// The twelve octets of the header on the wire. It takes no memory.
    #[tactic(auto, unfolding(crate::specs::Header::header_octets))]
    pub fn octets(&self) -> [u8; 12]
        ensures { result ≡ header_octets self.now }
    {
        let [a, b, c, d] = self.order.ulong_octets(self.size);
        let (minor, flags) = (self.version.minor(), self.flags());
        let kind = self.kind.number();
        [b'G', b'I', b'O', b'P', 1, minor, flags, kind, a, b, c, d]
    }

    // Bit 0 is the byte order, bit 1 says that more fragments follow.
    fn flags(&self) -> u8
        ensures { result ≡ flags_of self.now }
    {
        self.order.octet() + if self.more { 2 } else { 0 }
    }

    /// The header that twelve octets are (9.4.1), or the first thing that is wrong with them. No
    /// other octet of the message is needed. It takes no memory.
    ///
    /// `limit` is the greatest message size that is accepted, in octets; it doesn't count the
    /// header. Refused by the first of these tests that fails. A place is an offset from the first
    /// of the twelve octets:
    ///
    /// - 1, BadMagic, at the first wrong octet, 0 to 3: the first four octets are not `GIOP`
    /// - 2, BadVersion, at 4: the major number isn't 1; else at 5: the minor number is above 2
    /// - 3, ReservedFlags, at 6: one of the six upper bits is set; in 1.0 the octet is above 1
    /// - 4, BadKind, at 7: the message type is above 7, before 1.2 above 6
    /// - 5, TooLarge, at 8: the message size is above `limit`
    /// - 6, BadSize, at 8: the message size is not 0 of CloseConnection or MessageError, not 4 of
    ///   CancelRequest, or below 4 of another kind
    /// - 7, FragmentSize, at 8: in 1.2 more fragments follow, and the message size and 12 are
    ///   together no multiple of 8 (9.4.9)
    /// - 8, NotFragmentable, at 6: more fragments follow a kind that none may continue, or a
    ///   message of 1.1 (9.4.9)
    ///
    /// It is never NoMemory. `Framer::next` refuses the twelve octets at the front of a stream by
    /// the same tests, in the same order.
    #[tactic(auto, using(crate::proofs::FaultLemmas::judging))]
    pub fn judge(octets: &[u8; 12], limit: u32) -> Result<Header, WireFault>
        ensures ok { IfOk result (λ h. (h ≡ header_of octets.now)
            × (header_fault limit octets.now ≡ None)) }
        ensures err { IfErr result (λ e. header_fault limit octets.now ≡ Some e) }
    {
        if let Some(fault) = octet_fault(octets) {
            return Err(fault);
        }
        let header = Header::from_octets(octets);
        match header.field_fault(limit) {
            Some(fault) => Err(fault),
            None => Ok(header),
        }
    }

    // The message size that twelve octets say, in the byte order that they say.
    #[tactic(auto, unfolding(crate::specs::Header::header_of))]
    #[inline(always)]
    pub(crate) fn size_in(octets: &[u8; 12]) -> u32
        ensures { result ≡ (header_of octets.now).size }
    {
        let size = [octets[8], octets[9], octets[10], octets[11]];
        if octets[6] % 2 == 0 {
            u32::from_be_bytes(size)
        } else {
            u32::from_le_bytes(size)
        }
    }

    // The fields of twelve octets, in which the message type is below 8.
    #[tactic(auto, unfolding(crate::specs::Header::header_of))]
    fn from_octets(octets: &[u8; 12]) -> Header
        requires { slice_index octets.now 7 < 8 }
        ensures { result ≡ header_of octets.now }
    {
        let order = match octets[6] % 2 {
            0 => Order::Big,
            _ => Order::Little,
        };
        Header {
            version: Version::from_minor(octets[5]),
            order,
            more: octets[6] >= 2,
            kind: Kind::from_number(octets[7]),
            size: Header::size_in(octets),
        }
    }

    // Whether Fragments may continue the message.
    fn can_continue(&self) -> bool
        ensures { result ≡ can_continue self.now.version self.now.kind }
    {
        self.version.has_fragments() && self.kind.is_fragmentable()
    }

    // What is wrong with the fields, where message sizes are at most `limit`.
    #[tactic(auto, unfolding(crate::specs::Header::field_fault))]
    fn field_fault(&self, limit: u32) -> Option<WireFault>
        ensures { result ≡ field_fault limit self.now }
    {
        let (at, kind) = if self.size > limit {
            (8, WireKind::TooLarge)
        } else if !self.kind.can_have_size(self.size) {
            (8, WireKind::BadSize)
        } else if self.more && self.version.has_fragments() && self.size % 8 != 4 {
            (8, WireKind::FragmentSize)
        } else if self.more && !self.can_continue() {
            (6, WireKind::NotFragmentable)
        } else {
            return None;
        };
        Some(WireFault { at, kind })
    }
}

// What is wrong with the first eight octets of a header.
#[tactic(auto, unfolding(crate::specs::Header::octet_fault))]
fn octet_fault(octets: &[u8; 12]) -> Option<WireFault>
    ensures { result ≡ octet_fault octets.now }
{
    let version = Version::from_minor(octets[5]);
    let (at, kind) = if octets[0] != b'G' {
        (0, WireKind::BadMagic)
    } else if octets[1] != b'I' {
        (1, WireKind::BadMagic)
    } else if octets[2] != b'O' {
        (2, WireKind::BadMagic)
    } else if octets[3] != b'P' {
        (3, WireKind::BadMagic)
    } else if octets[4] != 1 {
        (4, WireKind::BadVersion)
    } else if octets[5] >= 3 {
        (5, WireKind::BadVersion)
    } else if octets[6] >= version.flag_values() {
        (6, WireKind::ReservedFlags)
    } else if octets[7] >= version.kind_count() {
        (7, WireKind::BadKind)
    } else {
        return None;
    };
    Some(WireFault { at, kind })
}
