//! The kinds of messages (9.4.1): their numbers on the wire, the sizes that they may have, and
//! which of them Fragments may continue (9.4.9). The meaning is specs/Kind.antt.
ghost use Rattle.std.specs.Prelude.{◌≡◌, ◌<◌, slice_index_or};

use std::fmt;

/// The kinds of a GIOP message (9.4.1, message_type).
#[derive(Clone, Copy, Debug, PartialEq, Eq)]
pub enum Kind {
    /// A client asks for an operation: type 0.
    Request,
    /// A server answers a Request: type 1.
    Reply,
    /// A client gives up waiting for a reply: type 2.
    CancelRequest,
    /// A client asks where an object is: type 3.
    LocateRequest,
    /// A server answers a LocateRequest: type 4.
    LocateReply,
    /// An orderly end of the connection: type 5.
    CloseConnection,
    /// The peer sent what is no GIOP message: type 6.
    MessageError,
    /// A further piece of a message: type 7.
    Fragment,
}

impl Kind {
    ghost use Rattle.giop_msg.specs.declared.kind.Kind.TheVariants.{Fragment};
    ghost use Rattle.giop_msg.specs.Kind.{can_have_size, has_request_id, is_fragmentable, kind_number, kinds};

    /// The message type that is the kind on the wire, 0 to 7.
    pub fn number(self) -> u8
        ensures { result ≡ kind_number self }
    {
        match self {
            Kind::Request => 0,
            Kind::Reply => 1,
            Kind::CancelRequest => 2,
            Kind::LocateRequest => 3,
            Kind::LocateReply => 4,
            Kind::CloseConnection => 5,
            Kind::MessageError => 6,
            Kind::Fragment => 7,
        }
    }

    // The kind of a message type.
    pub(crate) fn from_number(number: u8) -> Kind
        requires { number < 8 }
        ensures { result ≡ slice_index_or kinds number Fragment }
    {
        match number {
            0 => Kind::Request,
            1 => Kind::Reply,
            2 => Kind::CancelRequest,
            3 => Kind::LocateRequest,
            4 => Kind::LocateReply,
            5 => Kind::CloseConnection,
            6 => Kind::MessageError,
            _ => Kind::Fragment,
        }
    }

    // Whether a message of the kind may have this many octets after its header.
    pub(crate) fn can_have_size(self, size: u32) -> bool
        ensures { result ≡ can_have_size self size }
    {
        match self {
            Kind::CloseConnection | Kind::MessageError => size == 0,
            Kind::CancelRequest => size == 4,
            _ => size >= 4,
        }
    }

    /// Whether a message of the kind begins its octets after the header with a request id: all but
    /// CloseConnection and MessageError.
    pub fn has_request_id(self) -> bool
        ensures { result ≡ has_request_id self }
    {
        !matches!(self, Kind::CloseConnection | Kind::MessageError)
    }

    /// Whether a Fragment may continue a message of the kind (9.4.9): Request, Reply,
    /// LocateRequest, LocateReply and Fragment itself.
    pub fn is_fragmentable(self) -> bool
        ensures { result ≡ is_fragmentable self }
    {
        self.has_request_id() && self != Kind::CancelRequest
    }
}

impl fmt::Display for Kind {
    ghost use Rattle.std.specs.Prelude.{Some};
    ghost use Rattle.giop_msg.specs.Kind.{kind_name};

    ghost output = { λ k. Some (kind_name k) };

    fn fmt<W: fmt::Write>(&self, f: &mut fmt::Formatter<W>) -> fmt::Result {
        f.write_str(match self {
            Kind::Request => "Request",
            Kind::Reply => "Reply",
            Kind::CancelRequest => "CancelRequest",
            Kind::LocateRequest => "LocateRequest",
            Kind::LocateReply => "LocateReply",
            Kind::CloseConnection => "CloseConnection",
            Kind::MessageError => "MessageError",
            Kind::Fragment => "Fragment",
        })
    }
}
