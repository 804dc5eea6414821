//! The structs that cross to C by value. `include/giop.h` declares them too: change both.
ghost use Rattle.std.specs.Prelude.{◌≡◌, ◌<◌, ◌^◌, length};
ghost use Rattle.giop_c.specs.Heads.{c_cdr_fault};
ghost use Rattle.giop_c.specs.Interfaces.{c_text_fault, description_number};
ghost use Rattle.giop_c.specs.Records.{c_fault, c_message, has_id, id_told};

use giop_cdr::CdrFault;
use giop_json::FormFault;
use giop_msg::{Msg, WireFault};

/// What the header of a message says, and its request id, as C sees it: `giop_message`.
#[repr(C)]
#[derive(Clone, Copy, Debug, PartialEq, Eq)]
pub struct Message {
    /// The minor number of the version: 0, 1 or 2.
    pub minor: u8,
    /// 1 where the message is little endian, else 0.
    pub little_endian: u8,
    /// 1 where more fragments follow, else 0.
    pub more: u8,
    /// The message type, 0 to 7.
    pub kind: u8,
    /// The number of octets after the header.
    pub size: u32,
    /// The request id; 0 where `has_id` is 0.
    pub id: u32,
    /// 1 where the message has a request id that can be read, else 0.
    pub has_id: u8,
}

impl Message {
    /// The header of a message whose size is an unsigned long, and its request id.
    pub fn of(message: &Msg) -> Message
        requires { length message.now.payload < 2 ^ 32 }
        ensures { result ≡ c_message message.now }
    {
        let id = message.request_id();
        Message {
            minor: message.version.minor(),
            little_endian: message.order.octet(),
            more: if message.more { 1 } else { 0 },
            kind: message.kind.number(),
            size: message.payload.len() as u32,
            id: id_told(&id),
            has_id: has_id(&id),
        }
    }
}

/// The request id that was read; 0 where none was.
pub fn id_told(id: &Option<Result<u32, CdrFault>>) -> u32
    ensures { result ≡ id_told id.now }
{
    match id {
        Some(Ok(id)) => *id,
        _ => 0,
    }
}

/// 1 where a request id was read, else 0.
pub fn has_id(id: &Option<Result<u32, CdrFault>>) -> u8
    ensures { result ≡ has_id id.now }
{
    match id {
        Some(Ok(_)) => 1,
        _ => 0,
    }
}

/// Why octets are refused, and where, as C sees it: `giop_fault`.
#[repr(C)]
#[derive(Clone, Copy, Debug, PartialEq, Eq)]
pub struct Fault {
    /// The offset of what is wrong, from the first octet of the message's header.
    pub at: usize,
    /// The number of what is wrong, 1 to 9, in the order in which headers are judged.
    pub number: u32,
}

impl Fault {
    /// A fault of the framer.
    pub fn of(fault: WireFault) -> Fault
        ensures { result ≡ c_fault fault }
    {
        Fault {
            at: fault.at,
            number: u32::from(fault.number()),
        }
    }

    /// A fault of a head.
    pub fn of_cdr(refused: CdrFault) -> Fault
        ensures { result ≡ c_cdr_fault refused }
    {
        Fault {
            at: refused.at,
            number: u32::from(refused.number()),
        }
    }
}

/// What the head of a Request says, as C sees it: `giop_request`.
#[repr(C)]
#[derive(Clone, Copy, Debug, PartialEq, Eq)]
pub struct Request {
    /// Where the body stands, from the first octet of the message's header.
    pub body: usize,
    /// The number of octets of the operation's name, without its null.
    pub operation: usize,
    /// The number of octets of the object's key; 0 where the target is no key.
    pub key: usize,
    /// The request id.
    pub id: u32,
    /// The response flags: 0 for no reply, 1 for one without a body, 3 for a reply.
    pub flags: u8,
    /// The addressing disposition: 0 a key, 1 a profile, 2 a reference.
    pub target: u8,
}

/// What the head of a Reply says, as C sees it: `giop_reply`.
#[repr(C)]
#[derive(Clone, Copy, Debug, PartialEq, Eq)]
pub struct Reply {
    /// Where the body stands, from the first octet of the message's header.
    pub body: usize,
    /// The number of service contexts.
    pub contexts: usize,
    /// The id of the request that is answered.
    pub id: u32,
    /// The reply status, 0 to 5.
    pub status: u32,
}

/// How an object is reached over IIOP, as C sees it: `giop_profile`.
#[repr(C)]
#[derive(Clone, Copy, Debug, PartialEq, Eq)]
pub struct Profile {
    /// The number of octets of the host's name.
    pub host: usize,
    /// The number of octets of the object's key.
    pub key: usize,
    /// The number of components.
    pub components: usize,
    /// The TCP port.
    pub port: u16,
    /// The minor number of the version of IIOP.
    pub minor: u8,
}

/// Why a text of JSON is refused, as C sees it: `giop_text_fault`.
#[repr(C)]
#[derive(Clone, Copy, Debug, PartialEq, Eq)]
pub struct TextFault {
    /// The number of what is wrong, 1 to 5.
    pub number: u32,
    /// Where a description is wrong, the number of that, 1 to 4; else 0.
    pub description: u32,
}

impl TextFault {
    /// A fault of a text.
    pub fn of(refused: FormFault) -> TextFault
        ensures { result ≡ c_text_fault refused }
    {
        TextFault {
            number: u32::from(refused.number()),
            description: description_number(refused),
        }
    }
}

// The number of a description's fault, where that is what is wrong.
fn description_number(refused: FormFault) -> u32
    ensures { result ≡ description_number refused }
{
    match refused {
        FormFault::BadDesc(fault) => u32::from(fault.number()),
        _ => 0,
    }
}
