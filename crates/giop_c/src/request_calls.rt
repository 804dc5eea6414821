//! The exported function that reads the head of a Request, out of the caller's octets. It takes no
//! handle and no memory.
ghost use Rattle.std.specs.Prelude.{◌≡◌, ◌≤◌, ◌^◌, length};
ghost use Rattle.giop_msg.specs.Joined.{body_place, head_of_joined};
ghost use Rattle.giop_msg.specs.RequestHead.{request_head};
ghost use Rattle.giop_msg.specs.Target.{key_of};
ghost use Rattle.giop_c.specs.Heads.{Copied, Reads, c_order, c_request, c_version};

use crate::copying::fill;
use crate::records::{Fault, Message, Request};
use crate::status::{FAULT, OK, SMALL};
use giop_cdr::{Order, SliceOctets};
use giop_msg::{RequestHead, RequestHeadAt, Target, TargetAt, Version};

/// Reads the head of a Request out of its payload. It answers OK, and copies the operation and the
/// object's key into the buffers; SMALL, where one of them has no room, and copies nothing; or
/// FAULT. With OK and SMALL the head is written, with FAULT the fault.
///
/// The header is the one that the message was taken with. The payload is that of a message without
/// fragments. Places are counted from the first octet of the header.
#[unsafe(no_mangle)]
pub extern "C" fn giop_request_head(
    message: &Message,
    payload: &[u8],
    request: &mut Request,
    operation: &mut [u8],
    key: &mut [u8],
    fault: &mut Fault,
) -> u32
    requires { length payload.now ≤ 2 ^ 62 }
    ensures { Reads (head_of_joined (request_head (c_version message.now))
        (body_place (c_version message.now)) (c_order message.now) payload.now)
        request.old request.new operation.old operation.new key.old key.new
        fault.old fault.new result }
{
    let joined = SliceOctets::new(payload);
    match RequestHead::view(&joined, version_of(message), order_of(message)) {
        Ok((head, body)) => {
            *request = written(&head, body);
            copy_both(
                head.operation.as_slice(),
                key_of(&head.target),
                operation,
                key,
            )
        }
        Err(refused) => {
            *fault = Fault::of_cdr(refused);
            FAULT
        }
    }
}

// What is written of a head for C.
fn written(head: &RequestHeadAt<'_, SliceOctets<'_>>, body: usize) -> Request
    ensures { result ≡ c_request head.now body }
{
    Request {
        body,
        operation: head.operation.as_slice().len(),
        key: key_of(&head.target).len(),
        id: head.id,
        flags: head.flags,
        target: match head.target {
            Target::Key(_) => 0,
            Target::Profile(_) => 1,
            Target::Reference { .. } => 2,
        },
    }
}

// The octets of an object's key; none of another target.
fn key_of<'a>(target: &TargetAt<'_, SliceOctets<'a>>) -> &'a [u8]
    ensures { result.now ≡ key_of target.now }
{
    match target {
        Target::Key(key) => key.as_slice(),
        _ => &[],
    }
}

/// Copies two lists of octets, each to the front of its buffer. It answers OK; or SMALL, where one of
/// the buffers has no room, and copies neither.
pub fn copy_both(name: &[u8], id: &[u8], operation: &mut [u8], key: &mut [u8]) -> u32
    ensures { Copied name.now id.now operation.old operation.new key.old key.new result }
{
    if operation.len() < name.len() || key.len() < id.len() {
        return SMALL;
    }
    fill(name, operation);
    fill(id, key);
    OK
}

/// The version of a message's header.
pub fn version_of(message: &Message) -> Version
    ensures { result ≡ c_version message.now }
{
    match message.minor {
        0 => Version::V10,
        1 => Version::V11,
        _ => Version::V12,
    }
}

/// The byte order of a message's header.
pub fn order_of(message: &Message) -> Order
    ensures { result ≡ c_order message.now }
{
    if message.little_endian == 0 {
        Order::Big
    } else {
        Order::Little
    }
}
