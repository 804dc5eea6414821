//! The exported function that reads the head of a Reply, out of the caller's octets. It takes no
//! handle and no memory.
ghost use Rattle.std.specs.Prelude.{◌≡◌, ◌≤◌, ◌^◌, length};
ghost use Rattle.giop_msg.specs.Joined.{body_place, head_of_joined};
ghost use Rattle.giop_msg.specs.ReplyHead.{reply_head};
ghost use Rattle.giop_c.specs.Heads.{ReadsReply, c_order, c_reply, c_version};

use crate::records::{Fault, Message, Reply};
use crate::request_calls::{order_of, version_of};
use crate::status::{FAULT, OK};
use giop_cdr::SliceOctets;
use giop_msg::{ReplyHead, ReplyHeadAt};

/// Reads the head of a Reply out of its payload. It answers OK, and writes the head; or FAULT, and
/// writes the fault.
///
/// The header is the one that the message was taken with. The payload is that of a message without
/// fragments. Places are counted from the first octet of the header.
#[unsafe(no_mangle)]
pub extern "C" fn giop_reply_head(
    message: &Message,
    payload: &[u8],
    reply: &mut Reply,
    fault: &mut Fault,
) -> u32
    requires { length payload.now ≤ 2 ^ 62 }
    ensures { ReadsReply (head_of_joined (reply_head (c_version message.now))
        (body_place (c_version message.now)) (c_order message.now) payload.now)
        reply.old reply.new fault.old fault.new result }
{
    let joined = SliceOctets::new(payload);
    match ReplyHead::view(&joined, version_of(message), order_of(message)) {
        Ok((head, body)) => {
            *reply = written(&head, body);
            OK
        }
        Err(refused) => {
            *fault = Fault::of_cdr(refused);
            FAULT
        }
    }
}

// What is written of a head for C.
fn written(head: &ReplyHeadAt<'_, SliceOctets<'_>>, body: usize) -> Reply
    ensures { result ≡ c_reply head.now body }
{
    Reply {
        body,
        contexts: head.contexts.len(),
        id: head.id,
        status: head.status,
    }
}
