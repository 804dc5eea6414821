//! The exported functions of a framer. Each takes what the handle holds, calls it and puts it back.
ghost use Rattle.std.specs.Prelude.{◌≡◌, None, length};
ghost use Rattle.giop_c.specs.Calls.{At, Copies, Feeds, ok, Opens, Takes};
ghost use Rattle.giop_c.specs.Copying.{CopiesAt};

use crate::records::{Fault, Message};
use crate::status::{CLOSED, NO_MEMORY, OK};
use crate::{FramerHandle, Reader};
use std::alloc::Global;

/// Opens a handle: a framer that refuses each message whose size is above the limit. What the
/// handle held is freed. It answers OK, or NO_MEMORY, which leaves the handle as it was.
#[unsafe(no_mangle)]
pub extern "C" fn giop_framer_new(alloc: Global, framer: &mut FramerHandle, limit: u32) -> u32
    ensures { Opens limit framer.old.value framer.new.value result }
{
    let Ok(reader) = Box::new(alloc, Reader::new(alloc, limit)) else {
        return NO_MEMORY;
    };
    *framer = FramerHandle::of(reader);
    OK
}

/// Appends octets of the stream. It answers OK, NO_MEMORY, which changes nothing, or CLOSED.
#[unsafe(no_mangle)]
pub extern "C" fn giop_framer_feed(alloc: Global, framer: &mut FramerHandle, octets: &[u8]) -> u32
    ensures { At framer.old.value framer.new.value result (Unit {0})
        (λ old new. Feeds octets.now old new result) }
{
    let Some(mut reader) = framer.take(alloc) else {
        return CLOSED;
    };
    let status = reader.feed(octets);
    *framer = FramerHandle::of(reader);
    status
}

/// Takes the next message. It answers OK and writes its header; WAITS where octets have to be fed
/// first; FAULT or NO_MEMORY, and writes the fault; or CLOSED.
#[unsafe(no_mangle)]
pub extern "C" fn giop_framer_next(
    alloc: Global,
    framer: &mut FramerHandle,
    message: &mut Message,
    fault: &mut Fault,
) -> u32
    ensures { At framer.old.value framer.new.value result
        ((message.new ≡ message.old) × (fault.new ≡ fault.old))
        (λ old new. Takes old new message.old message.new fault.old fault.new result) }
{
    let Some(mut reader) = framer.take(alloc) else {
        return CLOSED;
    };
    let status = reader.next(message, fault);
    *framer = FramerHandle::of(reader);
    status
}

/// Copies the payload of the message that was taken last into a buffer, and writes its size. It
/// answers OK; SMALL where the buffer has no room, and nothing is copied; WAITS where no message
/// was taken; or CLOSED.
#[unsafe(no_mangle)]
pub extern "C" fn giop_framer_payload(
    alloc: Global,
    framer: &mut FramerHandle,
    buffer: &mut [u8],
    size: &mut usize,
) -> u32
    ensures { CopiesAt framer.old.value framer.new.value (λ old. Copies old.message) buffer.old
        buffer.new size.old size.new result }
{
    let Some(reader) = framer.take(alloc) else {
        return CLOSED;
    };
    let status = reader.payload(buffer, size);
    *framer = FramerHandle::of(reader);
    status
}

/// Writes how many octets are unread. It answers OK or CLOSED.
#[unsafe(no_mangle)]
pub extern "C" fn giop_framer_rest(
    alloc: Global,
    framer: &mut FramerHandle,
    rest: &mut usize,
) -> u32
    ensures { At framer.old.value framer.new.value result (rest.new ≡ rest.old)
        (λ old new. (result ≡ ok) × (new ≡ old) × (rest.new ≡ length old.framer.octets)) }
{
    let Some(reader) = framer.take(alloc) else {
        return CLOSED;
    };
    *rest = reader.framer.rest();
    *framer = FramerHandle::of(reader);
    OK
}

/// Frees what the handle holds. A handle that holds nothing stays so.
#[unsafe(no_mangle)]
pub extern "C" fn giop_framer_free(alloc: Global, framer: &mut FramerHandle)
    ensures { framer.new.value ≡ None }
{
    let _held = framer.take(alloc);
}
