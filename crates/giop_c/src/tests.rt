//! The exported functions in turn, on octets that are worked by hand from 9.4.1. tests/clib has the
//! same calls from C, and what is wrong with a header.

mod client;
mod contexts;
mod interface;
mod references;
mod server;
mod server_entries;
mod threads;
mod values;

use crate::framer_calls::{
    giop_framer_feed, giop_framer_free, giop_framer_new, giop_framer_next, giop_framer_payload,
    giop_framer_rest,
};
use crate::header_calls::giop_header;
use crate::request_calls::giop_request_head;
use crate::status::{CLOSED, FAULT, OK, SMALL, WAITS};
use crate::{Fault, FramerHandle, Message, Request};

// A CancelRequest of 1.0, little endian, of id 7 (9.4.4).
const CANCEL: [u8; 16] = [b'G', b'I', b'O', b'P', 1, 0, 1, 2, 4, 0, 0, 0, 7, 0, 0, 0];

const UNWRITTEN: Message = Message {
    minor: 9,
    little_endian: 9,
    more: 9,
    kind: 9,
    size: 9,
    id: 9,
    has_id: 9,
};

#[test]
fn a_header_is_read_without_a_handle(rt: HostRuntime) {
    let (mut message, mut fault) = (UNWRITTEN, Fault { at: 77, number: 77 });
    assert_eq!(rt;
        giop_header(&CANCEL[..11], 4, &mut message, &mut fault),
        WAITS
    );
    assert_eq!(rt; message, UNWRITTEN);
    assert_eq!(rt; giop_header(&CANCEL[..15], 4, &mut message, &mut fault), OK);
    let header = Message {
        minor: 0,
        little_endian: 1,
        more: 0,
        kind: 2,
        size: 4,
        id: 0,
        has_id: 0,
    };
    assert_eq!(rt; message, header);
    assert_eq!(rt; giop_header(&CANCEL, 4, &mut message, &mut fault), OK);
    assert_eq!(rt; (message.id, message.has_id), (7, 1));
    assert_eq!(rt; fault, Fault { at: 77, number: 77 });
    assert_eq!(rt; giop_header(&CANCEL, 3, &mut message, &mut fault), FAULT);
    assert_eq!(rt; fault, Fault { at: 8, number: 5 });
}

#[test]
fn a_message_is_taken_and_its_payload_copied(rt: HostRuntime) {
    let alloc = rt.alloc();
    let mut framer = FramerHandle::closed(alloc);
    let (mut message, mut fault) = (UNWRITTEN, Fault { at: 77, number: 77 });
    let (mut buffer, mut size, mut rest) = ([9; 5], 99, 99);
    assert_eq!(rt; giop_framer_new(alloc, &mut framer, 4), OK);
    assert_eq!(rt; giop_framer_feed(alloc, &mut framer, &CANCEL[..15]), OK);
    assert_eq!(rt;
        giop_framer_next(alloc, &mut framer, &mut message, &mut fault),
        WAITS
    );
    assert_eq!(rt;
        giop_framer_payload(alloc, &mut framer, &mut buffer, &mut size),
        WAITS
    );
    assert_eq!(rt; giop_framer_feed(alloc, &mut framer, &CANCEL[15..]), OK);
    assert_eq!(rt; giop_framer_rest(alloc, &mut framer, &mut rest), OK);
    assert_eq!(rt; rest, 16);
    assert_eq!(rt;
        giop_framer_next(alloc, &mut framer, &mut message, &mut fault),
        OK
    );
    let taken = Message {
        minor: 0,
        little_endian: 1,
        more: 0,
        kind: 2,
        size: 4,
        id: 7,
        has_id: 1,
    };
    assert_eq!(rt; message, taken);
    assert_eq!(rt;
        giop_framer_payload(alloc, &mut framer, &mut buffer[..3], &mut size),
        SMALL
    );
    assert_eq!(rt; size, 4);
    assert_eq!(rt;
        giop_framer_payload(alloc, &mut framer, &mut buffer, &mut size),
        OK
    );
    assert_eq!(rt; buffer, [7, 0, 0, 0, 9]);
    giop_framer_free(alloc, &mut framer);
    assert_eq!(rt; giop_framer_rest(alloc, &mut framer, &mut rest), CLOSED);
}

#[test]
fn a_fault_is_written_with_its_place(rt: HostRuntime) {
    let alloc = rt.alloc();
    let mut framer = FramerHandle::closed(alloc);
    let (mut message, mut fault) = (UNWRITTEN, Fault { at: 77, number: 77 });
    assert_eq!(rt; giop_framer_new(alloc, &mut framer, 3), OK);
    assert_eq!(rt; giop_framer_feed(alloc, &mut framer, &CANCEL), OK);
    assert_eq!(rt;
        giop_framer_next(alloc, &mut framer, &mut message, &mut fault),
        FAULT
    );
    // 4 is above the limit of 3, which is TooLarge: 5
    assert_eq!(rt; fault, Fault { at: 8, number: 5 });
    assert_eq!(rt; message, UNWRITTEN);
}

// A Request of 1.2, big endian, id 1, to the key "k", of the operation "ping" (9.4.2): its octets
// after the header. Its fields end at 48, a multiple of 8.
const PING: [u8; 36] = [
    0, 0, 0, 1, 3, 0, 0, 0, 0, 0, 0, 0, 0, 0, 0, 1, b'k', 0, 0, 0, 0, 0, 0, 5, b'p', b'i', b'n',
    b'g', 0, 0, 0, 0, 0, 0, 0, 0,
];

#[test]
fn the_head_of_a_request_is_read_and_copied(rt: HostRuntime) {
    let message = Message {
        minor: 2,
        little_endian: 0,
        more: 0,
        kind: 0,
        size: 36,
        id: 1,
        has_id: 1,
    };
    let mut request = Request {
        body: 0,
        operation: 0,
        key: 0,
        id: 0,
        flags: 0,
        target: 9,
    };
    let mut fault = Fault { at: 77, number: 77 };
    let (mut operation, mut key) = ([9; 5], [9; 2]);
    let status = giop_request_head(
        &message,
        &PING,
        &mut request,
        &mut operation,
        &mut key,
        &mut fault,
    );
    assert_eq!(rt; status, OK);
    let head = Request {
        body: 48,
        operation: 4,
        key: 1,
        id: 1,
        flags: 3,
        target: 0,
    };
    assert_eq!(rt; request, head);
    assert_eq!(rt; operation, [b'p', b'i', b'n', b'g', 9]);
    assert_eq!(rt; key, [b'k', 9]);
}
