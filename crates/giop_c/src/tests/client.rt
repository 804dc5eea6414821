//! A worked session at a client's end, through the exported functions. tests/clib has more from C.

use crate::client::ask_calls::{giop_client_call, giop_client_cancel, giop_client_locate};
use crate::client::calls::{
    giop_client_blocks, giop_client_close, giop_client_error_message, giop_client_feed,
    giop_client_free, giop_client_ids, giop_client_new, giop_client_outgoing, giop_client_rest,
    giop_client_send, giop_client_take, giop_client_wrote,
};
use crate::client::entry_calls::{
    giop_client_entry_of, giop_client_exception, giop_client_forward, giop_client_members,
    giop_client_outs,
};
use crate::interface_calls::giop_interface_new;
use crate::status::{CLOSED, FAULT, OK, SMALL, WAITS};
use crate::{
    CallHead, ClientHandle, ClientRow, EndFault, EndLimits, InterfaceHandle, SendForm, TextFault,
};
use std::alloc::Global;

const ADD: &[u8] =
    b"{\"operations\":{\"add\":{\"ins\":[[\"a\",\"long\"],[\"b\",\"long\"]],\"outs\":[[\"sum\",\"long\"]]}},\"exceptions\":{\"IDL:E:1.0\":[[\"why\",\"long\"]]}}";

// A Request of 1.2, big endian, id 1, to the key "k", of add (9.4.2): its head ends at 44, and its
// ins 2 and 5 begin at 48, a multiple of 8.
const ASK: [u8; 56] = [
    b'G', b'I', b'O', b'P', 1, 2, 0, 0, 0, 0, 0, 44, 0, 0, 0, 1, 3, 0, 0, 0, 0, 0, 0, 0, 0, 0, 0,
    1, b'k', 0, 0, 0, 0, 0, 0, 4, b'a', b'd', b'd', 0, 0, 0, 0, 0, 0, 0, 0, 0, 0, 0, 0, 2, 0, 0, 0,
    5,
];

// Its ins, little endian.
const TWO_AND_FIVE: &[u8] = &[2, 0, 0, 0, 5, 0, 0, 0];

// The Reply to it in 1.2, big endian: 7, at offset 24 (9.4.3).
const SEVEN: [u8; 28] = [
    b'G', b'I', b'O', b'P', 1, 2, 0, 1, 0, 0, 0, 16, 0, 0, 0, 1, 0, 0, 0, 0, 0, 0, 0, 0, 0, 0, 0, 7,
];

// The same in little endian by the exception IDL:E:1.0 with 258: status 1, the id of 10 octets, and
// the member at the next multiple of 4 behind it.
const EXCEPTION: [u8; 44] = [
    b'G', b'I', b'O', b'P', 1, 2, 1, 1, 32, 0, 0, 0, 1, 0, 0, 0, 1, 0, 0, 0, 0, 0, 0, 0, 10, 0, 0,
    0, b'I', b'D', b'L', b':', b'E', b':', b'1', b'.', b'0', 0, 0, 0, 2, 1, 0, 0,
];

// The same in big endian by a forward: status 3, and a reference without a type id and profiles.
const FORWARD: [u8; 36] = [
    b'G', b'I', b'O', b'P', 1, 2, 0, 1, 0, 0, 0, 24, 0, 0, 0, 1, 0, 0, 0, 3, 0, 0, 0, 0, 0, 0, 0,
    1, 0, 0, 0, 0, 0, 0, 0, 0,
];

// Its text (7.6.9): an encapsulation, big endian, of the id at 4 and of the count of profiles at 12.
const NOWHERE: &[u8] = b"IOR:00000000000000010000000000000000";

const CALL: CallHead = CallHead {
    minor: 2,
    flags: 3,
    target: 0,
};

pub const UNWRITTEN: EndFault = EndFault {
    at: 77,
    number: 77,
    part: 77,
    id: 77,
};

const FORM: SendForm = SendForm {
    piece: 4096,
    little_endian: 0,
};

// A client's end by the interface, of which the handle is freed.
pub fn opened(alloc: Global) -> ClientHandle {
    let mut client = ClientHandle::closed(alloc);
    let mut interface = InterfaceHandle::closed(alloc);
    let mut fault = TextFault {
        number: 0,
        description: 0,
    };
    let limits = EndLimits {
        gathered: 1000,
        calls: 3,
        message: 1000,
    };
    let _told = giop_interface_new(alloc, &mut interface, ADD, &mut fault);
    let _opened = giop_client_new(alloc, &mut client, &mut interface, &limits);
    client
}

// It calls add of 2 and 5 under the id 1.
pub fn add(alloc: Global, client: &mut ClientHandle, fault: &mut EndFault) -> u32 {
    giop_client_call(
        alloc,
        client,
        1,
        &CALL,
        b"k",
        b"add",
        1,
        TWO_AND_FIVE,
        &FORM,
        fault,
    )
}

// The outs under the id 1, little endian, in a buffer of three octets.
fn outs_in_three(alloc: Global, client: &mut ClientHandle) -> u32 {
    let (mut buffer, mut size) = ([9; 3], 99);
    giop_client_outs(alloc, client, 1, 1, &mut buffer, &mut size)
}

// The same in a buffer of four.
fn outs_in_four(alloc: Global, client: &mut ClientHandle) -> (u32, [u8; 4], usize) {
    let (mut buffer, mut size) = ([9; 4], 99);
    let status = giop_client_outs(alloc, client, 1, 1, &mut buffer, &mut size);
    (status, buffer, size)
}

// The text of the forward under the id 1, in a buffer as long as that.
fn forward_in_36(alloc: Global, client: &mut ClientHandle) -> (u32, [u8; 36], usize) {
    let (mut buffer, mut size) = ([9; 36], 99);
    let status = giop_client_forward(alloc, client, 1, &mut buffer, &mut size);
    (status, buffer, size)
}

pub fn blank() -> ClientRow {
    ClientRow {
        exception: 99,
        contexts: 99,
        at: 99,
        number: 99,
        left: 99,
        status: 99,
        minor: 99,
        completion: 99,
        addressing: 99,
        kind: 99,
        over: 99,
        outcome: 99,
    }
}

#[test]
fn a_call_is_made_answered_and_taken_out(rt: HostRuntime) {
    let alloc = rt.alloc();
    let mut client = opened(alloc);
    let mut fault = UNWRITTEN;
    let (mut row, mut buffer, mut size, mut ids) = (blank(), [9; 56], 99, [99; 2]);
    assert_eq!(rt; add(alloc, &mut client, &mut fault), OK);
    assert_eq!(rt;
        giop_client_outgoing(alloc, &mut client, &mut buffer, &mut size),
        OK
    );
    assert_eq!(rt; (buffer, size), (ASK, 56));
    assert_eq!(rt; giop_client_wrote(alloc, &mut client, 57), SMALL);
    assert_eq!(rt; giop_client_wrote(alloc, &mut client, 56), OK);
    assert_eq!(rt; giop_client_entry_of(alloc, &mut client, 1, &mut row), OK);
    assert_eq!(rt; (row.kind, row.over, row.outcome), (10, 0, 0));
    assert_eq!(rt; giop_client_take(alloc, &mut client, 1, &mut fault), FAULT);
    // 9 is StillOpen
    assert_eq!(rt; fault.number, 9);
    assert_eq!(rt;
        giop_client_feed(alloc, &mut client, &SEVEN[..27], &mut fault),
        OK
    );
    assert_eq!(rt; giop_client_rest(alloc, &mut client, &mut size), OK);
    assert_eq!(rt; size, 27);
    assert_eq!(rt;
        giop_client_outs(alloc, &mut client, 1, 1, &mut buffer, &mut size),
        WAITS
    );
    assert_eq!(rt;
        giop_client_feed(alloc, &mut client, &SEVEN[27..], &mut fault),
        OK
    );
    assert_eq!(rt;
        giop_client_ids(alloc, &mut client, &mut ids, &mut size),
        OK
    );
    assert_eq!(rt; (ids, size), ([1, 99], 1));
    assert_eq!(rt; giop_client_entry_of(alloc, &mut client, 1, &mut row), OK);
    let done = ClientRow {
        exception: 0,
        contexts: 0,
        at: 0,
        number: 0,
        left: 0,
        status: 0,
        minor: 0,
        completion: 0,
        addressing: 0,
        kind: 11,
        over: 1,
        outcome: 3,
    };
    assert_eq!(rt; row, done);
    assert_eq!(rt; outs_in_three(alloc, &mut client), SMALL);
    assert_eq!(rt; outs_in_four(alloc, &mut client), (OK, [7, 0, 0, 0], 4));
    assert_eq!(rt; giop_client_blocks(alloc, &mut client, &mut size), OK);
    assert_eq!(rt; size, 0);
    assert_eq!(rt; giop_client_take(alloc, &mut client, 1, &mut fault), OK);
    giop_client_free(alloc, &mut client);
    assert_eq!(rt; giop_client_wrote(alloc, &mut client, 0), CLOSED);
}

#[test]
fn an_exception_and_a_forward_are_told(rt: HostRuntime) {
    let alloc = rt.alloc();
    let mut client = opened(alloc);
    let mut fault = UNWRITTEN;
    let (mut row, mut buffer, mut size) = (blank(), [9; 40], 99);
    assert_eq!(rt; add(alloc, &mut client, &mut fault), OK);
    assert_eq!(rt;
        giop_client_feed(alloc, &mut client, &EXCEPTION, &mut fault),
        OK
    );
    assert_eq!(rt; giop_client_entry_of(alloc, &mut client, 1, &mut row), OK);
    assert_eq!(rt; (row.kind, row.status, row.exception), (11, 1, 9));
    assert_eq!(rt;
        giop_client_exception(alloc, &mut client, 1, &mut buffer, &mut size),
        OK
    );
    assert_eq!(rt; &buffer[..10], b"IDL:E:1.0\x09".as_slice());
    assert_eq!(rt; size, 9);
    assert_eq!(rt;
        giop_client_members(alloc, &mut client, 1, 0, &mut buffer, &mut size),
        OK
    );
    assert_eq!(rt; &buffer[..4], [0, 0, 1, 2].as_slice());
    assert_eq!(rt;
        giop_client_outs(alloc, &mut client, 1, 0, &mut buffer, &mut size),
        WAITS
    );
    // its call is over, so the id may be used again
    assert_eq!(rt; add(alloc, &mut client, &mut fault), OK);
    assert_eq!(rt;
        giop_client_feed(alloc, &mut client, &FORWARD, &mut fault),
        OK
    );
    assert_eq!(rt; giop_client_entry_of(alloc, &mut client, 1, &mut row), OK);
    assert_eq!(rt; (row.kind, row.status, row.exception), (11, 3, 0));
    let (status, text, size_of_text) = forward_in_36(alloc, &mut client);
    assert_eq!(rt; (status, size_of_text), (OK, 36));
    assert_eq!(rt; text.as_slice(), NOWHERE);
    assert_eq!(rt;
        giop_client_members(alloc, &mut client, 1, 0, &mut buffer, &mut size),
        WAITS
    );
}

#[test]
fn a_refused_call_is_told_why(rt: HostRuntime) {
    let alloc = rt.alloc();
    let mut client = opened(alloc);
    let mut fault = UNWRITTEN;
    let bad = SendForm {
        piece: 20,
        little_endian: 0,
    };
    assert_eq!(rt;
        giop_client_call(
            alloc,
            &mut client,
            1,
            &CALL,
            b"k",
            b"add",
            1,
            TWO_AND_FIVE,
            &bad,
            &mut fault
        ),
        FAULT
    );
    assert_eq!(rt; fault.number, 12);
    assert_eq!(rt;
        giop_client_call(
            alloc,
            &mut client,
            1,
            &CALL,
            b"k",
            b"add",
            1,
            &[1, 2, 3],
            &FORM,
            &mut fault
        ),
        FAULT
    );
    // 1 is Short
    assert_eq!(rt; (fault.number, fault.part, fault.at), (11, 1, 0));
    assert_eq!(rt;
        giop_client_call(
            alloc,
            &mut client,
            1,
            &CALL,
            b"k",
            b"mul",
            1,
            &[1, 2, 3],
            &FORM,
            &mut fault
        ),
        FAULT
    );
    // 8 is UnknownOperation
    assert_eq!(rt; (fault.number, fault.part, fault.id), (2, 8, 1));
    assert_eq!(rt;
        giop_client_cancel(alloc, &mut client, 1, 0, &mut fault),
        FAULT
    );
    // 6 is NotOpen
    assert_eq!(rt; (fault.number, fault.part, fault.id), (2, 6, 1));
    assert_eq!(rt; giop_client_send(alloc, &mut client, 1, &mut fault), FAULT);
    // 9 is NothingToSend
    assert_eq!(rt; (fault.number, fault.part, fault.id), (2, 9, 1));
    assert_eq!(rt;
        giop_client_locate(alloc, &mut client, 2, &CALL, b"k", &FORM, &mut fault),
        OK
    );
    assert_eq!(rt;
        giop_client_locate(alloc, &mut client, 2, &CALL, b"k", &FORM, &mut fault),
        FAULT
    );
    // 1 is IdInUse
    assert_eq!(rt; (fault.number, fault.part, fault.id), (2, 1, 2));
    assert_eq!(rt;
        giop_client_cancel(alloc, &mut client, 2, 0, &mut fault),
        OK
    );
}

#[test]
fn a_closed_end_answers_its_fault(rt: HostRuntime) {
    let alloc = rt.alloc();
    let mut client = opened(alloc);
    let mut fault = UNWRITTEN;
    let (mut buffer, mut size) = ([0; 12], 99);
    assert_eq!(rt; giop_client_close(alloc, &mut client, &mut fault), OK);
    assert_eq!(rt;
        giop_client_outgoing(alloc, &mut client, &mut buffer, &mut size),
        OK
    );
    assert_eq!(rt;
        (&buffer, size),
        (b"GIOP\x01\x02\x00\x05\x00\x00\x00\x00", 12)
    );
    assert_eq!(rt; add(alloc, &mut client, &mut fault), FAULT);
    // 7 is Closed
    assert_eq!(rt; fault.number, 7);
    assert_eq!(rt;
        giop_client_error_message(alloc, &mut client, &mut buffer, &mut size),
        WAITS
    );
}
