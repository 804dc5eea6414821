//! A worked session at a server's end, through the exported functions. tests/clib has more from C.

use crate::interface_calls::giop_interface_new;
use crate::server::answer_calls::{
    giop_server_answer, giop_server_answer_locate, giop_server_answer_system,
    giop_server_answer_user,
};
use crate::server::calls::{
    giop_server_blocks, giop_server_close, giop_server_error_message, giop_server_feed,
    giop_server_free, giop_server_ids, giop_server_new, giop_server_outgoing, giop_server_rest,
    giop_server_send, giop_server_take, giop_server_wrote,
};
use crate::server::entry_calls::{
    giop_server_entry_of, giop_server_ins, giop_server_key, giop_server_operation,
};
use crate::status::{CLOSED, FAULT, OK, SMALL, WAITS};
use crate::{EndFault, EndLimits, InterfaceHandle, SendForm, ServerHandle, ServerRow, TextFault};
use std::alloc::Global;

pub const ADD: &[u8] =
    b"{\"operations\":{\"add\":{\"ins\":[[\"a\",\"long\"],[\"b\",\"long\"]],\"outs\":[[\"sum\",\"long\"]]}},\"exceptions\":{\"IDL:E:1.0\":[[\"why\",\"long\"]]}}";

// A Request of 1.2, big endian, id 1, to the key "k", of add (9.4.2): its head ends at 44, and its
// ins 2 and 5 begin at 48, a multiple of 8.
pub const ASK: [u8; 56] = [
    b'G', b'I', b'O', b'P', 1, 2, 0, 0, 0, 0, 0, 44, 0, 0, 0, 1, 3, 0, 0, 0, 0, 0, 0, 0, 0, 0, 0,
    1, b'k', 0, 0, 0, 0, 0, 0, 4, b'a', b'd', b'd', 0, 0, 0, 0, 0, 0, 0, 0, 0, 0, 0, 0, 2, 0, 0, 0,
    5,
];

// Its ins, little endian.
const TWO_AND_FIVE: &[u8] = &[2, 0, 0, 0, 5, 0, 0, 0];

// The Reply to it in 1.2, big endian: 7, at offset 24 (9.4.3).
pub const SEVEN: [u8; 28] = [
    b'G', b'I', b'O', b'P', 1, 2, 0, 1, 0, 0, 0, 16, 0, 0, 0, 1, 0, 0, 0, 0, 0, 0, 0, 0, 0, 0, 0, 7,
];

pub const UNWRITTEN: EndFault = EndFault {
    at: 77,
    number: 77,
    part: 77,
    id: 77,
};

pub const FORM: SendForm = SendForm {
    piece: 4096,
    little_endian: 0,
};

// A server's end by the interface, of which the handle is freed.
pub fn opened(alloc: Global) -> ServerHandle {
    let mut server = ServerHandle::closed(alloc);
    let mut interface = InterfaceHandle::closed(alloc);
    let mut fault = TextFault {
        number: 0,
        description: 0,
    };
    let limits = EndLimits {
        gathered: 1000,
        calls: 3,
        message: 1000,
    };
    let _told = giop_interface_new(alloc, &mut interface, ADD, &mut fault);
    let _opened = giop_server_new(alloc, &mut server, &mut interface, &limits);
    server
}

pub fn blank() -> ServerRow {
    ServerRow {
        operation: 99,
        key: 99,
        contexts: 99,
        at: 99,
        number: 99,
        left: 99,
        status: 99,
        part: 99,
        kind: 99,
        awaits: 99,
        over: 99,
        outcome: 99,
        flags: 99,
    }
}

#[test]
fn a_request_is_heard_answered_and_taken_out(rt: HostRuntime) {
    let alloc = rt.alloc();
    let mut server = opened(alloc);
    let mut fault = UNWRITTEN;
    let (mut row, mut buffer, mut size, mut ids) = (blank(), [9; 28], 99, [99; 2]);
    assert_eq!(rt;
        giop_server_feed(alloc, &mut server, &ASK[..55], &mut fault),
        OK
    );
    assert_eq!(rt; giop_server_rest(alloc, &mut server, &mut size), OK);
    assert_eq!(rt; size, 55);
    assert_eq!(rt; giop_server_blocks(alloc, &mut server, &mut size), OK);
    assert_eq!(rt; size, 0);
    assert_eq!(rt; giop_server_entry_of(alloc, &mut server, 1, &mut row), OK);
    assert_eq!(rt; row.kind, 0);
    assert_eq!(rt;
        giop_server_feed(alloc, &mut server, &ASK[55..], &mut fault),
        OK
    );
    assert_eq!(rt;
        giop_server_ids(alloc, &mut server, &mut ids, &mut size),
        OK
    );
    assert_eq!(rt; (ids, size), ([1, 99], 1));
    assert_eq!(rt; giop_server_entry_of(alloc, &mut server, 1, &mut row), OK);
    let asked = ServerRow {
        operation: 3,
        key: 1,
        contexts: 0,
        at: 0,
        number: 0,
        left: 0,
        status: 0,
        part: 0,
        kind: 2,
        awaits: 1,
        over: 0,
        outcome: 0,
        flags: 3,
    };
    assert_eq!(rt; row, asked);
    assert_eq!(rt;
        giop_server_operation(alloc, &mut server, 1, &mut buffer[..2], &mut size),
        SMALL
    );
    assert_eq!(rt;
        giop_server_operation(alloc, &mut server, 1, &mut buffer, &mut size),
        OK
    );
    assert_eq!(rt; &buffer[..4], b"add\x09".as_slice());
    assert_eq!(rt; size, 3);
    assert_eq!(rt;
        giop_server_key(alloc, &mut server, 1, &mut buffer, &mut size),
        OK
    );
    assert_eq!(rt; (buffer[0], size), (b'k', 1));
    assert_eq!(rt;
        giop_server_key(alloc, &mut server, 2, &mut buffer, &mut size),
        WAITS
    );
    assert_eq!(rt;
        giop_server_ins(alloc, &mut server, 1, 1, &mut buffer, &mut size),
        OK
    );
    assert_eq!(rt; &buffer[..8], TWO_AND_FIVE);
    assert_eq!(rt; size, 8);
    assert_eq!(rt; giop_server_take(alloc, &mut server, 1, &mut fault), FAULT);
    assert_eq!(rt; fault.number, 9);
    assert_eq!(rt;
        giop_server_answer(alloc, &mut server, 1, 1, &[7, 0, 0, 0], &FORM, &mut fault),
        OK
    );
    assert_eq!(rt;
        giop_server_outgoing(alloc, &mut server, &mut buffer, &mut size),
        OK
    );
    assert_eq!(rt; (buffer, size), (SEVEN, 28));
    assert_eq!(rt; giop_server_wrote(alloc, &mut server, 29), SMALL);
    assert_eq!(rt; giop_server_wrote(alloc, &mut server, 28), OK);
    assert_eq!(rt;
        giop_server_outgoing(alloc, &mut server, &mut buffer, &mut size),
        OK
    );
    assert_eq!(rt; size, 0);
    assert_eq!(rt; giop_server_take(alloc, &mut server, 1, &mut fault), OK);
    giop_server_free(alloc, &mut server);
    assert_eq!(rt; giop_server_wrote(alloc, &mut server, 0), CLOSED);
}

#[test]
fn a_refused_answer_is_told_why(rt: HostRuntime) {
    let alloc = rt.alloc();
    let mut server = opened(alloc);
    let mut fault = UNWRITTEN;
    let bad = SendForm {
        piece: 20,
        little_endian: 0,
    };
    assert_eq!(rt; giop_server_feed(alloc, &mut server, &ASK, &mut fault), OK);
    assert_eq!(rt;
        giop_server_answer(alloc, &mut server, 1, 1, &[7, 0, 0, 0], &bad, &mut fault),
        FAULT
    );
    assert_eq!(rt; fault.number, 12);
    assert_eq!(rt;
        giop_server_answer(
            alloc,
            &mut server,
            1,
            1,
            &[7, 0, 0, 0, 0],
            &FORM,
            &mut fault
        ),
        FAULT
    );
    // 8 is Trailing
    assert_eq!(rt; (fault.number, fault.part, fault.at), (11, 8, 4));
    assert_eq!(rt;
        giop_server_answer_user(
            alloc,
            &mut server,
            1,
            b"IDL:F:1.0",
            0,
            &[],
            &FORM,
            &mut fault
        ),
        FAULT
    );
    // 7 is Unfit
    assert_eq!(rt; (fault.number, fault.part, fault.id), (2, 7, 1));
    assert_eq!(rt;
        giop_server_answer_locate(alloc, &mut server, 1, 1, 0, &mut fault),
        FAULT
    );
    // 5 is WrongKind
    assert_eq!(rt; (fault.number, fault.part, fault.id), (2, 5, 1));
    assert_eq!(rt; giop_server_send(alloc, &mut server, 1, &mut fault), FAULT);
    // 9 is NothingToSend
    assert_eq!(rt; (fault.number, fault.part, fault.id), (2, 9, 1));
    assert_eq!(rt;
        giop_server_answer_system(alloc, &mut server, 1, b"IDL:X:1.0", 3, 1, &FORM, &mut fault),
        OK
    );
}

#[test]
fn a_closed_end_answers_its_fault(rt: HostRuntime) {
    let alloc = rt.alloc();
    let mut server = opened(alloc);
    let mut fault = UNWRITTEN;
    let (mut buffer, mut size) = ([0; 12], 99);
    assert_eq!(rt; giop_server_close(alloc, &mut server, &mut fault), OK);
    assert_eq!(rt;
        giop_server_outgoing(alloc, &mut server, &mut buffer, &mut size),
        OK
    );
    assert_eq!(rt;
        (&buffer, size),
        (b"GIOP\x01\x02\x00\x05\x00\x00\x00\x00", 12)
    );
    assert_eq!(rt;
        giop_server_feed(alloc, &mut server, &ASK, &mut fault),
        FAULT
    );
    assert_eq!(rt; fault.number, 7);
    assert_eq!(rt;
        giop_server_error_message(alloc, &mut server, &mut buffer, &mut size),
        WAITS
    );
}
