//! Values as JSON, through the exported functions: docs/FORMATS.md, and octets worked by hand from
//! CORBA 3.3 Part 2, 9.3 and 9.4. tests/clib has more from C.

use crate::client::ask_calls::giop_client_call;
use crate::client::calls::{giop_client_feed, giop_client_outgoing};
use crate::client::entry_calls::giop_client_outs;
use crate::interface_calls::{giop_interface_convert, giop_interface_free, giop_interface_new};
use crate::server::answer_calls::{giop_server_answer, giop_server_answer_user};
use crate::server::calls::{giop_server_feed, giop_server_outgoing};
use crate::server::entry_calls::giop_server_ins;
use crate::status::{CLOSED, FAULT, OK, SMALL, WAITS};
use crate::tests::{client as clients, server as servers};
use crate::{CallHead, ClientHandle, EndFault, InterfaceHandle, ServerHandle, TextFault};
use std::alloc::Global;

const CALL: CallHead = CallHead {
    minor: 2,
    flags: 3,
    target: 0,
};

// More octets than any test here gives at a time.
const LONGEST: usize = 4096;

// Calls add by a JSON text under the id 1. No text of these tests is longer than the exports ask.
fn called(alloc: Global, client: &mut ClientHandle, ins: &[u8], fault: &mut EndFault) -> u32 {
    if ins.len() > LONGEST {
        return CLOSED;
    }
    giop_client_call(
        alloc,
        client,
        1,
        &CALL,
        b"k",
        b"add",
        2,
        ins,
        &servers::FORM,
        fault,
    )
}

// What is outgoing of a client.
fn sent(alloc: Global, client: &mut ClientHandle) -> (u32, [u8; 56], usize) {
    let (mut buffer, mut size) = ([9; 56], 99);
    let status = giop_client_outgoing(alloc, client, &mut buffer, &mut size);
    (status, buffer, size)
}

// The outs under the id 1 as JSON, in a buffer of four octets.
fn outs_as_json(alloc: Global, client: &mut ClientHandle) -> (u32, [u8; 4], usize) {
    let (mut buffer, mut size) = ([9; 4], 99);
    let status = giop_client_outs(alloc, client, 1, 2, &mut buffer, &mut size);
    (status, buffer, size)
}

#[test]
fn a_call_and_its_outs_cross_as_json(rt: HostRuntime) {
    let alloc = rt.alloc();
    let mut client = clients::opened(alloc);
    let mut fault = servers::UNWRITTEN;
    assert_eq!(rt; called(alloc, &mut client, b" [2, 5]", &mut fault), OK);
    assert_eq!(rt; fault, servers::UNWRITTEN);
    assert_eq!(rt; sent(alloc, &mut client), (OK, servers::ASK, 56));
    assert_eq!(rt;
        giop_client_feed(alloc, &mut client, &servers::SEVEN, &mut fault),
        OK
    );
    assert_eq!(rt;
        outs_as_json(alloc, &mut client),
        (OK, [b'[', b'7', b']', 9], 3)
    );
}

#[test]
fn a_text_that_is_no_values_is_told_why(rt: HostRuntime) {
    // 1 is BadJson, 2 BadShape, 4 Unfit
    let texts: [(&[u8], u32); 7] = [
        (b"", 1),
        (b"[2,5", 1),
        (b"{\"a\":2,\"b\":5}", 2),
        (b"[2,\"a\"]", 2),
        (b"[2147483648,\"a\"]", 2),
        (b"[2147483648,5]", 4),
        (b"[2]", 4),
    ];
    let alloc = rt.alloc();
    let mut client = clients::opened(alloc);
    for (text, part) in texts {
        let mut fault = servers::UNWRITTEN;
        let told = EndFault {
            at: 0,
            number: 15,
            part,
            id: 0,
        };
        assert_eq!(rt; called(alloc, &mut client, text, &mut fault), FAULT);
        assert_eq!(rt; fault, told);
    }
}

// The ins under the id 1 as JSON, in a buffer of six octets.
fn ins_as_json(alloc: Global, server: &mut ServerHandle) -> (u32, [u8; 6], usize) {
    let (mut buffer, mut size) = ([9; 6], 99);
    let status = giop_server_ins(alloc, server, 1, 2, &mut buffer, &mut size);
    (status, buffer, size)
}

// What is outgoing of a server.
fn replied(alloc: Global, server: &mut ServerHandle) -> (u32, [u8; 28], usize) {
    let (mut buffer, mut size) = ([9; 28], 99);
    let status = giop_server_outgoing(alloc, server, &mut buffer, &mut size);
    (status, buffer, size)
}

#[test]
fn a_request_and_its_answer_cross_as_json(rt: HostRuntime) {
    let alloc = rt.alloc();
    let mut server = servers::opened(alloc);
    let (mut fault, form) = (servers::UNWRITTEN, servers::FORM);
    assert_eq!(rt;
        giop_server_feed(alloc, &mut server, &servers::ASK, &mut fault),
        OK
    );
    assert_eq!(rt;
        ins_as_json(alloc, &mut server),
        (OK, [b'[', b'2', b',', b'5', b']', 9], 5)
    );
    assert_eq!(rt;
        giop_server_answer_user(
            alloc,
            &mut server,
            1,
            b"IDL:E:1.0",
            2,
            b"[true]",
            &form,
            &mut fault
        ),
        FAULT
    );
    // 2 is BadShape
    assert_eq!(rt; (fault.number, fault.part), (15, 2));
    assert_eq!(rt;
        giop_server_answer(alloc, &mut server, 1, 2, b"[7]", &form, &mut fault),
        OK
    );
    assert_eq!(rt; replied(alloc, &mut server), (OK, servers::SEVEN, 28));
}

// Values of add from one form to another, in a buffer of eight octets.
fn converted(
    alloc: Global,
    interface: &mut InterfaceHandle,
    which: u32,
    given: (u32, &[u8]),
    wanted: u32,
    fault: &mut EndFault,
) -> (u32, [u8; 8], usize) {
    let (mut buffer, mut size) = ([9; 8], 99);
    if given.1.len() > LONGEST {
        return (CLOSED, buffer, size);
    }
    let status = giop_interface_convert(
        alloc,
        interface,
        which,
        b"add",
        given.0,
        given.1,
        wanted,
        &mut buffer,
        &mut size,
        fault,
    );
    (status, buffer, size)
}

#[test]
fn values_cross_to_another_form(rt: HostRuntime) {
    let alloc = rt.alloc();
    let mut interface = InterfaceHandle::closed(alloc);
    let (mut told, mut fault) = (
        TextFault {
            number: 0,
            description: 0,
        },
        servers::UNWRITTEN,
    );
    let little = (1, [2, 0, 0, 0, 5, 0, 0, 0].as_slice());
    let closed = converted(alloc, &mut interface, 0, little, 2, &mut fault);
    assert_eq!(rt; closed, (CLOSED, [9; 8], 99));
    assert_eq!(rt;
        giop_interface_new(alloc, &mut interface, servers::ADD, &mut told),
        OK
    );
    let ins = converted(alloc, &mut interface, 0, (2, b"[2,5]"), 0, &mut fault);
    assert_eq!(rt; ins, (OK, [0, 0, 0, 2, 0, 0, 0, 5], 8));
    let text = converted(alloc, &mut interface, 0, little, 2, &mut fault);
    assert_eq!(rt; text, (OK, [b'[', b'2', b',', b'5', b']', 9, 9, 9], 5));
    let outs = converted(alloc, &mut interface, 1, (0, &[0, 0, 0, 7]), 2, &mut fault);
    assert_eq!(rt; outs, (OK, [b'[', b'7', b']', 9, 9, 9, 9, 9], 3));
    assert_eq!(rt; fault, servers::UNWRITTEN);
    let long = converted(alloc, &mut interface, 0, (2, b"[-222,-555]"), 2, &mut fault);
    assert_eq!(rt; long, (SMALL, [9; 8], 11));
    let none = converted(alloc, &mut interface, 2, (2, b"[2,5]"), 0, &mut fault);
    assert_eq!(rt; none, (WAITS, [9; 8], 99));
    let cut = converted(
        alloc,
        &mut interface,
        0,
        (0, &[0, 0, 0, 2, 0]),
        2,
        &mut fault,
    );
    assert_eq!(rt; cut, (FAULT, [9; 8], 99));
    // 1 is Short: the second long is at 4
    assert_eq!(rt; (fault.number, fault.part, fault.at), (11, 1, 4));
    giop_interface_free(alloc, &mut interface);
}
