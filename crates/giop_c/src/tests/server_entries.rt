//! What is told of the calls at a server's end that can't be decoded, or that aren't Requests, and an
//! answer by a forward, through the exported functions.

use crate::server::answer_calls::giop_server_answer_forward;
use crate::server::calls::{giop_server_feed, giop_server_outgoing};
use crate::server::entry_calls::{giop_server_entry_of, giop_server_key};
use crate::status::{FAULT, OK, WAITS};
use crate::tests::server::{ASK, FORM, UNWRITTEN, blank, opened};
use crate::{ServerHandle, ServerRow};
use std::alloc::Global;

// The Reply to id 1 in 1.2, big endian, by a forward: status 3, and a reference without a type id and
// profiles (9.4.3.1).
const FORWARD: [u8; 36] = [
    b'G', b'I', b'O', b'P', 1, 2, 0, 1, 0, 0, 0, 24, 0, 0, 0, 1, 0, 0, 0, 3, 0, 0, 0, 0, 0, 0, 0,
    1, 0, 0, 0, 0, 0, 0, 0, 0,
];

// Its text (7.6.9): an encapsulation, big endian, of the id at 4 and of the count of profiles at 12.
const NOWHERE: &[u8] = b"IOR:00000000000000010000000000000000";

// A LocateRequest of 1.2, big endian, id 3, by the key "k" (9.4.5).
const WHERE: [u8; 25] = [
    b'G', b'I', b'O', b'P', 1, 2, 0, 3, 0, 0, 0, 13, 0, 0, 0, 3, 0, 0, 0, 0, 0, 0, 0, 1, b'k',
];

// What is stored under an id.
fn row_of(alloc: Global, server: &mut ServerHandle, id: u32) -> ServerRow {
    let mut row = blank();
    let _told = giop_server_entry_of(alloc, server, id, &mut row);
    row
}

// The end hears these octets.
fn hear(alloc: Global, server: &mut ServerHandle, octets: &[u8]) -> u32 {
    let mut fault = UNWRITTEN;
    giop_server_feed(alloc, server, octets, &mut fault)
}

// The id 1 is answered by a forward, and this is outgoing then.
fn forwarded(alloc: Global, server: &mut ServerHandle) -> (u32, [u8; 36], usize) {
    let (mut buffer, mut size, mut fault) = ([9; 36], 99, UNWRITTEN);
    let status = giop_server_answer_forward(alloc, server, 1, NOWHERE, 0, &FORM, &mut fault);
    let _told = giop_server_outgoing(alloc, server, &mut buffer, &mut size);
    (status, buffer, size)
}

#[test]
fn a_request_is_answered_by_a_forward(rt: HostRuntime) {
    let alloc = rt.alloc();
    let mut server = opened(alloc);
    assert_eq!(rt; hear(alloc, &mut server, &ASK), OK);
    let (status, octets, size) = forwarded(alloc, &mut server);
    assert_eq!(rt; (status, size), (OK, 36));
    assert_eq!(rt; octets, FORWARD);
    let row = row_of(alloc, &mut server, 1);
    assert_eq!(rt; (row.kind, row.status, row.over), (5, 3, 1));
}

#[test]
fn a_text_that_is_no_reference_is_told_why(rt: HostRuntime) {
    let alloc = rt.alloc();
    let mut server = opened(alloc);
    let mut fault = UNWRITTEN;
    assert_eq!(rt; hear(alloc, &mut server, &ASK), OK);
    assert_eq!(rt;
        giop_server_answer_forward(alloc, &mut server, 1, b"IOR:0", 0, &FORM, &mut fault),
        FAULT
    );
    // 2 is BadHex
    assert_eq!(rt; (fault.number, fault.part, fault.at), (13, 2, 0));
    assert_eq!(rt;
        giop_server_answer_forward(alloc, &mut server, 1, b"IOR:02", 0, &FORM, &mut fault),
        FAULT
    );
    // 6 is BadOrder, of the first octet
    assert_eq!(rt; (fault.number, fault.part, fault.at), (14, 6, 0));
    assert_eq!(rt;
        giop_server_answer_forward(alloc, &mut server, 1, NOWHERE, 1, &FORM, &mut fault),
        OK
    );
    let row = row_of(alloc, &mut server, 1);
    assert_eq!(rt; (row.kind, row.status), (5, 4));
}

#[test]
fn a_request_that_is_cut_short_is_told_where(rt: HostRuntime) {
    let alloc = rt.alloc();
    let mut server = opened(alloc);
    let mut octets = ASK;
    // without its second in, which would stand at 52
    octets[11] = 40;
    assert_eq!(rt; hear(alloc, &mut server, &octets[..52]), OK);
    let row = row_of(alloc, &mut server, 1);
    assert_eq!(rt; (row.kind, row.awaits), (3, 1));
    // 3 is the body, 1 is Short
    assert_eq!(rt; (row.part, row.number, row.at), (3, 1, 52));
}

#[test]
fn an_operation_that_there_is_not_is_told(rt: HostRuntime) {
    let alloc = rt.alloc();
    let mut server = opened(alloc);
    let mut octets = ASK;
    octets[36] = b'b';
    assert_eq!(rt; hear(alloc, &mut server, &octets), OK);
    let row = row_of(alloc, &mut server, 1);
    assert_eq!(rt; (row.kind, row.part, row.number, row.at), (3, 2, 0, 0));
}

// The key under an id, in a buffer of two octets.
fn key_in_two(alloc: Global, server: &mut ServerHandle, id: u32) -> (u32, [u8; 2], usize) {
    let (mut buffer, mut size) = ([9; 2], 99);
    let status = giop_server_key(alloc, server, id, &mut buffer, &mut size);
    (status, buffer, size)
}

#[test]
fn the_key_of_a_locate_request_is_told(rt: HostRuntime) {
    let alloc = rt.alloc();
    let mut server = opened(alloc);
    assert_eq!(rt; hear(alloc, &mut server, &WHERE), OK);
    let row = row_of(alloc, &mut server, 3);
    assert_eq!(rt; (row.kind, row.key, row.operation), (4, 1, 0));
    assert_eq!(rt; key_in_two(alloc, &mut server, 3), (OK, [b'k', 9], 1));
    assert_eq!(rt; key_in_two(alloc, &mut server, 1), (WAITS, [9, 9], 99));
}
