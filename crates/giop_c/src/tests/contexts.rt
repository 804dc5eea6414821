//! The service contexts of a Request at a server's end and of a Reply at a client's, through the
//! exported functions.

use crate::client::calls::giop_client_feed;
use crate::client::entry_calls::{giop_client_context, giop_client_entry_of};
use crate::server::calls::giop_server_feed;
use crate::server::entry_calls::{giop_server_context, giop_server_entry_of};
use crate::status::{OK, SMALL, WAITS};
use crate::tests::{client, server};
use crate::{ClientHandle, ServerHandle};
use std::alloc::Global;

// A Request of 1.2, big endian, id 1, to the key "k", of add, with the contexts 1 of three octets and
// 9 of none (9.4.2, 7.7): they stand from 40 on, and the ins 2 and 5 begin at 64.
const ASK: [u8; 72] = [
    b'G', b'I', b'O', b'P', 1, 2, 0, 0, 0, 0, 0, 60, 0, 0, 0, 1, 3, 0, 0, 0, 0, 0, 0, 0, 0, 0, 0,
    1, b'k', 0, 0, 0, 0, 0, 0, 4, b'a', b'd', b'd', 0, 0, 0, 0, 2, 0, 0, 0, 1, 0, 0, 0, 3, 7, 8, 9,
    0, 0, 0, 0, 9, 0, 0, 0, 0, 0, 0, 0, 2, 0, 0, 0, 5,
];

// The Reply to it, with the context 6 of two octets (9.4.3): the out 7 begins at 40.
const SEVEN: [u8; 44] = [
    b'G', b'I', b'O', b'P', 1, 2, 0, 1, 0, 0, 0, 32, 0, 0, 0, 1, 0, 0, 0, 0, 0, 0, 0, 1, 0, 0, 0,
    6, 0, 0, 0, 2, 4, 5, 0, 0, 0, 0, 0, 0, 0, 0, 0, 7,
];

// A context under the id 1 at a server, in a buffer of three octets.
fn asked(alloc: Global, end: &mut ServerHandle, index: usize) -> (u32, u32, [u8; 3], usize) {
    let (mut service, mut buffer, mut size) = (99, [0; 3], 99);
    let status = giop_server_context(alloc, end, 1, index, &mut service, &mut buffer, &mut size);
    (status, service, buffer, size)
}

// The same in a buffer of two.
fn asked_in_two(alloc: Global, end: &mut ServerHandle) -> (u32, u32, usize) {
    let (mut service, mut buffer, mut size) = (99, [0; 2], 99);
    let status = giop_server_context(alloc, end, 1, 0, &mut service, &mut buffer, &mut size);
    (status, service, size)
}

// A context under the id 1 at a client, in a buffer of two octets.
fn replied(alloc: Global, end: &mut ClientHandle, index: usize) -> (u32, u32, [u8; 2], usize) {
    let (mut service, mut buffer, mut size) = (99, [0; 2], 99);
    let status = giop_client_context(alloc, end, 1, index, &mut service, &mut buffer, &mut size);
    (status, service, buffer, size)
}

#[test]
fn the_contexts_of_a_request_are_told(rt: HostRuntime) {
    let alloc = rt.alloc();
    let mut end = server::opened(alloc);
    let (mut row, mut fault) = (server::blank(), server::UNWRITTEN);
    assert_eq!(rt; giop_server_feed(alloc, &mut end, &ASK, &mut fault), OK);
    assert_eq!(rt; giop_server_entry_of(alloc, &mut end, 1, &mut row), OK);
    assert_eq!(rt; (row.kind, row.contexts), (2, 2));
    assert_eq!(rt; asked(alloc, &mut end, 0), (OK, 1, [7, 8, 9], 3));
    assert_eq!(rt; asked(alloc, &mut end, 1), (OK, 9, [0, 0, 0], 0));
    assert_eq!(rt; asked(alloc, &mut end, 2), (WAITS, 99, [0, 0, 0], 99));
    assert_eq!(rt; asked_in_two(alloc, &mut end), (SMALL, 1, 3));
}

#[test]
fn the_contexts_of_a_reply_are_told(rt: HostRuntime) {
    let alloc = rt.alloc();
    let mut end = client::opened(alloc);
    let (mut row, mut fault) = (client::blank(), client::UNWRITTEN);
    assert_eq!(rt; client::add(alloc, &mut end, &mut fault), OK);
    assert_eq!(rt; replied(alloc, &mut end, 0), (WAITS, 99, [0, 0], 99));
    assert_eq!(rt; giop_client_feed(alloc, &mut end, &SEVEN, &mut fault), OK);
    assert_eq!(rt; giop_client_entry_of(alloc, &mut end, 1, &mut row), OK);
    assert_eq!(rt; (row.kind, row.contexts), (11, 1));
    assert_eq!(rt; replied(alloc, &mut end, 0), (OK, 6, [4, 5], 2));
    assert_eq!(rt; replied(alloc, &mut end, 1), (WAITS, 99, [0, 0], 99));
}
