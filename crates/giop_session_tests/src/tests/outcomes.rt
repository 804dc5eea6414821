//! What a call came to, at either end.
use super::clients::{Client, at_client, client_end};
use super::interfaces::interface;
use super::messages::{ADD as ASKS_ADD, NOTHING, SEVEN, TELL as ASKS_TELL};
use super::octets::{
    ADD, ADD_1, BARE_4, CANCEL_4, HERE_6, LOCATE, LONG_LOCATE, LONG_TELL, PING, PONG_7, SEVEN_4,
    SEVEN_4_1, SYSTEM_4_1, SYSTEM_4_2, TELL,
};
use super::servers::{Server, at_server, server_end};
use super::shown::shown_outcome;
use giop_cdr::Order::Big;
use giop_msg::Version;
use giop_session::{ClientEnd, Limits, ServerEnd};
use std::alloc::Global;
use std::test::Fail;

fn client_does(alloc: Global, end: &mut ClientEnd<'_>, all: &[Client]) -> Option<()> {
    for what in all {
        at_client(alloc, end, *what)?.ok()?;
    }
    Some(())
}

fn server_does(alloc: Global, end: &mut ServerEnd<'_>, all: &[Server]) -> Option<()> {
    for what in all {
        at_server(alloc, end, *what)?.ok()?;
    }
    Some(())
}

// What the call of an id came to at a client where all this was done; none where something was
// refused.
fn client_came_to(alloc: Global, all: &[Client], id: u32) -> Option<String> {
    let interface = interface(alloc).ok()?;
    let mut end = client_end(alloc, &interface, Limits::default());
    client_does(alloc, &mut end, all)?;
    shown_outcome(alloc, end.outcome(id))
}

// The same at a server.
fn server_came_to(alloc: Global, all: &[Server], id: u32) -> Option<String> {
    let interface = interface(alloc).ok()?;
    let mut end = server_end(alloc, &interface, Limits::default());
    server_does(alloc, &mut end, all)?;
    shown_outcome(alloc, end.outcome(id))
}

#[test]
fn a_client_tells_what_its_call_came_to(rt: HostRuntime) -> Result<(), Fail> {
    let alloc = rt.alloc();
    let add = Client::Call(ASKS_ADD, Big, 4096);
    let rows: [(&[Client], u32, &str); 12] = [
        (&[], 4, "absent"),
        (&[add], 5, "absent"),
        (&[add], 4, "Pending"),
        (&[Client::Call(ASKS_ADD, Big, 24)], 4, "Pending"),
        (&[add, Client::Hear(SEVEN_4_1)], 4, "Pending"),
        (&[add, Client::Hear(SEVEN_4)], 4, "Replied 0 7"),
        (
            &[add, Client::Hear(SYSTEM_4_1), Client::Hear(SYSTEM_4_2)],
            4,
            "Replied 2",
        ),
        (&[add, Client::Hear(BARE_4)], 4, "Undecoded"),
        (&[add, Client::Cancel(4, Big)], 4, "Cancelled"),
        (
            &[add, Client::Cancel(4, Big), Client::Hear(SEVEN_4)],
            4,
            "Cancelled",
        ),
        (&[Client::Call(ASKS_TELL, Big, 4096)], 8, "OneWay"),
        (
            &[
                Client::Locate(Version::V12, 6, Big, 32),
                Client::Hear(HERE_6),
            ],
            6,
            "Located 1",
        ),
    ];
    for (all, id, expected) in &rows {
        let text = client_came_to(alloc, all, *id).ok_or("refused")?;
        assert_eq!(rt; text.as_str(), *expected);
    }
    Ok(())
}

#[test]
fn a_server_tells_what_its_call_came_to(rt: HostRuntime) -> Result<(), Fail> {
    let alloc = rt.alloc();
    let seven = Server::Answer(4, SEVEN, Big, 4096);
    let rows: [(&[Server], u32, &str); 14] = [
        (&[], 4, "absent"),
        (&[Server::Hear(ADD)], 1, "absent"),
        (&[Server::Hear(ADD_1)], 4, "Pending"),
        (&[Server::Hear(ADD)], 4, "Pending"),
        (&[Server::Hear(PONG_7)], 7, "Pending"),
        (&[Server::Hear(ADD), seven], 4, "Replied 0 7"),
        (
            &[Server::Hear(PING), Server::Answer(1, NOTHING, Big, 24)],
            1,
            "Replied 0",
        ),
        (
            &[Server::Hear(ADD), Server::Answer(4, SEVEN, Big, 24)],
            4,
            "Pending",
        ),
        (
            &[
                Server::Hear(ADD),
                Server::Answer(4, SEVEN, Big, 24),
                Server::Send(4),
            ],
            4,
            "Replied 0 7",
        ),
        (
            &[Server::Hear(ADD), seven, Server::Hear(CANCEL_4)],
            4,
            "Cancelled",
        ),
        (&[Server::Hear(TELL)], 8, "OneWay"),
        (&[Server::Hear(LONG_TELL)], 8, "Undecoded"),
        (
            &[Server::Hear(LOCATE), Server::AnswerLocate(6, true, Big)],
            6,
            "Located 1",
        ),
        (
            &[
                Server::Hear(LONG_LOCATE),
                Server::AnswerLocate(6, false, Big),
            ],
            6,
            "Located 0",
        ),
    ];
    for (all, id, expected) in &rows {
        let text = server_came_to(alloc, all, *id).ok_or("refused")?;
        assert_eq!(rt; text.as_str(), *expected);
    }
    Ok(())
}
