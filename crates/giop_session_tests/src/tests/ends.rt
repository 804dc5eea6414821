//! What becomes of outgoing octets, and of an end that its program closes.
use super::clients::{Client, all_go as all_go_at_client, client_end};
use super::interfaces::interface;
use super::messages::{PING as ASKS_PING, SEVEN};
use super::octets::{ADD, CANCEL_4, CLOSE, DONE_1, ONE_1, SEVEN_4_1};
use super::servers::{Server, all_go as all_go_at_server, server_end};
use super::shown::written;
use giop_cdr::Order::Big;
use giop_msg::Version;
use giop_session::{ClientEnd, End, Hearing, Limits};
use std::alloc::Global;
use std::process::Abort;
use std::test::Fail;

const CLOSED: &str = "the connection is closed";

#[test]
fn a_client_that_is_closed_goes_no_further(rt: HostRuntime) -> Result<(), Fail> {
    let left = "1 Sending 3, the connection is closed";
    all_go_at_client(
        &rt,
        rt.alloc(),
        Limits::default(),
        &[
            (
                Client::Call(ASKS_PING, Big, 24),
                "",
                ONE_1,
                "1 Sending 3, open",
            ),
            (Client::Close, "", CLOSE, left),
            (Client::Close, CLOSED, "", left),
            (Client::Send(1), CLOSED, "", left),
            (Client::Cancel(1, Big), CLOSED, "", left),
            (Client::Call(ASKS_PING, Big, 24), CLOSED, "", left),
            (Client::Locate(Version::V12, 6, Big, 24), CLOSED, "", left),
            (Client::Take(1), CLOSED, "", left),
            (Client::Hear(DONE_1), CLOSED, "", left),
        ],
    )
}

#[test]
fn a_server_that_is_closed_goes_no_further(rt: HostRuntime) -> Result<(), Fail> {
    let left = "4 Answered 0 7 left 1, the connection is closed";
    all_go_at_server(
        &rt,
        rt.alloc(),
        Limits::default(),
        &[
            (Server::Hear(ADD), "", "", "4 Asked add 2 5, open"),
            (
                Server::Answer(4, SEVEN, Big, 24),
                "",
                SEVEN_4_1,
                "4 Answered 0 7 left 1, open",
            ),
            (Server::Close, "", CLOSE, left),
            (Server::Close, CLOSED, "", left),
            (Server::Send(4), CLOSED, "", left),
            (Server::Answer(4, SEVEN, Big, 24), CLOSED, "", left),
            (Server::AnswerLocate(4, true, Big), CLOSED, "", left),
            (Server::Take(4), CLOSED, "", left),
            (Server::Hear(CANCEL_4), CLOSED, "", left),
        ],
    )
}

// The first octets of what is outgoing are written.
fn wrote<R: Hearing>(end: &mut End<'_, R>, n: usize) {
    let n = n.min(end.outgoing().len());
    end.wrote(n);
}

fn close_twice(rt: &impl Abort, end: &mut ClientEnd<'_>) {
    assert!(rt; end.outgoing().is_empty());
    assert!(rt; end.close().is_ok());
    assert!(rt; end.close().is_err());
}

// What is outgoing once all but so many of its octets are written.
fn behind<R: Hearing>(alloc: Global, end: &mut End<'_, R>, parts: &[usize]) -> Option<String> {
    for n in parts {
        wrote(end, *n);
    }
    written(alloc, end)
}

#[test]
fn what_is_written_goes_in_any_parts(rt: HostRuntime) -> Result<(), Fail> {
    let alloc = rt.alloc();
    let interface = interface(alloc)?;
    let mut end = client_end(alloc, &interface, Limits::default());
    close_twice(&rt, &mut end);
    let text = behind(alloc, &mut end, &[0, 1, 3, 0]).ok_or("no memory")?;
    assert_eq!(rt; text.as_str(), "0102000500000000");
    let text = behind(alloc, &mut end, &[0]).ok_or("no memory")?;
    assert_eq!(rt; text.as_str(), "");
    let mut end = server_end(alloc, &interface, Limits::default());
    assert!(rt; end.close().is_ok());
    let text = behind(alloc, &mut end, &[11]).ok_or("no memory")?;
    assert_eq!(rt; text.as_str(), "00");
    Ok(())
}
