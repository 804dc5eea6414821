//! A client and a server that hear what each other puts out.
use super::clients::Client::{Call, Cancel, Locate, Send as SendMore};
use super::joined::Step::{AtClient, AtServer, ToClient, ToServer};
use super::joined::ends_as;
use super::messages::Answer::System;
use super::messages::{ADD, Asks, NOTHING, PING, SEVEN, TELL};
use super::servers::Server::{Answer, AnswerLocate, Close, Hear, Send as SendOn};
use giop_cdr::Order::{Big, Little};
use giop_msg::Version;
use giop_session::Limits;
use std::test::Fail;

const ADD_1: Asks = Asks { id: 1, ..ADD };

const PING_2: Asks = Asks { id: 2, ..PING };

// The third piece of `add` as id 1.
const LATE: &str = "47494f50010202070000000c000000010000000461646400";

#[test]
fn an_exchange_in_pieces_comes_to_the_reply(rt: HostRuntime) -> Result<(), Fail> {
    for (order, back) in [(Big, Big), (Big, Little), (Little, Big), (Little, Little)] {
        ends_as(
            &rt,
            rt.alloc(),
            Limits::default(),
            &[
                (AtClient(Call(ADD, order, 24)), ""),
                (AtClient(SendMore(4)), ""),
                (AtClient(SendMore(4)), ""),
                (AtServer(Answer(4, SEVEN, back, 24)), "call 4: NotOpen"),
                (ToServer(70), ""),
                (AtClient(SendMore(4)), ""),
                (AtClient(SendMore(4)), ""),
                (ToServer(50), ""),
                (AtServer(Answer(4, SEVEN, back, 24)), ""),
                (ToClient(23), ""),
                (AtServer(SendOn(4)), ""),
                (ToClient(1), ""),
                (ToClient(20), ""),
            ],
            (
                "4 Done 0 7, open",
                "4 Answered 0 7 left 0, open",
                4,
                "Replied 0 7",
                "Replied 0 7",
            ),
        )?;
    }
    Ok(())
}

#[test]
fn several_exchanges_go_on_at_once(rt: HostRuntime) -> Result<(), Fail> {
    let broken = System(b"IDL:omg.org/CORBA/NO_IMPLEMENT:1.0");
    ends_as(
        &rt,
        rt.alloc(),
        Limits::default(),
        &[
            (AtClient(Call(ADD, Big, 24)), ""),
            (AtClient(Call(PING_2, Little, 64)), ""),
            (AtClient(Call(TELL, Little, 24)), ""),
            (AtClient(Locate(Version::V12, 6, Big, 24)), ""),
            (AtClient(SendMore(6)), ""),
            (AtClient(SendMore(8)), ""),
            (AtClient(SendMore(8)), ""),
            (AtClient(SendMore(4)), ""),
            (ToServer(1000), ""),
            (AtServer(Answer(2, broken, Big, 24)), ""),
            (AtServer(AnswerLocate(6, true, Little)), ""),
            (AtClient(SendMore(8)), ""),
            (AtClient(SendMore(8)), ""),
            (AtClient(SendMore(4)), ""),
            (AtClient(SendMore(4)), ""),
            (AtClient(SendMore(4)), ""),
            (AtClient(SendMore(4)), "call 4: NothingToSend"),
            (ToServer(1000), ""),
            (AtServer(SendOn(2)), ""),
            (AtServer(Answer(4, SEVEN, Little, 64)), ""),
            (ToClient(1000), ""),
        ],
        (
            "2 Gathering, 4 Done 0 7, 6 LocateDone 1, 8 OnewaySent, open",
            "2 Answered 2 left 5, 4 Answered 0 7 left 0, 6 Here, 8 Delivered tell text, open",
            2,
            "Pending",
            "Pending",
        ),
    )
}

#[test]
fn a_reply_and_a_cancel_that_meet_cancel_the_call_at_both(rt: HostRuntime) -> Result<(), Fail> {
    ends_as(
        &rt,
        rt.alloc(),
        Limits::default(),
        &[
            (AtClient(Call(PING_2, Big, 48)), ""),
            (ToServer(48), ""),
            (AtServer(Answer(2, NOTHING, Big, 48)), ""),
            (AtClient(Cancel(2, Big)), ""),
            (ToClient(24), ""),
            (ToServer(16), ""),
        ],
        (
            "2 Cancelled Seen, open",
            "2 Cancelled true 0, open",
            2,
            "Cancelled",
            "Cancelled",
        ),
    )
}

#[test]
fn a_call_that_is_cancelled_as_it_goes_out_is_cancelled_at_both(
    rt: HostRuntime,
) -> Result<(), Fail> {
    ends_as(
        &rt,
        rt.alloc(),
        Limits::default(),
        &[
            (AtClient(Call(ADD_1, Big, 24)), ""),
            (AtClient(SendMore(1)), ""),
            (ToServer(48), ""),
            (AtClient(Cancel(1, Big)), ""),
            (ToServer(16), ""),
            // The third piece comes all the same.
            (AtServer(Hear(LATE)), ""),
        ],
        (
            "1 Cancelled None, open",
            "1 Cancelled false 0, open",
            1,
            "Cancelled",
            "Cancelled",
        ),
    )
}

#[test]
fn a_server_of_one_call_fails_by_the_second(rt: HostRuntime) -> Result<(), Fail> {
    let one = Limits {
        calls: 1,
        ..Limits::default()
    };
    ends_as(
        &rt,
        rt.alloc(),
        one,
        &[
            (AtClient(Call(ADD_1, Big, 4096)), ""),
            (AtClient(Call(PING_2, Big, 4096)), ""),
            (ToServer(1000), "too many calls"),
            (AtServer(Answer(1, SEVEN, Big, 64)), "too many calls"),
            (ToClient(1000), ""),
            (AtClient(Cancel(2, Little)), ""),
            (ToServer(1000), "too many calls"),
        ],
        (
            "1 Waiting, 2 Cancelled None, open",
            "1 Asked add 2 5, too many calls",
            1,
            "Pending",
            "Pending",
        ),
    )
}

#[test]
fn a_connection_that_the_server_closes_is_closed_at_both(rt: HostRuntime) -> Result<(), Fail> {
    ends_as(
        &rt,
        rt.alloc(),
        Limits::default(),
        &[
            (AtClient(Call(PING_2, Big, 48)), ""),
            (AtClient(Call(ADD_1, Big, 24)), ""),
            (ToServer(48), ""),
            (AtServer(Answer(2, NOTHING, Big, 48)), ""),
            (AtServer(Close), ""),
            (ToServer(24), "the connection is closed"),
            (ToClient(36), "the connection is closed"),
            (AtClient(SendMore(1)), "the connection is closed"),
        ],
        (
            "1 Sending 4, 2 Done 0, the connection is closed",
            "2 Answered 0 left 0, the connection is closed",
            2,
            "Replied 0",
            "Replied 0",
        ),
    )
}
