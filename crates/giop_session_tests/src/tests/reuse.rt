//! An id that is used again, while messages of its former call may still be on their way.
use super::clients::Client::{Call, Cancel, Take as TakeOut};
use super::joined::Step::{AtClient, AtServer, ToClient, ToServer};
use super::joined::{JoinedRow, ends_as};
use super::messages::{Asks, NOTHING, PING};
use super::servers::Server::{Answer, Take};
use giop_cdr::Order::Big;
use giop_session::Limits;
use std::test::Fail;

const PING_2: Asks = Asks { id: 2, ..PING };

const CALL: JoinedRow = (AtClient(Call(PING_2, Big, 48)), "");

const CANCEL: JoinedRow = (AtClient(Cancel(2, Big)), "");

const ANSWER: JoinedRow = (AtServer(Answer(2, NOTHING, Big, 48)), "");

#[test]
fn an_id_whose_late_reply_came_is_used_again(rt: HostRuntime) -> Result<(), Fail> {
    let replied = (
        "2 Done 0, open",
        "2 Answered 0 left 0, open",
        2,
        "Replied 0",
        "Replied 0",
    );
    let rows = [
        CALL,
        (ToServer(48), ""),
        ANSWER,
        CANCEL,
        (ToClient(24), ""),
        (ToServer(16), ""),
        CALL,
        (ToServer(48), ""),
        ANSWER,
        (ToClient(24), ""),
    ];
    ends_as(&rt, rt.alloc(), Limits::default(), &rows, replied)?;
    // The second call is made before the cancel of the first comes to the server.
    let rows = [
        CALL,
        (ToServer(48), ""),
        ANSWER,
        CANCEL,
        (ToClient(24), ""),
        CALL,
        (ToServer(64), ""),
        ANSWER,
        (ToClient(24), ""),
    ];
    ends_as(&rt, rt.alloc(), Limits::default(), &rows, replied)
}

#[test]
fn an_id_whose_late_reply_may_come_is_not_used_again(rt: HostRuntime) -> Result<(), Fail> {
    ends_as(
        &rt,
        rt.alloc(),
        Limits::default(),
        &[
            CALL,
            (ToServer(48), ""),
            CANCEL,
            (ToServer(16), ""),
            (AtClient(Call(PING_2, Big, 48)), "call 2: IdInUse"),
            (AtClient(TakeOut(2)), "the call is open"),
            (AtServer(Take(2)), ""),
        ],
        ("2 Cancelled None, open", "open", 2, "Cancelled", "absent"),
    )
}

#[test]
fn a_cancelled_call_is_taken_out_once_its_late_reply_came(rt: HostRuntime) -> Result<(), Fail> {
    ends_as(
        &rt,
        rt.alloc(),
        Limits::default(),
        &[
            CALL,
            (ToServer(48), ""),
            ANSWER,
            CANCEL,
            (AtClient(TakeOut(2)), "the call is open"),
            (ToClient(24), ""),
            (ToServer(16), ""),
            (AtClient(TakeOut(2)), ""),
            (AtClient(TakeOut(2)), ""),
        ],
        ("open", "2 Cancelled true 0, open", 2, "absent", "Cancelled"),
    )
}
