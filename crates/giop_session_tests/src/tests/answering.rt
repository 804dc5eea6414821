//! What a server puts out for an answer, and how each is refused.
use super::messages::Answer::{NeedsAddressing, System, User};
use super::messages::{NOTHING, SEVEN};
use super::octets::{
    ADD, ADD_1, ADD_BRIEFLY, ADD_V10, ADD_V11_LITTLE, CANCEL_4, DONE_1, DONE_4, HERE_6,
    HERE_6_V10_LITTLE, LOCATE, LOCATE_V10_LITTLE, LONG_LOCATE, LONG_TELL, NEEDS_4, PING, PONG_7,
    SEVEN_1_V10, SEVEN_1_V11_LITTLE, SEVEN_4, SEVEN_4_1, SEVEN_4_1_LITTLE, SEVEN_4_2,
    SEVEN_4_2_LITTLE, SEVEN_4_LITTLE, SYSTEM_4_1, SYSTEM_4_2, SYSTEM_7, SYSTEM_7_1, SYSTEM_7_2,
    SYSTEM_7_3, TELL, UNKNOWN_6_LITTLE,
};
use super::servers::Server::{Answer, AnswerIn, AnswerLocate, Hear, Send, Take};
use super::servers::all_go;
use giop_cdr::Order::{Big, Little};
use giop_msg::Version::{V10, V11};
use giop_session::Limits;
use std::test::Fail;

const BAD_OPERATION: &[u8] = b"IDL:omg.org/CORBA/BAD_OPERATION:1.0";

#[test]
fn an_answer_goes_out_in_one_piece_or_in_two(rt: HostRuntime) -> Result<(), Fail> {
    all_go(
        &rt,
        rt.alloc(),
        Limits::default(),
        &[
            (Hear(ADD), "", "", "4 Asked add 2 5, open"),
            (
                Answer(4, SEVEN, Big, 32),
                "",
                SEVEN_4,
                "4 Answered 0 7 left 0, open",
            ),
            (
                Answer(4, SEVEN, Big, 32),
                "call 4: NotOpen",
                "",
                "4 Answered 0 7 left 0, open",
            ),
            (
                Send(4),
                "call 4: NothingToSend",
                "",
                "4 Answered 0 7 left 0, open",
            ),
            (Hear(ADD), "", "", "4 Asked add 2 5, open"),
            (
                Answer(4, SEVEN, Little, 32),
                "",
                SEVEN_4_LITTLE,
                "4 Answered 0 7 left 0, open",
            ),
            (Take(4), "", "", "open"),
            (Hear(ADD), "", "", "4 Asked add 2 5, open"),
            (
                Answer(4, SEVEN, Big, 24),
                "",
                SEVEN_4_1,
                "4 Answered 0 7 left 1, open",
            ),
            (
                Take(4),
                "the call is open",
                "",
                "4 Answered 0 7 left 1, open",
            ),
            (Send(4), "", SEVEN_4_2, "4 Answered 0 7 left 0, open"),
            (
                Send(4),
                "call 4: NothingToSend",
                "",
                "4 Answered 0 7 left 0, open",
            ),
        ],
    )
}

#[test]
fn answers_go_out_in_any_order(rt: HostRuntime) -> Result<(), Fail> {
    all_go(
        &rt,
        rt.alloc(),
        Limits::default(),
        &[
            (Hear(PING), "", "", "1 Asked ping, open"),
            (Hear(ADD), "", "", "1 Asked ping, 4 Asked add 2 5, open"),
            (
                Answer(4, SEVEN, Little, 24),
                "",
                SEVEN_4_1_LITTLE,
                "1 Asked ping, 4 Answered 0 7 left 1, open",
            ),
            (
                Answer(1, NOTHING, Big, 24),
                "",
                DONE_1,
                "1 Answered 0 left 0, 4 Answered 0 7 left 1, open",
            ),
            (
                Send(1),
                "call 1: NothingToSend",
                "",
                "1 Answered 0 left 0, 4 Answered 0 7 left 1, open",
            ),
            (
                Send(4),
                "",
                SEVEN_4_2_LITTLE,
                "1 Answered 0 left 0, 4 Answered 0 7 left 0, open",
            ),
        ],
    )
}

#[test]
fn an_undecoded_call_is_answered_by_an_exception_of_the_broker(
    rt: HostRuntime,
) -> Result<(), Fail> {
    all_go(
        &rt,
        rt.alloc(),
        Limits::default(),
        &[
            (Hear(PONG_7), "", "", "7 Undecoded, open"),
            (
                Answer(7, NOTHING, Big, 24),
                "call 7: Unfit",
                "",
                "7 Undecoded, open",
            ),
            (
                Answer(7, NeedsAddressing(0), Big, 24),
                "call 7: Unfit",
                "",
                "7 Undecoded, open",
            ),
            (
                AnswerIn(V10, 7, System(BAD_OPERATION), Big, 24),
                "call 7: Unfit",
                "",
                "7 Undecoded, open",
            ),
            (
                AnswerLocate(7, false, Big),
                "call 7: WrongKind",
                "",
                "7 Undecoded, open",
            ),
            (
                Answer(7, System(BAD_OPERATION), Big, 72),
                "",
                SYSTEM_7,
                "7 Undecoded answered 2 left 0, open",
            ),
            (Hear(PONG_7), "", "", "7 Undecoded, open"),
            (
                Answer(7, System(BAD_OPERATION), Big, 40),
                "",
                SYSTEM_7_1,
                "7 Undecoded answered 2 left 2, open",
            ),
            (
                Send(7),
                "",
                SYSTEM_7_2,
                "7 Undecoded answered 2 left 1, open",
            ),
            (
                Send(7),
                "",
                SYSTEM_7_3,
                "7 Undecoded answered 2 left 0, open",
            ),
        ],
    )
}

#[test]
fn an_answer_fits_its_request(rt: HostRuntime) -> Result<(), Fail> {
    all_go(
        &rt,
        rt.alloc(),
        Limits::default(),
        &[
            (Hear(ADD_BRIEFLY), "", "", "4 Asked add 2 5, open"),
            (
                Answer(4, SEVEN, Big, 24),
                "call 4: Unfit",
                "",
                "4 Asked add 2 5, open",
            ),
            (
                Answer(4, NOTHING, Big, 24),
                "",
                DONE_4,
                "4 Answered 0 left 0, open",
            ),
            (Hear(ADD), "", "", "4 Asked add 2 5, open"),
            (
                Answer(4, NOTHING, Big, 24),
                "call 4: Unfit",
                "",
                "4 Asked add 2 5, open",
            ),
            (
                Answer(4, User(b"IDL:E:1.0"), Big, 24),
                "call 4: Unfit",
                "",
                "4 Asked add 2 5, open",
            ),
            (
                Answer(4, System(b"E\0"), Big, 24),
                "call 4: Unfit",
                "",
                "4 Asked add 2 5, open",
            ),
            (
                AnswerIn(V11, 4, SEVEN, Big, 24),
                "call 4: Unfit",
                "",
                "4 Asked add 2 5, open",
            ),
            (
                Answer(4, NeedsAddressing(1), Big, 32),
                "",
                NEEDS_4,
                "4 Answered 5 left 0, open",
            ),
        ],
    )
}

#[test]
fn an_answer_before_1_2_is_of_its_requests_version(rt: HostRuntime) -> Result<(), Fail> {
    all_go(
        &rt,
        rt.alloc(),
        Limits::default(),
        &[
            (Hear(ADD_V10), "", "", "1 Asked add 2 5, open"),
            (
                Answer(1, SEVEN, Big, 24),
                "call 1: Unfit",
                "",
                "1 Asked add 2 5, open",
            ),
            (
                AnswerIn(V11, 1, SEVEN, Big, 24),
                "call 1: Unfit",
                "",
                "1 Asked add 2 5, open",
            ),
            (
                AnswerIn(V10, 1, NeedsAddressing(0), Big, 24),
                "call 1: Unfit",
                "",
                "1 Asked add 2 5, open",
            ),
            (
                AnswerIn(V10, 1, SEVEN, Big, 24),
                "",
                SEVEN_1_V10,
                "1 Answered 0 7 left 0, open",
            ),
            (Hear(ADD_V11_LITTLE), "", "", "1 Asked add 2 5, open"),
            (
                AnswerIn(V10, 1, SEVEN, Big, 24),
                "call 1: Unfit",
                "",
                "1 Asked add 2 5, open",
            ),
            (
                AnswerIn(V11, 1, SEVEN, Little, 24),
                "",
                SEVEN_1_V11_LITTLE,
                "1 Answered 0 7 left 0, open",
            ),
        ],
    )
}

#[test]
fn a_call_that_waits_for_no_reply_is_not_answered(rt: HostRuntime) -> Result<(), Fail> {
    let over = "4 Gathering, 6 LocateAsked, 8 Delivered tell text, open";
    all_go(
        &rt,
        rt.alloc(),
        Limits::default(),
        &[
            (Answer(9, SEVEN, Big, 24), "call 9: NotOpen", "", "open"),
            (AnswerLocate(9, true, Big), "call 9: NotOpen", "", "open"),
            (Hear(TELL), "", "", "8 Delivered tell text, open"),
            (
                Hear(LOCATE),
                "",
                "",
                "6 LocateAsked, 8 Delivered tell text, open",
            ),
            (Hear(ADD_1), "", "", over),
            (Answer(8, NOTHING, Big, 24), "call 8: NotOpen", "", over),
            (AnswerLocate(8, true, Big), "call 8: NotOpen", "", over),
            (Answer(4, SEVEN, Big, 24), "call 4: NotOpen", "", over),
            (AnswerLocate(4, true, Big), "call 4: NotOpen", "", over),
            (Answer(6, NOTHING, Big, 24), "call 6: WrongKind", "", over),
            (
                AnswerIn(V10, 6, NOTHING, Big, 24),
                "call 6: WrongKind",
                "",
                over,
            ),
            (
                Hear(LONG_TELL),
                "",
                "",
                "4 Gathering, 6 LocateAsked, 8 Undecoded, open",
            ),
            (
                Answer(8, System(BAD_OPERATION), Big, 24),
                "call 8: NotOpen",
                "",
                "4 Gathering, 6 LocateAsked, 8 Undecoded, open",
            ),
            (
                Hear(CANCEL_4),
                "",
                "",
                "4 Cancelled false 0, 6 LocateAsked, 8 Undecoded, open",
            ),
            (
                Answer(4, SEVEN, Big, 24),
                "call 4: NotOpen",
                "",
                "4 Cancelled false 0, 6 LocateAsked, 8 Undecoded, open",
            ),
        ],
    )
}

#[test]
fn a_locate_request_is_answered_in_its_version(rt: HostRuntime) -> Result<(), Fail> {
    all_go(
        &rt,
        rt.alloc(),
        Limits::default(),
        &[
            (Hear(LOCATE), "", "", "6 LocateAsked, open"),
            (AnswerLocate(6, true, Big), "", HERE_6, "6 Here, open"),
            (
                AnswerLocate(6, true, Big),
                "call 6: NotOpen",
                "",
                "6 Here, open",
            ),
            (Hear(LOCATE), "", "", "6 LocateAsked, open"),
            (
                AnswerLocate(6, false, Little),
                "",
                UNKNOWN_6_LITTLE,
                "6 Unknown, open",
            ),
            (Hear(LOCATE_V10_LITTLE), "", "", "6 LocateAsked, open"),
            (
                AnswerLocate(6, true, Little),
                "",
                HERE_6_V10_LITTLE,
                "6 Here, open",
            ),
            (Hear(LONG_LOCATE), "", "", "6 Undecoded, open"),
            (
                AnswerLocate(6, true, Little),
                "call 6: Unfit",
                "",
                "6 Undecoded, open",
            ),
            (
                Answer(6, System(BAD_OPERATION), Big, 24),
                "call 6: WrongKind",
                "",
                "6 Undecoded, open",
            ),
            (
                AnswerLocate(6, false, Little),
                "",
                UNKNOWN_6_LITTLE,
                "6 Unknown, open",
            ),
            (Hear(ADD), "", "", "4 Asked add 2 5, 6 Unknown, open"),
            (
                AnswerLocate(4, true, Big),
                "call 4: WrongKind",
                "",
                "4 Asked add 2 5, 6 Unknown, open",
            ),
        ],
    )
}

#[test]
fn an_answer_that_is_begun_is_sent_to_its_end_after_a_cancel(rt: HostRuntime) -> Result<(), Fail> {
    all_go(
        &rt,
        rt.alloc(),
        Limits::default(),
        &[
            (Hear(ADD), "", "", "4 Asked add 2 5, open"),
            (
                Answer(4, SEVEN, Big, 24),
                "",
                SEVEN_4_1,
                "4 Answered 0 7 left 1, open",
            ),
            (Hear(CANCEL_4), "", "", "4 Cancelled true 1, open"),
            (
                Answer(4, SEVEN, Big, 24),
                "call 4: NotOpen",
                "",
                "4 Cancelled true 1, open",
            ),
            (Take(4), "the call is open", "", "4 Cancelled true 1, open"),
            (Send(4), "", SEVEN_4_2, "4 Cancelled true 0, open"),
            (
                Send(4),
                "call 4: NothingToSend",
                "",
                "4 Cancelled true 0, open",
            ),
            (Take(4), "", "", "open"),
        ],
    )
}

#[test]
fn an_answer_is_within_the_limits_of_its_end(rt: HostRuntime) -> Result<(), Fail> {
    let less = Limits {
        message: 44,
        gathered: 59,
        ..Limits::default()
    };
    let just = Limits {
        gathered: 60,
        ..less
    };
    let asked = "4 Asked add 2 5, open";
    all_go(
        &rt,
        rt.alloc(),
        less,
        &[
            (Hear(ADD), "", "", asked),
            (
                Answer(4, System(BAD_OPERATION), Big, 56),
                "call 4: Unfit",
                "",
                asked,
            ),
            (
                Answer(4, SEVEN, Big, 32),
                "",
                SEVEN_4,
                "4 Answered 0 7 left 0, open",
            ),
        ],
    )?;
    all_go(
        &rt,
        rt.alloc(),
        just,
        &[
            (Hear(ADD), "", "", asked),
            (
                Answer(4, System(BAD_OPERATION), Big, 64),
                "call 4: Unfit",
                "",
                asked,
            ),
            (
                Answer(4, System(BAD_OPERATION), Big, 72),
                "call 4: Unfit",
                "",
                asked,
            ),
            (
                Answer(4, System(BAD_OPERATION), Big, 56),
                "",
                SYSTEM_4_1,
                "4 Answered 2 left 1, open",
            ),
            (Send(4), "", SYSTEM_4_2, "4 Answered 2 left 0, open"),
        ],
    )
}
