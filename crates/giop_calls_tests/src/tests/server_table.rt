//! Each line of a server's table, for each entry that it names.
use super::made;
use giop_calls::{CallFault, CallKind, HeardCall, Question, ServerEntry, ServerEvent, ServerRule};
use giop_msg::{Target, Version};
use giop_mux::CallRule;
use std::alloc::{AllocError, Global};
use std::test::Fail;

/// An entry without its messages.
#[derive(Clone, Copy, Debug, PartialEq, Eq)]
pub enum Is {
    Absent,
    Gathering,
    Asked,
    Undecoded(Option<CallKind>),
    LocateAsked,
    Answered(u32),
    LocateAnswered(bool),
    Delivered,
    Cancelled(bool, u32),
}

use Is::{Absent, Answered, Asked, Cancelled, Delivered, Gathering, LocateAnswered, LocateAsked};

const ORPHAN: Is = Is::Undecoded(None);

const BAD_REQUEST: Is = Is::Undecoded(Some(CallKind::Request));

const BAD_LOCATE: Is = Is::Undecoded(Some(CallKind::Locate));

fn entry(alloc: Global, is: Is) -> Result<Option<ServerEntry>, AllocError> {
    Ok(Some(match is {
        Is::Absent => return Ok(None),
        Is::Gathering => ServerEntry::Gathering {
            kind: CallKind::Request,
        },
        Is::Asked => ServerEntry::Asked {
            request: made::request(alloc, 3, Version::V12)?,
        },
        Is::Undecoded(expects) => ServerEntry::Undecoded {
            call: made::undecoded(expects),
        },
        Is::LocateAsked => ServerEntry::LocateAsked {
            request: made::locate_request(alloc, Version::V12)?,
        },
        Is::Answered(left) => ServerEntry::Answered {
            asked: Question::Request(made::request(alloc, 3, Version::V12)?),
            reply: made::reply(alloc, Version::V12)?,
            left,
        },
        Is::LocateAnswered(here) => ServerEntry::LocateAnswered { target: None, here },
        Is::Delivered => ServerEntry::Delivered {
            request: made::request(alloc, 0, Version::V12)?,
        },
        Is::Cancelled(answered, left) => ServerEntry::Cancelled { answered, left },
    }))
}

pub fn told(entry: Option<&ServerEntry>) -> Is {
    match entry {
        None => Is::Absent,
        Some(ServerEntry::Gathering { .. }) => Is::Gathering,
        Some(ServerEntry::Asked { .. }) => Is::Asked,
        Some(ServerEntry::Undecoded { call }) => Is::Undecoded(call.expects),
        Some(ServerEntry::LocateAsked { .. }) => Is::LocateAsked,
        Some(ServerEntry::Answered { left, .. }) => Is::Answered(*left),
        Some(ServerEntry::LocateAnswered { here, .. }) => Is::LocateAnswered(*here),
        Some(ServerEntry::Delivered { .. }) => Is::Delivered,
        Some(ServerEntry::Cancelled { answered, left }) => Is::Cancelled(*answered, *left),
    }
}

type After = (Is, Result<(), CallFault>);

fn after(alloc: Global, before: Is, event: ServerEvent) -> Result<After, AllocError> {
    let step = ServerRule.step(entry(alloc, before)?, event);
    Ok((told(step.entry.as_ref()), step.outcome))
}

// An answer of so many pieces, with a body.
fn answer(alloc: Global, version: Version, pieces: u32) -> Result<ServerEvent, AllocError> {
    let reply = made::reply(alloc, version)?;
    Ok(ServerEvent::Answer { reply, pieces })
}

// The same with an exception of the broker.
fn broken(alloc: Global, version: Version, pieces: u32) -> Result<ServerEvent, AllocError> {
    let reply = made::exception(alloc, version)?;
    Ok(ServerEvent::Answer { reply, pieces })
}

const CLOSED: [Is; 6] = [
    Absent,
    Answered(0),
    Cancelled(true, 0),
    LocateAnswered(true),
    Delivered,
    ORPHAN,
];

const OPEN: [Is; 7] = [
    Gathering,
    Asked,
    LocateAsked,
    BAD_REQUEST,
    BAD_LOCATE,
    Answered(1),
    Cancelled(true, 1),
];

#[test]
fn a_call_begins_where_the_id_is_free(rt: HostRuntime) -> Result<(), Fail> {
    let alloc = rt.alloc();
    for before in CLOSED {
        let first = ServerEvent::First {
            kind: CallKind::Locate,
        };
        assert_eq!(rt; after(alloc, before, first)?, (Gathering, Ok(())));
        let call = HeardCall::Request(made::request(alloc, 1, Version::V10)?);
        let whole = ServerEvent::Whole { call };
        assert_eq!(rt; after(alloc, before, whole)?, (Asked, Ok(())));
    }
    Ok(())
}

#[test]
fn an_id_in_use_takes_no_other_call(rt: HostRuntime) -> Result<(), Fail> {
    let alloc = rt.alloc();
    for before in OPEN {
        let first = ServerEvent::First {
            kind: CallKind::Request,
        };
        assert_eq!(rt;
            after(alloc, before, first)?,
            (before, Err(CallFault::IdInUse))
        );
        let call = HeardCall::Request(made::request(alloc, 0, Version::V12)?);
        let whole = ServerEvent::Whole { call };
        assert_eq!(rt;
            after(alloc, before, whole)?,
            (before, Err(CallFault::IdInUse))
        );
    }
    Ok(())
}

fn heard(alloc: Global, is: Is) -> Result<HeardCall, AllocError> {
    Ok(match is {
        Is::Delivered => HeardCall::Request(made::request(alloc, 0, Version::V12)?),
        Is::Undecoded(expects) => HeardCall::Undecoded(made::undecoded(expects)),
        Is::LocateAsked => HeardCall::Locate(made::locate_request(alloc, Version::V12)?),
        _ => HeardCall::Request(made::request(alloc, 3, Version::V12)?),
    })
}

#[test]
fn a_message_stands_as_it_came_in_one_piece_or_many(rt: HostRuntime) -> Result<(), Fail> {
    let alloc = rt.alloc();
    for came in [
        Asked,
        Delivered,
        LocateAsked,
        ORPHAN,
        BAD_REQUEST,
        BAD_LOCATE,
    ] {
        let call = heard(alloc, came)?;
        let whole = ServerEvent::Whole { call };
        assert_eq!(rt; after(alloc, Absent, whole)?, (came, Ok(())));
        let call = heard(alloc, came)?;
        let last = ServerEvent::Last {
            in_order: true,
            call,
        };
        assert_eq!(rt; after(alloc, Gathering, last)?, (came, Ok(())));
    }
    Ok(())
}

#[test]
fn a_fragment_continues_what_is_gathered(rt: HostRuntime) -> Result<(), Fail> {
    let alloc = rt.alloc();
    let differs = Err(CallFault::OrderDiffers);
    let more = ServerEvent::More { in_order: true };
    assert_eq!(rt; after(alloc, Gathering, more)?, (Gathering, Ok(())));
    let more = ServerEvent::More { in_order: false };
    assert_eq!(rt; after(alloc, Gathering, more)?, (Gathering, differs));
    let last = ServerEvent::Last {
        in_order: false,
        call: heard(alloc, Asked)?,
    };
    assert_eq!(rt; after(alloc, Gathering, last)?, (Gathering, differs));
    Ok(())
}

#[test]
fn a_fragment_behind_a_cancel_is_ignored_and_any_other_stray(rt: HostRuntime) -> Result<(), Fail> {
    let alloc = rt.alloc();
    for in_order in [false, true] {
        for before in [Cancelled(false, 0), Cancelled(true, 3)] {
            let more = ServerEvent::More { in_order };
            assert_eq!(rt; after(alloc, before, more)?, (before, Ok(())));
            let call = heard(alloc, Asked)?;
            let last = ServerEvent::Last { in_order, call };
            assert_eq!(rt; after(alloc, before, last)?, (before, Ok(())));
        }
        for before in [
            Absent,
            Asked,
            BAD_LOCATE,
            LocateAsked,
            Answered(2),
            LocateAnswered(true),
            Delivered,
        ] {
            let more = ServerEvent::More { in_order };
            assert_eq!(rt;
                after(alloc, before, more)?,
                (before, Err(CallFault::Stray))
            );
            let call = heard(alloc, Asked)?;
            let last = ServerEvent::Last { in_order, call };
            assert_eq!(rt;
                after(alloc, before, last)?,
                (before, Err(CallFault::Stray))
            );
        }
    }
    Ok(())
}

#[test]
fn a_cancel_ends_what_expects_a_reply(rt: HostRuntime) -> Result<(), Fail> {
    let alloc = rt.alloc();
    for (before, behind) in [
        (Gathering, Cancelled(false, 0)),
        (Asked, Cancelled(false, 0)),
        (LocateAsked, Cancelled(false, 0)),
        (BAD_REQUEST, Cancelled(false, 0)),
        (BAD_LOCATE, Cancelled(false, 0)),
        (Answered(0), Cancelled(true, 0)),
        (Answered(2), Cancelled(true, 2)),
        (LocateAnswered(false), Cancelled(true, 0)),
        (Absent, Absent),
        (Delivered, Delivered),
        (ORPHAN, ORPHAN),
        (Cancelled(false, 0), Cancelled(false, 0)),
        (Cancelled(true, 2), Cancelled(true, 2)),
    ] {
        assert_eq!(rt;
            after(alloc, before, ServerEvent::Cancel)?,
            (behind, Ok(()))
        );
    }
    Ok(())
}

#[test]
fn an_answer_in_three_pieces_leaves_two(rt: HostRuntime) -> Result<(), Fail> {
    let alloc = rt.alloc();
    let reply = answer(alloc, Version::V12, 3)?;
    assert_eq!(rt; after(alloc, Asked, reply)?, (Answered(2), Ok(())));
    let reply = broken(alloc, Version::V12, 1)?;
    assert_eq!(rt; after(alloc, BAD_REQUEST, reply)?, (Answered(0), Ok(())));
    let reply = answer(alloc, Version::V12, 1)?;
    assert_eq!(rt;
        after(alloc, BAD_REQUEST, reply)?,
        (BAD_REQUEST, Err(CallFault::Unfit))
    );
    let reply = answer(alloc, Version::V11, 1)?;
    assert_eq!(rt; after(alloc, Asked, reply)?, (Asked, Err(CallFault::Unfit)));
    let reply = broken(alloc, Version::V10, 1)?;
    assert_eq!(rt;
        after(alloc, BAD_REQUEST, reply)?,
        (BAD_REQUEST, Err(CallFault::Unfit))
    );
    Ok(())
}

#[test]
fn a_reply_answers_an_open_request_alone(rt: HostRuntime) -> Result<(), Fail> {
    let alloc = rt.alloc();
    for before in [LocateAsked, BAD_LOCATE] {
        let reply = broken(alloc, Version::V12, 1)?;
        assert_eq!(rt;
            after(alloc, before, reply)?,
            (before, Err(CallFault::WrongKind))
        );
    }
    for before in [
        Absent,
        Gathering,
        Answered(0),
        Answered(2),
        LocateAnswered(true),
        Delivered,
        ORPHAN,
        Cancelled(false, 0),
    ] {
        let reply = broken(alloc, Version::V12, 1)?;
        assert_eq!(rt;
            after(alloc, before, reply)?,
            (before, Err(CallFault::NotOpen))
        );
    }
    Ok(())
}

#[test]
fn a_locate_reply_answers_an_open_locate_request_alone(rt: HostRuntime) -> Result<(), Fail> {
    let alloc = rt.alloc();
    let here = ServerEvent::AnswerLocate { here: true };
    assert_eq!(rt;
        after(alloc, LocateAsked, here)?,
        (LocateAnswered(true), Ok(()))
    );
    let away = ServerEvent::AnswerLocate { here: false };
    assert_eq!(rt;
        after(alloc, BAD_LOCATE, away)?,
        (LocateAnswered(false), Ok(()))
    );
    let here = ServerEvent::AnswerLocate { here: true };
    assert_eq!(rt;
        after(alloc, BAD_LOCATE, here)?,
        (BAD_LOCATE, Err(CallFault::Unfit))
    );
    for before in [Asked, BAD_REQUEST] {
        let here = ServerEvent::AnswerLocate { here: true };
        assert_eq!(rt;
            after(alloc, before, here)?,
            (before, Err(CallFault::WrongKind))
        );
    }
    for before in [
        Absent,
        Gathering,
        Answered(0),
        LocateAnswered(true),
        Delivered,
        ORPHAN,
        Cancelled(true, 1),
    ] {
        let here = ServerEvent::AnswerLocate { here: true };
        assert_eq!(rt;
            after(alloc, before, here)?,
            (before, Err(CallFault::NotOpen))
        );
    }
    Ok(())
}

#[test]
fn pieces_are_sent_until_none_is_left(rt: HostRuntime) -> Result<(), Fail> {
    let alloc = rt.alloc();
    for (before, behind) in [
        (Answered(2), Answered(1)),
        (Answered(1), Answered(0)),
        (Cancelled(true, 1), Cancelled(true, 0)),
    ] {
        assert_eq!(rt; after(alloc, before, ServerEvent::Send)?, (behind, Ok(())));
    }
    for before in [
        Absent,
        Gathering,
        Asked,
        BAD_REQUEST,
        LocateAsked,
        Answered(0),
        LocateAnswered(true),
        Delivered,
        Cancelled(false, 0),
    ] {
        let left = Err(CallFault::NothingToSend);
        assert_eq!(rt; after(alloc, before, ServerEvent::Send)?, (before, left));
    }
    Ok(())
}

// Whether an object is told to be here, and its key with it.
fn is_located_key(entry: Option<&ServerEntry>) -> bool {
    match entry {
        Some(
            ServerEntry::LocateAnswered {
                target: Some(target),
                here: true,
            },
        ) => is_key(target),
        _ => false,
    }
}

fn is_key(target: &Target) -> bool {
    matches!(target, Target::Key(_))
}

// An undecoded LocateRequest has no target to tell; a decoded one has.
#[test]
fn a_located_target_is_kept(rt: HostRuntime) -> Result<(), Fail> {
    let alloc = rt.alloc();
    let here = ServerEvent::AnswerLocate { here: true };
    let step = ServerRule.step(entry(alloc, LocateAsked)?, here);
    assert!(rt; is_located_key(step.entry.as_ref()));
    let away = ServerEvent::AnswerLocate { here: false };
    let step = ServerRule.step(entry(alloc, BAD_LOCATE)?, away);
    assert!(rt;
        matches!(
            &step.entry,
            Some(ServerEntry::LocateAnswered {
                target: None,
                here: false
            })
        )
    );
    Ok(())
}
