//! Each line of a client's table, for each entry that it names.
use super::made;
use giop_calls::{
    Call, CallFault, CallKind, ClientEntry, ClientEvent, ClientRule, HeardReply, Late,
};
use giop_msg::Version;
use giop_mux::CallRule;
use std::alloc::{AllocError, Global};
use std::test::Fail;

/// An entry without its messages.
#[derive(Clone, Copy, Debug, PartialEq, Eq)]
pub enum Is {
    Absent,
    Sending(CallKind, u32),
    Waiting(CallKind),
    Gathering(CallKind),
    Done,
    LocateDone,
    Undecoded,
    OnewaySent,
    Cancelled(Late),
}

use CallKind::{Locate, Request};
use Is::{Absent, Done, Gathering, LocateDone, OnewaySent, Sending, Undecoded, Waiting};

const UNSEEN: Is = Is::Cancelled(Late::None);

const BEGUN: Is = Is::Cancelled(Late::Begun);

const SEEN: Is = Is::Cancelled(Late::Seen);

fn call(alloc: Global, kind: CallKind) -> Result<Call, AllocError> {
    Ok(match kind {
        CallKind::Request => Call::Request(made::request(alloc, 3, Version::V12)?),
        CallKind::Locate => Call::Locate(made::locate_request(alloc, Version::V12)?),
    })
}

pub fn entry(alloc: Global, is: Is) -> Result<Option<ClientEntry>, AllocError> {
    Ok(Some(match is {
        Is::Absent => return Ok(None),
        Is::Sending(kind, left) => ClientEntry::Sending {
            call: call(alloc, kind)?,
            left,
        },
        Is::Waiting(kind) => ClientEntry::Waiting {
            call: call(alloc, kind)?,
        },
        Is::Gathering(kind) => ClientEntry::Gathering {
            call: call(alloc, kind)?,
        },
        Is::Done => ClientEntry::Done {
            request: made::request(alloc, 3, Version::V12)?,
            reply: made::reply(alloc, Version::V12)?,
        },
        Is::LocateDone => ClientEntry::LocateDone {
            request: made::locate_request(alloc, Version::V12)?,
            reply: made::locate_reply(alloc, 1),
        },
        Is::Undecoded => ClientEntry::Undecoded {
            call: call(alloc, CallKind::Request)?,
            fault: made::fault(),
        },
        Is::OnewaySent => ClientEntry::OnewaySent {
            request: made::request(alloc, 0, Version::V12)?,
        },
        Is::Cancelled(late) => ClientEntry::Cancelled { late },
    }))
}

fn kind_of(call: &Call) -> CallKind {
    match call {
        Call::Request(_) => CallKind::Request,
        Call::Locate(_) => CallKind::Locate,
    }
}

pub fn told(entry: Option<&ClientEntry>) -> Is {
    match entry {
        None => Is::Absent,
        Some(ClientEntry::Sending { call, left }) => Is::Sending(kind_of(call), *left),
        Some(ClientEntry::Waiting { call }) => Is::Waiting(kind_of(call)),
        Some(ClientEntry::Gathering { call }) => Is::Gathering(kind_of(call)),
        Some(ClientEntry::Done { .. }) => Is::Done,
        Some(ClientEntry::LocateDone { .. }) => Is::LocateDone,
        Some(ClientEntry::Undecoded { .. }) => Is::Undecoded,
        Some(ClientEntry::OnewaySent { .. }) => Is::OnewaySent,
        Some(ClientEntry::Cancelled { late }) => Is::Cancelled(*late),
    }
}

type After = (Is, Result<(), CallFault>);

fn after(alloc: Global, before: Is, event: ClientEvent) -> Result<After, AllocError> {
    let step = ClientRule.step(entry(alloc, before)?, event);
    Ok((told(step.entry.as_ref()), step.outcome))
}

fn first(kind: CallKind, version: Version) -> ClientEvent {
    ClientEvent::First { kind, version }
}

fn heard(alloc: Global, kind: CallKind) -> Result<HeardReply, AllocError> {
    Ok(match kind {
        CallKind::Request => HeardReply::Reply(made::reply(alloc, Version::V12)?),
        CallKind::Locate => HeardReply::Locate(made::locate_reply(alloc, 1)),
    })
}

fn whole(alloc: Global, kind: CallKind, version: Version) -> Result<ClientEvent, AllocError> {
    let reply = heard(alloc, kind)?;
    Ok(ClientEvent::Whole {
        kind,
        version,
        reply,
    })
}

fn last(alloc: Global, in_order: bool, kind: CallKind) -> Result<ClientEvent, AllocError> {
    let reply = heard(alloc, kind)?;
    Ok(ClientEvent::Last { in_order, reply })
}

#[test]
fn a_call_begins_where_the_id_is_free(rt: HostRuntime) -> Result<(), Fail> {
    let alloc = rt.alloc();
    for before in [Absent, Done, LocateDone, Undecoded, OnewaySent, SEEN] {
        let event = ClientEvent::Call {
            call: call(alloc, Locate)?,
            pieces: 3,
        };
        assert_eq!(rt; after(alloc, before, event)?, (Sending(Locate, 2), Ok(())));
        let event = ClientEvent::Call {
            call: call(alloc, Request)?,
            pieces: 1,
        };
        assert_eq!(rt; after(alloc, before, event)?, (Waiting(Request), Ok(())));
        let event = ClientEvent::Call {
            call: Call::Request(made::request(alloc, 0, Version::V12)?),
            pieces: 1,
        };
        assert_eq!(rt; after(alloc, before, event)?, (OnewaySent, Ok(())));
    }
    Ok(())
}

// A cancelled call whose reply is still to come keeps its id.
#[test]
fn an_id_in_use_takes_no_other_call(rt: HostRuntime) -> Result<(), Fail> {
    let alloc = rt.alloc();
    for before in [
        Sending(Request, 1),
        Waiting(Request),
        Gathering(Locate),
        UNSEEN,
        BEGUN,
    ] {
        let event = ClientEvent::Call {
            call: call(alloc, Request)?,
            pieces: 1,
        };
        assert_eq!(rt;
            after(alloc, before, event)?,
            (before, Err(CallFault::IdInUse))
        );
    }
    Ok(())
}

#[test]
fn pieces_are_sent_until_none_is_left(rt: HostRuntime) -> Result<(), Fail> {
    let alloc = rt.alloc();
    for (before, behind) in [
        (Sending(Request, 2), Sending(Request, 1)),
        (Sending(Request, 1), Waiting(Request)),
        (Sending(Locate, 1), Waiting(Locate)),
    ] {
        assert_eq!(rt; after(alloc, before, ClientEvent::Send)?, (behind, Ok(())));
    }
    for before in [
        Absent,
        Waiting(Request),
        Gathering(Request),
        Done,
        LocateDone,
        Undecoded,
        OnewaySent,
        UNSEEN,
    ] {
        let nothing = Err(CallFault::NothingToSend);
        assert_eq!(rt; after(alloc, before, ClientEvent::Send)?, (before, nothing));
    }
    Ok(())
}

#[test]
fn an_open_call_can_be_cancelled(rt: HostRuntime) -> Result<(), Fail> {
    let alloc = rt.alloc();
    for (before, behind) in [
        (Sending(Request, 2), UNSEEN),
        (Waiting(Locate), UNSEEN),
        (Gathering(Request), BEGUN),
    ] {
        assert_eq!(rt;
            after(alloc, before, ClientEvent::Cancel)?,
            (behind, Ok(()))
        );
    }
    for before in [
        Absent, Done, LocateDone, Undecoded, OnewaySent, UNSEEN, BEGUN, SEEN,
    ] {
        let event = ClientEvent::Cancel;
        assert_eq!(rt;
            after(alloc, before, event)?,
            (before, Err(CallFault::NotOpen))
        );
    }
    Ok(())
}

#[test]
fn a_reply_is_of_the_kind_and_version_of_its_call(rt: HostRuntime) -> Result<(), Fail> {
    let alloc = rt.alloc();
    let wrong = Err(CallFault::WrongKind);
    for (kind, other, done) in [(Request, Locate, Done), (Locate, Request, LocateDone)] {
        let before = Waiting(kind);
        let event = first(kind, Version::V12);
        assert_eq!(rt; after(alloc, before, event)?, (Gathering(kind), Ok(())));
        let event = whole(alloc, kind, Version::V12)?;
        assert_eq!(rt; after(alloc, before, event)?, (done, Ok(())));
        for (kind, version) in [(other, Version::V12), (kind, Version::V10)] {
            let event = first(kind, version);
            assert_eq!(rt; after(alloc, before, event)?, (before, wrong));
            let event = whole(alloc, kind, version)?;
            assert_eq!(rt; after(alloc, before, event)?, (before, wrong));
        }
    }
    Ok(())
}

#[test]
fn a_reply_that_cant_be_decoded_ends_the_call(rt: HostRuntime) -> Result<(), Fail> {
    let alloc = rt.alloc();
    let event = ClientEvent::Whole {
        kind: Request,
        version: Version::V12,
        reply: HeardReply::Undecoded(made::fault()),
    };
    assert_eq!(rt; after(alloc, Waiting(Request), event)?, (Undecoded, Ok(())));
    let event = ClientEvent::Last {
        in_order: true,
        reply: HeardReply::Undecoded(made::fault()),
    };
    assert_eq!(rt;
        after(alloc, Gathering(Locate), event)?,
        (Undecoded, Ok(()))
    );
    Ok(())
}

#[test]
fn a_reply_may_come_once_behind_a_cancel(rt: HostRuntime) -> Result<(), Fail> {
    let alloc = rt.alloc();
    let event = first(Locate, Version::V10);
    assert_eq!(rt; after(alloc, UNSEEN, event)?, (BEGUN, Ok(())));
    let event = whole(alloc, Locate, Version::V10)?;
    assert_eq!(rt; after(alloc, UNSEEN, event)?, (SEEN, Ok(())));
    for before in [
        Absent,
        Sending(Request, 1),
        Gathering(Request),
        Done,
        LocateDone,
        Undecoded,
        OnewaySent,
        BEGUN,
        SEEN,
    ] {
        let unknown = Err(CallFault::UnknownReply);
        let event = first(Request, Version::V12);
        assert_eq!(rt; after(alloc, before, event)?, (before, unknown));
        let event = whole(alloc, Request, Version::V12)?;
        assert_eq!(rt; after(alloc, before, event)?, (before, unknown));
    }
    Ok(())
}

#[test]
fn fragments_continue_a_reply(rt: HostRuntime) -> Result<(), Fail> {
    let alloc = rt.alloc();
    let before = Gathering(Request);
    let event = ClientEvent::More { in_order: true };
    assert_eq!(rt; after(alloc, before, event)?, (before, Ok(())));
    let event = last(alloc, true, Request)?;
    assert_eq!(rt; after(alloc, before, event)?, (Done, Ok(())));
    let event = last(alloc, true, Locate)?;
    assert_eq!(rt;
        after(alloc, Gathering(Locate), event)?,
        (LocateDone, Ok(()))
    );
    let differs = Err(CallFault::OrderDiffers);
    let event = ClientEvent::More { in_order: false };
    assert_eq!(rt; after(alloc, before, event)?, (before, differs));
    let event = last(alloc, false, Request)?;
    assert_eq!(rt; after(alloc, before, event)?, (before, differs));
    Ok(())
}

#[test]
fn the_last_fragment_ends_a_late_reply(rt: HostRuntime) -> Result<(), Fail> {
    let alloc = rt.alloc();
    for in_order in [false, true] {
        for (before, behind) in [(UNSEEN, UNSEEN), (BEGUN, SEEN), (SEEN, SEEN)] {
            let event = ClientEvent::More { in_order };
            assert_eq!(rt; after(alloc, before, event)?, (before, Ok(())));
            let event = ClientEvent::Last {
                in_order,
                reply: HeardReply::Unread,
            };
            assert_eq!(rt; after(alloc, before, event)?, (behind, Ok(())));
        }
        for before in [
            Absent,
            Sending(Request, 1),
            Waiting(Request),
            Done,
            LocateDone,
            Undecoded,
            OnewaySent,
        ] {
            let stray = Err(CallFault::Stray);
            let event = ClientEvent::More { in_order };
            assert_eq!(rt; after(alloc, before, event)?, (before, stray));
            let event = last(alloc, in_order, Request)?;
            assert_eq!(rt; after(alloc, before, event)?, (before, stray));
        }
    }
    Ok(())
}
