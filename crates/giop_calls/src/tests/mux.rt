//! Both rules in a table of calls.
use super::made;
use crate::{
    Call, CallFault, CallKind, ClientEntry, ClientEvent, ClientRule, HeardCall, HeardReply, Late,
    Outcome, ServerEntry, ServerEvent, ServerRule,
};
use giop_msg::Version;
use giop_mux::{Mux, Refusal, StillOpen};
use std::alloc::Global;
use std::test::Fail;

fn asks(alloc: Global) -> ServerEvent {
    ServerEvent::Whole {
        call: HeardCall::Request(made::request(alloc, 3, Version::V12)),
    }
}

#[test]
fn a_server_of_one_call(rt: HostRuntime) -> Result<(), Fail> {
    let alloc = rt.alloc();
    let mut mux = Mux::new(alloc, ServerRule, 1);
    assert_eq!(rt; mux.apply(1, asks(alloc)), Ok(()));
    assert!(rt; matches!(mux.entry(1), Some(ServerEntry::Asked { .. })));
    assert_eq!(rt;
        mux.apply(1, asks(alloc)),
        Err(Refusal::Rule(CallFault::IdInUse))
    );
    assert_eq!(rt; mux.apply(2, asks(alloc)), Err(Refusal::TooManyCalls));
    assert_eq!(rt; mux.apply(2, ServerEvent::Cancel), Ok(()));
    assert_eq!(rt; mux.len(), 1);
    assert!(rt; matches!(mux.take(1), Err(StillOpen)));
    let answer = ServerEvent::Answer {
        reply: made::reply(alloc, Version::V12),
        pieces: 1,
    };
    assert_eq!(rt; mux.apply(1, answer), Ok(()));
    let taken = mux.take(1);
    assert!(rt; matches!(taken, Ok(Some(ServerEntry::Answered { left: 0, .. }))));
    assert!(rt; matches!(mux.take(1), Ok(None)));
    assert!(rt; mux.is_empty());
    assert_eq!(rt; mux.apply(2, asks(alloc)), Ok(()));
    Ok(())
}

fn calls(alloc: Global) -> ClientEvent {
    ClientEvent::Call {
        call: Call::Request(made::request(alloc, 3, Version::V12)),
        pieces: 1,
    }
}

#[test]
fn a_cancelled_id_is_used_again_once_its_reply_came(rt: HostRuntime) -> Result<(), Fail> {
    let alloc = rt.alloc();
    let mut mux = Mux::new(alloc, ClientRule, 8);
    assert_eq!(rt; mux.apply(2, calls(alloc)), Ok(()));
    assert_eq!(rt; mux.apply(2, ClientEvent::Cancel), Ok(()));
    assert_eq!(rt;
        mux.apply(2, calls(alloc)),
        Err(Refusal::Rule(CallFault::IdInUse))
    );
    assert!(rt; matches!(mux.take(2), Err(StillOpen)));
    let late = ClientEvent::Whole {
        kind: CallKind::Request,
        version: Version::V12,
        reply: HeardReply::Unread,
    };
    assert_eq!(rt; mux.apply(2, late), Ok(()));
    assert_eq!(rt; mux.apply(2, calls(alloc)), Ok(()));
    Ok(())
}

#[test]
fn a_late_reply_in_pieces_closes_a_cancelled_id(rt: HostRuntime) -> Result<(), Fail> {
    let alloc = rt.alloc();
    let mut mux = Mux::new(alloc, ClientRule, 8);
    assert_eq!(rt; mux.apply(2, calls(alloc)), Ok(()));
    assert_eq!(rt; mux.apply(2, ClientEvent::Cancel), Ok(()));
    let late = ClientEvent::First {
        kind: CallKind::Request,
        version: Version::V12,
    };
    assert_eq!(rt; mux.apply(2, late), Ok(()));
    assert!(rt; matches!(mux.take(2), Err(StillOpen)));
    let end = ClientEvent::Last {
        in_order: false,
        reply: HeardReply::Unread,
    };
    assert_eq!(rt; mux.apply(2, end), Ok(()));
    let taken = mux.take(2);
    assert!(rt; matches!(taken, Ok(Some(ClientEntry::Cancelled { late: Late::Seen }))));
    assert!(rt; mux.entry(2).is_none());
    Ok(())
}

#[test]
fn outcomes_and_faults_are_told(rt: HostRuntime) -> Result<(), Fail> {
    let alloc = rt.alloc();
    let done = ClientEntry::Done {
        request: made::request(alloc, 3, Version::V12),
        reply: made::reply(alloc, Version::V12),
    };
    assert!(rt; matches!(done.outcome(), Outcome::Replied(_)));
    let located = ClientEntry::LocateDone {
        request: made::locate_request(alloc, Version::V12),
        reply: made::locate_reply(alloc, 2),
    };
    assert!(rt; matches!(located.outcome(), Outcome::Located(2)));
    let here = ServerEntry::LocateAnswered {
        target: None,
        here: true,
    };
    assert!(rt; matches!(here.outcome(), Outcome::Located(1)));
    let text = std::format!(in alloc; "{} {}", CallFault::UnknownOperation, CallFault::Stray)?;
    assert_eq!(rt; text.as_str(), "UnknownOperation Stray");
    assert_eq!(rt; CallFault::NothingToSend.number(), 9);
    Ok(())
}
