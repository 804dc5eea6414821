//! Both rules in a table of calls. Each step is a function, so that a test holds no message.
use super::{client_table, made, server_table};
use giop_calls::{
    Call, CallFault, CallKind, ClientEntry, ClientEvent, ClientRule, HeardCall, HeardReply, Late,
    Outcome, ServerEntry, ServerEvent, ServerRule,
};
use giop_msg::Version;
use giop_mux::{Mux, Refusal, StillOpen};
use std::alloc::{AllocError, Global};
use std::test::Fail;

// A Request comes.
fn ask(mux: &mut Mux<ServerRule>, alloc: Global, id: u32) -> Result<(), Refusal<CallFault>> {
    let Ok(request) = made::request(alloc, 3, Version::V12) else {
        return Err(Refusal::NoMemory);
    };
    let call = HeardCall::Request(request);
    mux.apply(id, ServerEvent::Whole { call })
}

// Its reply is handed in, in one piece.
fn answer(mux: &mut Mux<ServerRule>, alloc: Global, id: u32) -> Result<(), Refusal<CallFault>> {
    let Ok(reply) = made::reply(alloc, Version::V12) else {
        return Err(Refusal::NoMemory);
    };
    mux.apply(id, ServerEvent::Answer { reply, pieces: 1 })
}

// What is taken out at a server.
fn take(mux: &mut Mux<ServerRule>, id: u32) -> Result<server_table::Is, StillOpen> {
    let taken = mux.take(id)?;
    Ok(server_table::told(taken.as_ref()))
}

#[test]
fn a_server_of_one_call(rt: HostRuntime) -> Result<(), Fail> {
    let alloc = rt.alloc();
    let mut mux = Mux::new(alloc, ServerRule, 1);
    assert_eq!(rt; ask(&mut mux, alloc, 1), Ok(()));
    assert_eq!(rt; server_table::told(mux.entry(1)), server_table::Is::Asked);
    let in_use = Err(Refusal::Rule(CallFault::IdInUse));
    assert_eq!(rt; ask(&mut mux, alloc, 1), in_use);
    assert_eq!(rt; ask(&mut mux, alloc, 2), Err(Refusal::TooManyCalls));
    assert_eq!(rt; mux.apply(2, ServerEvent::Cancel), Ok(()));
    assert_eq!(rt; mux.len(), 1);
    assert_eq!(rt; take(&mut mux, 1), Err(StillOpen));
    assert_eq!(rt; answer(&mut mux, alloc, 1), Ok(()));
    assert_eq!(rt; take(&mut mux, 1), Ok(server_table::Is::Answered(0)));
    assert_eq!(rt; take(&mut mux, 1), Ok(server_table::Is::Absent));
    assert!(rt; mux.is_empty());
    assert_eq!(rt; ask(&mut mux, alloc, 2), Ok(()));
    Ok(())
}

// A Request is made.
fn call(mux: &mut Mux<ClientRule>, alloc: Global, id: u32) -> Result<(), Refusal<CallFault>> {
    let Ok(request) = made::request(alloc, 3, Version::V12) else {
        return Err(Refusal::NoMemory);
    };
    let call = Call::Request(request);
    mux.apply(id, ClientEvent::Call { call, pieces: 1 })
}

// It is cancelled.
fn cancel(mux: &mut Mux<ClientRule>, id: u32) -> Result<(), Refusal<CallFault>> {
    mux.apply(id, ClientEvent::Cancel)
}

// What is taken out at a client.
fn take_call(mux: &mut Mux<ClientRule>, id: u32) -> Result<client_table::Is, StillOpen> {
    let taken = mux.take(id)?;
    Ok(client_table::told(taken.as_ref()))
}

// A reply comes whole, behind a cancel.
fn hear_late(mux: &mut Mux<ClientRule>, id: u32) -> Result<(), Refusal<CallFault>> {
    let late = ClientEvent::Whole {
        kind: CallKind::Request,
        version: Version::V12,
        reply: HeardReply::Unread,
    };
    mux.apply(id, late)
}

#[test]
fn a_cancelled_id_is_used_again_once_its_reply_came(rt: HostRuntime) -> Result<(), Fail> {
    let alloc = rt.alloc();
    let mut mux = Mux::new(alloc, ClientRule, 8);
    assert_eq!(rt; call(&mut mux, alloc, 2), Ok(()));
    assert_eq!(rt; cancel(&mut mux, 2), Ok(()));
    let in_use = Err(Refusal::Rule(CallFault::IdInUse));
    assert_eq!(rt; call(&mut mux, alloc, 2), in_use);
    assert_eq!(rt; take_call(&mut mux, 2), Err(StillOpen));
    assert_eq!(rt; hear_late(&mut mux, 2), Ok(()));
    assert_eq!(rt; call(&mut mux, alloc, 2), Ok(()));
    Ok(())
}

// The first piece of a reply comes, behind a cancel.
fn hear_first(mux: &mut Mux<ClientRule>, id: u32) -> Result<(), Refusal<CallFault>> {
    let late = ClientEvent::First {
        kind: CallKind::Request,
        version: Version::V12,
    };
    mux.apply(id, late)
}

// Its last piece comes, in another byte order.
fn hear_last(mux: &mut Mux<ClientRule>, id: u32) -> Result<(), Refusal<CallFault>> {
    let end = ClientEvent::Last {
        in_order: false,
        reply: HeardReply::Unread,
    };
    mux.apply(id, end)
}

#[test]
fn a_late_reply_in_pieces_closes_a_cancelled_id(rt: HostRuntime) -> Result<(), Fail> {
    let alloc = rt.alloc();
    let mut mux = Mux::new(alloc, ClientRule, 8);
    assert_eq!(rt; call(&mut mux, alloc, 2), Ok(()));
    assert_eq!(rt; cancel(&mut mux, 2), Ok(()));
    assert_eq!(rt; hear_first(&mut mux, 2), Ok(()));
    assert_eq!(rt; take_call(&mut mux, 2), Err(StillOpen));
    assert_eq!(rt; hear_last(&mut mux, 2), Ok(()));
    let seen = client_table::Is::Cancelled(Late::Seen);
    assert_eq!(rt; take_call(&mut mux, 2), Ok(seen));
    assert_eq!(rt; take_call(&mut mux, 2), Ok(client_table::Is::Absent));
    Ok(())
}

// Whether an entry is told as replied.
fn is_replied(entry: Option<&ClientEntry>) -> bool {
    match entry {
        Some(entry) => matches!(entry.outcome(), Outcome::Replied(_)),
        None => false,
    }
}

// The same of a call that has its reply.
fn is_done_replied(alloc: Global) -> Result<bool, AllocError> {
    let done = client_table::entry(alloc, client_table::Is::Done)?;
    Ok(is_replied(done.as_ref()))
}

// Whether an object that is located is told as such, at a client.
fn is_located(alloc: Global) -> Result<bool, AllocError> {
    let located = ClientEntry::LocateDone {
        request: made::locate_request(alloc, Version::V12)?,
        reply: made::locate_reply(alloc, 2),
    };
    Ok(matches!(located.outcome(), Outcome::Located(2)))
}

// The same at a server.
fn is_here() -> bool {
    let here = ServerEntry::LocateAnswered {
        target: None,
        here: true,
    };
    matches!(here.outcome(), Outcome::Located(1))
}

#[test]
fn outcomes_and_faults_are_told(rt: HostRuntime) -> Result<(), Fail> {
    let alloc = rt.alloc();
    assert!(rt; is_done_replied(alloc)?);
    assert!(rt; is_located(alloc)?);
    assert!(rt; is_here());
    let text = std::format!(in alloc; "{} {}", CallFault::UnknownOperation, CallFault::Stray)?;
    assert_eq!(rt; text.as_str(), "UnknownOperation Stray");
    assert_eq!(rt; CallFault::NothingToSend.number(), 9);
    Ok(())
}
