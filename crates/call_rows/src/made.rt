//! Messages, as small as they can be.
use giop_calls::{Aside, CallKind, LocateCall, UndecodedCall};
use giop_cdr::{CdrFault, CdrKind, OctetList};
use giop_msg::{
    Completion, LocateReply, LocateReplyHead, Reply, ReplyBody, Request, RequestFault, RequestHead,
    ServiceContexts, Target, Version,
};
use giop_types::ValueList;
use std::alloc::{AllocError, Global};

pub fn fault() -> CdrFault {
    CdrFault {
        at: 24,
        kind: CdrKind::Short,
    }
}

pub fn request(alloc: Global, flags: u8, version: Version) -> Result<Aside<Request>, AllocError> {
    let head = RequestHead {
        version,
        id: 1,
        flags,
        target: Target::Key(OctetList::new(alloc)),
        operation: OctetList::new(alloc),
        contexts: ServiceContexts::new(alloc),
    };
    let body = ValueList::new(alloc);
    Aside::new(alloc, Request { head, body })
}

pub fn locate_request(alloc: Global, version: Version) -> Result<LocateCall, AllocError> {
    Ok(LocateCall {
        version,
        id: 1,
        target: Aside::new(alloc, Target::Key(OctetList::new(alloc)))?,
    })
}

pub fn undecoded(expects: Option<CallKind>) -> UndecodedCall {
    UndecodedCall {
        version: Version::V12,
        expects,
        fault: RequestFault::Header(fault()),
    }
}

pub fn reply(alloc: Global, version: Version) -> Result<Aside<Reply>, AllocError> {
    let reply = Reply {
        version,
        id: 1,
        contexts: ServiceContexts::new(alloc),
        body: ReplyBody::NoException(ValueList::new(alloc)),
    };
    Aside::new(alloc, reply)
}

pub fn exception(alloc: Global, version: Version) -> Result<Aside<Reply>, AllocError> {
    let reply = Reply {
        version,
        id: 1,
        contexts: ServiceContexts::new(alloc),
        body: ReplyBody::SystemException {
            id: OctetList::new(alloc),
            minor: 0,
            completion: Completion::No,
        },
    };
    Aside::new(alloc, reply)
}

pub fn locate_reply(alloc: Global, status: u32) -> LocateReply {
    LocateReply {
        head: LocateReplyHead {
            version: Version::V12,
            id: 1,
            status,
        },
        rest: OctetList::new(alloc),
    }
}
