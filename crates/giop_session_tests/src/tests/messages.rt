//! Requests and replies, made of what a table says of them.
ghost use Rattle.giop_session.specs.Form.{IsForm};

use giop_cdr::{OctetList, Order};
use giop_msg::{
    Completion, LocateRequest, Reply, ReplyBody, Request, RequestHead, ServiceContexts, Target,
    Version,
};
use giop_session::Form;
use giop_types::{Value, ValueList};
use std::alloc::{AllocError, Global};

/// What a body holds.
#[derive(Clone, Copy)]
pub enum Holds {
    /// So many longs, each a value.
    Longs(&'static [i32]),
    /// One sequence of longs.
    List(&'static [i32]),
    /// One string.
    Text(&'static [u8]),
}

/// A Request for the object with the key `6b`, without contexts.
#[derive(Clone, Copy)]
pub struct Asks {
    pub version: Version,
    pub id: u32,
    pub flags: u8,
    pub operation: &'static [u8],
    pub ins: Holds,
}

/// What a Reply answers.
#[derive(Clone, Copy)]
pub enum Answer {
    /// No exception, and these outs.
    Outs(Holds),
    /// An exception of the broker, by its id, with the minor code 0, and not completed.
    System(&'static [u8]),
    /// An exception of the interface, by its id, without members.
    User(&'static [u8]),
    /// The disposition in which the target has to be addressed.
    NeedsAddressing(i16),
}

/// `ping` of 1.2.
pub const PING: Asks = Asks {
    version: Version::V12,
    id: 1,
    flags: 3,
    operation: b"ping",
    ins: Holds::Longs(&[]),
};

/// `add` of 2 and 5, of 1.2.
pub const ADD: Asks = Asks {
    version: Version::V12,
    id: 4,
    flags: 3,
    operation: b"add",
    ins: Holds::Longs(&[2, 5]),
};

/// `tell` of a text, of 1.2, without a reply.
pub const TELL: Asks = Asks {
    version: Version::V12,
    id: 8,
    flags: 0,
    operation: b"tell",
    ins: Holds::Text(b"x"),
};

/// A Reply without outs.
pub const NOTHING: Answer = Answer::Outs(Holds::Longs(&[]));

/// A Reply whose one out is the long 7.
pub const SEVEN: Answer = Answer::Outs(Holds::Longs(&[7]));

/// This form; the default where no message may be sent so.
pub fn form(order: Order, piece: u32) -> Form
    ensures { IsForm result }
{
    let form = Form { order, piece };
    if form.is_valid() {
        form
    } else {
        Form { order, piece: 4096 }
    }
}

fn longs(alloc: Global, longs: &[i32]) -> Result<Vec<Value>, AllocError> {
    let mut values = Vec::new(alloc);
    for long in longs {
        values.push(Value::Long(*long))?;
    }
    Ok(values)
}

fn values(alloc: Global, holds: Holds) -> Result<ValueList, AllocError> {
    let mut list = ValueList::new(alloc);
    match holds {
        Holds::Longs(items) => return Ok(ValueList::from(longs(alloc, items)?)),
        Holds::List(items) => list.push(Value::Items(longs(alloc, items)?))?,
        Holds::Text(text) => list.push(Value::Text(OctetList::from_slice(alloc, text)?))?,
    }
    Ok(list)
}

fn target(alloc: Global) -> Result<Target, AllocError> {
    Ok(Target::Key(OctetList::from_slice(alloc, b"k")?))
}

pub fn request(alloc: Global, asks: Asks) -> Result<Request, AllocError> {
    let head = RequestHead {
        version: asks.version,
        id: asks.id,
        flags: asks.flags,
        target: target(alloc)?,
        operation: OctetList::from_slice(alloc, asks.operation)?,
        contexts: ServiceContexts::new(alloc),
    };
    let body = values(alloc, asks.ins)?;
    Ok(Request { head, body })
}

pub fn locate_request(
    alloc: Global,
    version: Version,
    id: u32,
) -> Result<LocateRequest, AllocError> {
    Ok(LocateRequest {
        version,
        id,
        target: target(alloc)?,
    })
}

fn reply_body(alloc: Global, answer: Answer) -> Result<ReplyBody, AllocError> {
    Ok(match answer {
        Answer::Outs(holds) => ReplyBody::NoException(values(alloc, holds)?),
        Answer::System(id) => ReplyBody::SystemException {
            id: OctetList::from_slice(alloc, id)?,
            minor: 0,
            completion: Completion::No,
        },
        Answer::User(id) => ReplyBody::UserException {
            id: OctetList::from_slice(alloc, id)?,
            members: ValueList::new(alloc),
        },
        Answer::NeedsAddressing(n) => ReplyBody::NeedsAddressing(n),
    })
}

pub fn reply(
    alloc: Global,
    version: Version,
    id: u32,
    answer: Answer,
) -> Result<Reply, AllocError> {
    Ok(Reply {
        version,
        id,
        contexts: ServiceContexts::new(alloc),
        body: reply_body(alloc, answer)?,
    })
}
