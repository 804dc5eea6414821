//! What the tests do at an end, which may be out of memory before it is done.
use giop_cdr::{OctetList, Order};
use giop_msg::{
    LocateRequest, Reply, ReplyBody, Request, RequestHead, ServiceContexts, Target, Version,
};
use giop_session::laws::{CheckedForm, ServerInput};
use giop_session::{ClientEnd, Form, ServerEnd, SessionFault};
use giop_types::{Value, ValueList};
use std::alloc::{AllocError, Global};

/// What is done at a client's end, big-endian and in pieces of 24 octets.
#[derive(Clone, Copy)]
pub enum Client {
    /// `ping` is called, as id 1.
    Ping,
    /// `add` of 2 and 5 is called, as id 4 and in one piece.
    Add,
    /// It is asked where an object is, as id 6.
    Locate,
    Cancel(u32),
    Send(u32),
}

/// What is done at a server's end, in pieces of 24 octets.
#[derive(Clone, Copy)]
pub enum Server {
    /// These octets come, in hexadecimal digits.
    Hear(&'static str),
    /// The call of this id is answered by so many longs, in this byte order.
    Answer(u32, &'static [i32], Order),
    /// A LocateRequest is answered: the object is here.
    Here(u32),
    Send(u32),
    Take(u32),
}

fn form(order: Order) -> CheckedForm {
    CheckedForm {
        form: Form { order, piece: 24 },
    }
}

fn target(alloc: Global) -> Result<Target, AllocError> {
    Ok(Target::Key(OctetList::from_slice(alloc, b"k")?))
}

fn request(alloc: Global, id: u32, operation: &[u8], ins: &[i32]) -> Result<Request, AllocError> {
    let head = RequestHead {
        version: Version::V12,
        id,
        flags: 3,
        target: target(alloc)?,
        operation: OctetList::from_slice(alloc, operation)?,
        contexts: ServiceContexts::new(alloc),
    };
    let body = longs(alloc, ins)?;
    Ok(Request { head, body })
}

fn longs(alloc: Global, numbers: &[i32]) -> Result<ValueList, AllocError> {
    let mut values = ValueList::new(alloc);
    for number in numbers {
        values.push(Value::Long(*number))?;
    }
    Ok(values)
}

fn locate(alloc: Global) -> Result<LocateRequest, AllocError> {
    Ok(LocateRequest {
        version: Version::V12,
        id: 6,
        target: target(alloc)?,
    })
}

fn reply(alloc: Global, id: u32, outs: &[i32]) -> Result<Reply, AllocError> {
    Ok(Reply {
        version: Version::V12,
        id,
        contexts: ServiceContexts::new(alloc),
        body: ReplyBody::NoException(longs(alloc, outs)?),
    })
}

/// Does this, and answers what it tells.
pub fn at_client(
    alloc: Global,
    end: &mut ClientEnd<'_>,
    what: Client,
) -> Option<Result<(), SessionFault>> {
    Some(match what {
        Client::Ping => {
            let ping = request(alloc, 1, b"ping", &[]).ok()?;
            end.call(ping, form(Order::Big).form)
        }
        Client::Add => {
            let add = request(alloc, 4, b"add", &[2, 5]).ok()?;
            let whole = Form {
                order: Order::Big,
                piece: 56,
            };
            end.call(add, whole)
        }
        Client::Locate => end.locate(locate(alloc).ok()?, form(Order::Big).form),
        Client::Cancel(id) => end.cancel(id, Order::Big),
        Client::Send(id) => end.send(id),
    })
}

/// What a server's end is given.
pub fn server_input(alloc: Global, what: Server) -> Option<ServerInput> {
    Some(match what {
        Server::Hear(digits) => {
            ServerInput::Feed(OctetList::from(hex::decode(alloc, digits).ok()?))
        }
        Server::Answer(id, longs, order) => ServerInput::Answer {
            reply: reply(alloc, id, longs).ok()?,
            form: form(order),
        },
        Server::Here(id) => ServerInput::AnswerLocate {
            id,
            here: true,
            order: Order::Big,
        },
        Server::Send(id) => ServerInput::Send(id),
        Server::Take(id) => ServerInput::Take(id),
    })
}

/// Hears or answers this, and answers what it tells.
pub fn at_server(
    alloc: Global,
    end: &mut ServerEnd<'_>,
    what: Server,
) -> Option<Result<(), SessionFault>> {
    Some(match server_input(alloc, what)? {
        ServerInput::Feed(octets) => end.feed(octets.as_slice()),
        ServerInput::Answer { reply, form } => end.answer(reply, form.form),
        _ => return None,
    })
}
