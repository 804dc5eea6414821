//! A server's end, and what its program and its peer do, step by step.
use super::interfaces::interface;
use super::messages::{Answer, form, reply};
use super::shown::{server_table, told, written};
use giop_cdr::Order;
use giop_msg::Version;
use giop_session::{Limits, ServerEnd, SessionFault};
use giop_types::Interface;
use std::alloc::Global;
use std::process::Abort;
use std::test::Fail;

/// What is done at a server's end.
#[derive(Clone, Copy)]
pub enum Server {
    /// These octets of the peer come, in hexadecimal digits.
    Hear(&'static str),
    /// The call of this id is answered in 1.2, in this byte order and in pieces of this size.
    Answer(u32, Answer, Order, u32),
    /// The same in another version.
    AnswerIn(Version, u32, Answer, Order, u32),
    /// A LocateRequest is answered: the object is here, or it isn't.
    AnswerLocate(u32, bool, Order),
    Send(u32),
    Close,
    Take(u32),
}

/// What is done; what that tells, which is nothing where it isn't refused; which octets it puts
/// out, in hexadecimal digits; and the table that is left.
pub type ServerRow = (Server, &'static str, &'static str, &'static str);

/// A server's end within these limits, of which `gathered` is 2^62 at most.
pub fn server_end(alloc: Global, interface: &Interface, limits: Limits) -> ServerEnd<'_> {
    let gathered = limits.gathered.min(1 << 62);
    ServerEnd::new(alloc, interface, Limits { gathered, ..limits })
}

fn hear(alloc: Global, end: &mut ServerEnd<'_>, digits: &str) -> Option<Result<(), SessionFault>> {
    let octets = hex::decode(alloc, digits).ok()?;
    Some(end.feed(&octets))
}

fn answer(
    alloc: Global,
    end: &mut ServerEnd<'_>,
    version: Version,
    id: u32,
    answer: Answer,
    order: Order,
    piece: u32,
) -> Option<Result<(), SessionFault>> {
    Some(end.answer(reply(alloc, version, id, answer).ok()?, form(order, piece)))
}

fn take(end: &mut ServerEnd<'_>, id: u32) -> Result<(), SessionFault> {
    end.take(id)?;
    Ok(())
}

/// Does this, and answers what it tells.
pub fn at_server(
    alloc: Global,
    end: &mut ServerEnd<'_>,
    what: Server,
) -> Option<Result<(), SessionFault>> {
    match what {
        Server::Hear(digits) => hear(alloc, end, digits),
        Server::Answer(id, body, order, piece) => {
            answer(alloc, end, Version::V12, id, body, order, piece)
        }
        Server::AnswerIn(version, id, body, order, piece) => {
            answer(alloc, end, version, id, body, order, piece)
        }
        Server::AnswerLocate(id, here, order) => Some(end.answer_locate(id, here, order)),
        Server::Send(id) => Some(end.send(id)),
        Server::Close => Some(end.close()),
        Server::Take(id) => Some(take(end, id)),
    }
}

fn goes(
    rt: &impl Abort,
    alloc: Global,
    end: &mut ServerEnd<'_>,
    i: usize,
    row: &ServerRow,
) -> Option<()> {
    let answer = at_server(alloc, end, row.0)?;
    assert_eq!(rt; told(alloc, answer)?.as_str(), row.1, "at row {i}");
    assert_eq!(rt; written(alloc, end)?.as_str(), row.2, "at row {i}");
    assert_eq!(rt; server_table(alloc, end)?.as_str(), row.3, "at row {i}");
    Some(())
}

/// All this, in turn, at a server's end without calls.
pub fn all_go(
    rt: &impl Abort,
    alloc: Global,
    limits: Limits,
    rows: &[ServerRow],
) -> Result<(), Fail> {
    let interface = interface(alloc)?;
    let mut end = server_end(alloc, &interface, limits);
    for (i, row) in rows.iter().enumerate() {
        goes(rt, alloc, &mut end, i, row).ok_or("no memory")?;
    }
    Ok(())
}
