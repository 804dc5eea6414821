//! A client's end, and what its program and its peer do, step by step.
use super::interfaces::interface;
use super::messages::{Asks, form, locate_request, request};
use super::shown::{client_table, told, written};
use giop_cdr::Order;
use giop_msg::Version;
use giop_session::{ClientEnd, Limits, SessionFault};
use giop_types::Interface;
use std::alloc::Global;
use std::process::Abort;
use std::test::Fail;

/// What is done at a client's end.
#[derive(Clone, Copy)]
pub enum Client {
    /// A Request is sent, in this byte order and in pieces of this size.
    Call(Asks, Order, u32),
    /// A LocateRequest for the object with the key `6b`.
    Locate(Version, u32, Order, u32),
    Cancel(u32, Order),
    Send(u32),
    /// These octets of the peer come, in hexadecimal digits.
    Hear(&'static str),
    Close,
    Take(u32),
}

/// What is done; what that tells, which is nothing where it isn't refused; which octets it puts
/// out, in hexadecimal digits; and the table that is left.
pub type ClientRow = (Client, &'static str, &'static str, &'static str);

/// A client's end within these limits, of which `gathered` is 2^62 at most.
pub fn client_end(alloc: Global, interface: &Interface, limits: Limits) -> ClientEnd<'_> {
    let gathered = limits.gathered.min(1 << 62);
    ClientEnd::new(alloc, interface, Limits { gathered, ..limits })
}

fn call(
    alloc: Global,
    end: &mut ClientEnd<'_>,
    asks: Asks,
    order: Order,
    piece: u32,
) -> Option<Result<(), SessionFault>> {
    Some(end.call(request(alloc, asks).ok()?, form(order, piece)))
}

fn locate(
    alloc: Global,
    end: &mut ClientEnd<'_>,
    version: Version,
    id: u32,
    order: Order,
    piece: u32,
) -> Option<Result<(), SessionFault>> {
    Some(end.locate(locate_request(alloc, version, id).ok()?, form(order, piece)))
}

fn hear(alloc: Global, end: &mut ClientEnd<'_>, digits: &str) -> Option<Result<(), SessionFault>> {
    let octets = hex::decode(alloc, digits).ok()?;
    Some(end.feed(&octets))
}

fn take(end: &mut ClientEnd<'_>, id: u32) -> Result<(), SessionFault> {
    end.take(id)?;
    Ok(())
}

/// Does this, and answers what it tells.
pub fn at_client(
    alloc: Global,
    end: &mut ClientEnd<'_>,
    what: Client,
) -> Option<Result<(), SessionFault>> {
    match what {
        Client::Call(asks, order, piece) => call(alloc, end, asks, order, piece),
        Client::Locate(version, id, order, piece) => {
            locate(alloc, end, version, id, order, piece)
        }
        Client::Cancel(id, order) => Some(end.cancel(id, order)),
        Client::Send(id) => Some(end.send(id)),
        Client::Hear(digits) => hear(alloc, end, digits),
        Client::Close => Some(end.close()),
        Client::Take(id) => Some(take(end, id)),
    }
}

fn goes(
    rt: &impl Abort,
    alloc: Global,
    end: &mut ClientEnd<'_>,
    i: usize,
    row: &ClientRow,
) -> Option<()> {
    let answer = at_client(alloc, end, row.0)?;
    assert_eq!(rt; told(alloc, answer)?.as_str(), row.1, "at row {i}");
    assert_eq!(rt; written(alloc, end)?.as_str(), row.2, "at row {i}");
    assert_eq!(rt; client_table(alloc, end)?.as_str(), row.3, "at row {i}");
    Some(())
}

/// All this, in turn, at a client's end without calls.
pub fn all_go(
    rt: &impl Abort,
    alloc: Global,
    limits: Limits,
    rows: &[ClientRow],
) -> Result<(), Fail> {
    let interface = interface(alloc)?;
    let mut end = client_end(alloc, &interface, limits);
    for (i, row) in rows.iter().enumerate() {
        goes(rt, alloc, &mut end, i, row).ok_or("no memory")?;
    }
    Ok(())
}
