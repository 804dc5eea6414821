//! How many blocks of 512 octets an end has taken for pieces.
use super::clients::{Client, at_client, client_end};
use super::interfaces::interface;
use super::messages::ADD as ASKS_ADD;
use super::octets::{ONE_1, SEVEN_4_1, SEVEN_4_2};
use super::servers::server_end;
use giop_cdr::Order::Big;
use giop_session::{End, Hearing, Limits};
use std::alloc::Global;
use std::process::Abort;
use std::test::Fail;

// A Request of `tell` as id 8, up to its text of 478 octets. Its first piece brings 516 octets, of
// which 476 are text; the last one brings the other two.
const LONG_TELL: &str =
    "47494f500102020000000204000000080000000000000000000000016b0000000000000574656c6c0000000000000000000001de";

const LONG_TELL_2: &str = "47494f500102000700000006000000087800";

// The octets come, and so many blocks are taken then.
fn takes<R: Hearing>(
    rt: &impl Abort,
    end: &mut End<'_, R>,
    octets: &[u8],
    blocks: usize,
) -> Result<(), Fail> {
    end.feed(octets)?;
    assert_eq!(rt; end.blocks(), blocks);
    Ok(())
}

fn takes_digits<R: Hearing>(
    rt: &impl Abort,
    alloc: Global,
    end: &mut End<'_, R>,
    digits: &str,
    blocks: usize,
) -> Result<(), Fail> {
    let octets = hex::decode(alloc, digits)?;
    takes(rt, end, &octets, blocks)
}

#[test]
fn blocks_of_a_call_that_came_serve_the_next(rt: HostRuntime) -> Result<(), Fail> {
    let alloc = rt.alloc();
    let interface = interface(alloc)?;
    let mut end = server_end(alloc, &interface, Limits::default());
    takes(&rt, &mut end, &[], 0)?;
    takes_digits(&rt, alloc, &mut end, LONG_TELL, 0)?;
    takes(&rt, &mut end, &[b'x'; 476], 2)?;
    takes_digits(&rt, alloc, &mut end, LONG_TELL_2, 2)?;
    takes_digits(&rt, alloc, &mut end, ONE_1, 2)?;
    takes_digits(&rt, alloc, &mut end, LONG_TELL, 2)?;
    takes(&rt, &mut end, &[b'x'; 476], 3)
}

#[test]
fn a_client_takes_blocks_for_replies(rt: HostRuntime) -> Result<(), Fail> {
    let alloc = rt.alloc();
    let interface = interface(alloc)?;
    let mut end = client_end(alloc, &interface, Limits::default());
    let call = Client::Call(ASKS_ADD, Big, 4096);
    at_client(alloc, &mut end, call).ok_or("no memory")??;
    takes(&rt, &mut end, &[], 0)?;
    takes_digits(&rt, alloc, &mut end, SEVEN_4_1, 1)?;
    takes_digits(&rt, alloc, &mut end, SEVEN_4_2, 1)
}
