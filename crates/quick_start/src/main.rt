//! Prints the id and the operation of each Request on the standard input: Jettyapron as a library,
//! in one page.
#![tactic(auto)]

use anyhow::Result;
use giop_cdr::SliceOctets;
use giop_msg::{Framer, Kind, Msg, RequestHead};
use std::alloc::Global;
use std::io::Read;

fn main(rt: HostRuntime) -> Result<()> {
    let mut octets = Vec::new(rt.alloc());
    rt.reader().read_to_end(&mut octets)?;
    let mut framer = Framer::new(rt.alloc(), 1_048_576);
    framer.feed(octets.as_slice())?;
    for _ in 0..u64::MAX {
        match framer.next()? {
            Some(message) if message.kind == Kind::Request && !message.more => {
                let joined = SliceOctets::new(message.payload.as_slice());
                let (head, _body) = RequestHead::view(&joined, message.version, message.order)?;
                let operation = head.operation.to_list(rt.alloc())?;
                let operation = String::from_utf8_lossy(rt.alloc(), operation.as_slice())?;
                println!(rt; "{} {operation}", head.id)?;
            }
            Some(_) => {}
            None => break,
        }
    }
    Ok(())
}
