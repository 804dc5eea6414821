//! `ping` over a connection and the standard output: it calls `_non_existent`, the operation by which
//! an ORB asks whether an object is there (CORBA 3.3 Part 2, 9.4.2.1), and tells how long that took.

use crate::cli::PingWords;
use crate::files::OUTPUT_BUFFER;
use crate::report;
use crate::runs::reach::{connected, endpoint_of, peer_of, target_text};
use giop_cdr::Order;
use giop_commands::call::words::call_from_words;
use giop_commands::failure::Failure;
use giop_commands::status::Status;
use giop_commands::{Calling, Ending, Endpoint, call_over};
use giop_session::{Form, Limits};
use giop_types::Interface;
use std::io;
use std::io::{BufWriter, Write};
use std::time::Instant;

// The operation that each object has, and the interface of it alone.
const ASKED: &str = "_non_existent";

const OFFERED: &[u8] =
    b"{\"operations\":{\"_non_existent\":{\"outs\":[[\"result\",\"boolean\"]]}}}";

/// Connects to where the target says, asks the object whether it is there, and tells how long that
/// took. A refused target is reported before anything is connected.
pub fn ping(rt: &HostRuntime, words: PingWords) -> Status {
    match pinged(rt, words) {
        Ok(status) => status,
        Err(status) => status,
    }
}

fn pinged(rt: &HostRuntime, words: PingWords) -> Result<Status, Status> {
    let text = target_text(rt, words.target)?;
    let endpoint = endpoint_of(rt, words.target, text.as_slice())?;
    let peer = peer_of(rt, words.target, &endpoint)?;
    let began = Instant::now(rt);
    let ended = asked(rt, &endpoint, words);
    if let (Ok(began), Ok(_)) = (began, &ended) {
        if let Ok(time) = began.elapsed(rt) {
            let _ = eprintln!(rt; "giopctl: {}: took {} us", peer.as_str(), time.as_micros());
        }
    }
    Ok(report::called(rt, peer.as_str(), words.timeout, ended))
}

// Makes the call, and writes its line.
fn asked(rt: &HostRuntime, endpoint: &Endpoint, words: PingWords) -> Result<Ending, Failure> {
    let Ok(interface) = Interface::from_json(rt.alloc(), OFFERED) else {
        return Err(Failure::Memory);
    };
    let Ok(calls) = call_from_words(rt.alloc(), &interface, ASKED, Vec::new(rt.alloc())) else {
        return Err(Failure::Memory);
    };
    let order = if words.little {
        Order::Little
    } else {
        Order::Big
    };
    let calling = Calling {
        interface: &interface,
        key: endpoint.key.as_slice(),
        version: endpoint.version,
        form: Form {
            order,
            piece: 4_096,
        },
        limits: Limits::default(),
    };
    let link = connected(rt, endpoint, words.timeout)?;
    let mut out = BufWriter::with_capacity(rt.alloc(), OUTPUT_BUFFER, io::writer(rt))?;
    let (mut reader, mut writer) = (&link, &link);
    let ended = call_over(
        rt.alloc(),
        calling,
        calls,
        &mut reader,
        &mut writer,
        &mut out,
    )?;
    out.flush()?;
    Ok(ended)
}
