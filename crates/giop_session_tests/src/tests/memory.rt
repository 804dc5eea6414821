//! Want of memory at an end: with any one allocation refused each run ends as with none, but for a
//! read that is refused, behind which the end stays failed.
use super::acts::{Client, Server, at_client, at_server, server_input};
use super::sessions::{client_entries, interface, server_entries};
use giop_calls::ServerEntry;
use giop_cdr::Order::{Big, Little};
use giop_json::FormFault;
use giop_session::laws::{Answered, run_server};
use giop_session::{ClientEnd, End, Hearing, Limits, ServerEnd, SessionFault};
use giop_types::Interface;
use std::alloc::Global;
use std::process::Abort;
use std::test::Fail;

// Each of these does once more what had no memory: no second allocation is refused.

fn interface_at_last(alloc: Global) -> Result<Interface, FormFault> {
    match interface(alloc) {
        Err(FormFault::NoMemory) => interface(alloc),
        answer => answer,
    }
}

fn client_entries_at_last(alloc: Global, end: &ClientEnd<'_>) -> Option<String> {
    match client_entries(alloc, end) {
        Some(text) => Some(text),
        None => client_entries(alloc, end),
    }
}

fn server_entries_at_last(alloc: Global, end: &ServerEnd<'_>) -> Option<String> {
    match server_entries(alloc, end) {
        Some(text) => Some(text),
        None => server_entries(alloc, end),
    }
}

fn outgoing_at_last<R: Hearing>(alloc: Global, end: &End<'_, R>) -> Option<String> {
    match hex::encode(alloc, end.outgoing()) {
        Ok(text) => Some(text),
        Err(_) => hex::encode(alloc, end.outgoing()).ok(),
    }
}

fn at_client_at_last(
    alloc: Global,
    end: &mut ClientEnd<'_>,
    what: Client,
) -> Option<Result<(), SessionFault>> {
    match at_client(alloc, end, what) {
        Some(told) => Some(told),
        None => at_client(alloc, end, what),
    }
}

fn at_server_at_last(
    alloc: Global,
    end: &mut ServerEnd<'_>,
    what: Server,
) -> Option<Result<(), SessionFault>> {
    match at_server(alloc, end, what) {
        Some(told) => Some(told),
        None => at_server(alloc, end, what),
    }
}

// Does this. Where that is refused for want of memory, all is as it was, and the same once more is
// accepted.
fn client_does(
    rt: &impl Abort,
    alloc: Global,
    end: &mut ClientEnd<'_>,
    what: Client,
) -> Option<()> {
    let entries = client_entries_at_last(alloc, end)?;
    let outgoing = outgoing_at_last(alloc, end)?;
    let told = at_client_at_last(alloc, end, what)?;
    if told == Err(SessionFault::NoMemory) {
        assert!(rt; client_entries_at_last(alloc, end)?.as_str() == entries.as_str());
        assert!(rt; outgoing_at_last(alloc, end)?.as_str() == outgoing.as_str());
        assert_eq!(rt; at_client_at_last(alloc, end, what)?, Ok(()));
    } else {
        assert_eq!(rt; told, Ok(()));
    }
    Some(())
}

fn server_does(
    rt: &impl Abort,
    alloc: Global,
    end: &mut ServerEnd<'_>,
    what: Server,
) -> Option<()> {
    let entries = server_entries_at_last(alloc, end)?;
    let outgoing = outgoing_at_last(alloc, end)?;
    let told = at_server_at_last(alloc, end, what)?;
    if told == Err(SessionFault::NoMemory) {
        assert!(rt; server_entries_at_last(alloc, end)?.as_str() == entries.as_str());
        assert!(rt; outgoing_at_last(alloc, end)?.as_str() == outgoing.as_str());
        assert_eq!(rt; at_server_at_last(alloc, end, what)?, Ok(()));
    } else {
        assert_eq!(rt; told, Ok(()));
    }
    Some(())
}

// Hears this, before and behind which these entries stand. Where that is refused for want of
// memory those before it stand, and the end is failed.
fn hears(
    rt: &impl Abort,
    alloc: Global,
    end: &mut ServerEnd<'_>,
    octets: &'static str,
    before: &str,
    behind: &str,
) -> Option<bool> {
    let told = at_server_at_last(alloc, end, Server::Hear(octets))?;
    let expected = if told.is_ok() { behind } else { before };
    assert_eq!(rt; server_entries_at_last(alloc, end)?.as_str(), expected);
    assert_eq!(rt; end.fault(), told.err());
    if told.is_err() {
        assert_eq!(rt; told, Err(SessionFault::NoMemory));
        let again = at_server_at_last(alloc, end, Server::Hear(octets))?;
        assert_eq!(rt; again, Err(SessionFault::NoMemory));
    }
    Some(told.is_ok())
}

// Hears each of these, behind which the table beside it stands; whether none was refused.
fn hears_all(
    rt: &impl Abort,
    alloc: Global,
    end: &mut ServerEnd<'_>,
    rows: &[(&'static str, &'static str)],
) -> Option<bool> {
    let mut before = "";
    for (octets, behind) in rows {
        if !hears(rt, alloc, end, octets, before, behind)? {
            return Some(false);
        }
        before = behind;
    }
    Some(true)
}

// A CancelRequest of id 1.
const CANCEL_1: &str = "47494f50010200020000000400000001";

// A Reply without outs to id 1.
const DONE_1: &str = "47494f50010200010000000c000000010000000000000000";

// A LocateRequest of id 6, in two pieces.
const LOCATE_1: &str = "47494f50010202030000000c000000060000000000000001";

const LOCATE_2: &str = "47494f500102000700000005000000066b";

// A Request of `ping` in four pieces, as id 1 and big-endian.
const ONE_1: &str = "47494f50010202000000000c000000010300000000000000";

const ONE_2: &str = "47494f50010202070000000c00000001000000016b000000";

const ONE_3: &str = "47494f50010202070000000c000000010000000570696e67";

const ONE_4: &str = "47494f50010200070000000c000000010000000000000000";

// The same as id 2 and little-endian.
const TWO_1: &str = "47494f50010203000c000000020000000300000000000000";

const TWO_2: &str = "47494f50010203070c00000002000000010000006b000000";

const TWO_3: &str = "47494f50010203070c000000020000000500000070696e67";

const TWO_4: &str = "47494f50010201070c000000020000000000000000000000";

const GATHERING: &str = "1 Asked 0, 2 Gathering 0, ";

const PIECES: [(&str, &str); 8] = [
    (ONE_1, "1 Gathering 0, "),
    (ONE_2, "1 Gathering 0, "),
    (ONE_3, "1 Gathering 0, "),
    (ONE_4, "1 Asked 0, "),
    (TWO_1, GATHERING),
    (TWO_2, GATHERING),
    (TWO_3, GATHERING),
    (TWO_4, "1 Asked 0, 2 Asked 0, "),
];

// The Reply without outs to id 2, little-endian.
const DONE_2_LITTLE: &str = "47494f50010201010c000000020000000000000000000000";

#[test]
fn want_of_memory_at_a_server_loses_nothing(rt: HostRuntime) -> Result<(), Fail> {
    let alloc = rt.alloc();
    let interface = interface_at_last(alloc)?;
    let mut end = ServerEnd::new(alloc, &interface, Limits::default());
    if !hears_all(&rt, alloc, &mut end, &PIECES).ok_or("no memory")? {
        return Ok(());
    }
    let first = Server::Answer(1, &[], Big);
    server_does(&rt, alloc, &mut end, first).ok_or("no memory")?;
    let second = Server::Answer(2, &[], Little);
    server_does(&rt, alloc, &mut end, second).ok_or("no memory")?;
    let entries = server_entries_at_last(alloc, &end).ok_or("no memory")?;
    assert_eq!(rt; entries.as_str(), "1 Answered 0, 2 Answered 0, ");
    let outgoing = outgoing_at_last(alloc, &end).ok_or("no memory")?;
    assert!(rt; is_both(&outgoing, DONE_1, DONE_2_LITTLE));
    Ok(())
}

// The text is that of the one and then of the other.
fn is_both(text: &str, one: &str, other: &str) -> bool {
    match text.strip_prefix(one) {
        Some(rest) => rest == other,
        None => false,
    }
}

// The client does each of these, and puts that beside it out.
fn client_does_all(
    rt: &impl Abort,
    alloc: Global,
    end: &mut ClientEnd<'_>,
    rows: &[(Client, &'static str)],
) -> Option<()> {
    for (what, puts) in rows {
        client_does(rt, alloc, end, *what)?;
        assert_eq!(rt; outgoing_at_last(alloc, end)?.as_str(), *puts);
        let n = end.outgoing().len();
        end.wrote(n);
    }
    Some(())
}

#[test]
fn want_of_memory_at_a_client_loses_nothing(rt: HostRuntime) -> Result<(), Fail> {
    let alloc = rt.alloc();
    let interface = interface_at_last(alloc)?;
    let mut end = ClientEnd::new(alloc, &interface, Limits::default());
    let rows = [
        (Client::Ping, ONE_1),
        (Client::Locate, LOCATE_1),
        (Client::Send(1), ONE_2),
        (Client::Send(1), ONE_3),
        (Client::Send(6), LOCATE_2),
        (Client::Send(1), ONE_4),
        (Client::Cancel(1), CANCEL_1),
    ];
    client_does_all(&rt, alloc, &mut end, &rows).ok_or("no memory")?;
    let entries = client_entries_at_last(alloc, &end).ok_or("no memory")?;
    assert_eq!(rt; entries.as_str(), "1 Cancelled 0, 6 Waiting 0, ");
    Ok(())
}

// `add` of 2 and 5, as id 4.
const ADD: &str =
    "47494f50010200000000002c000000040300000000000000000000016b000000000000046164640000000000000000000000000200000005";

// Most of these are refused, and change nothing.
const INPUTS: [Server; 10] = [
    Server::Hear(ADD),
    Server::Answer(5, &[7], Big),
    Server::Here(4),
    Server::Send(4),
    Server::Take(4),
    Server::Answer(4, &[7], Big),
    Server::Take(4),
    Server::Send(4),
    Server::Take(4),
    Server::Take(4),
];

fn server_ran<'a>(
    alloc: Global,
    interface: &'a Interface,
) -> Option<(ServerEnd<'a>, Vec<Answered<ServerEntry>>)> {
    let mut given = Vec::new(alloc);
    for what in INPUTS {
        given.push(server_input(alloc, what)?).ok()?;
    }
    run_server(alloc, interface, Limits::default(), given).ok()
}

// Makes a run once more where it had no memory: no second allocation is refused.
fn server_ran_at_last<'a>(
    alloc: Global,
    interface: &'a Interface,
) -> Option<(ServerEnd<'a>, Vec<Answered<ServerEntry>>)> {
    match server_ran(alloc, interface) {
        Some(run) => Some(run),
        None => server_ran(alloc, interface),
    }
}

fn wants_memory(answered: &Answered<ServerEntry>) -> bool {
    matches!(answered, Answered::Refused(SessionFault::NoMemory))
}

// With any one allocation refused a run returns nothing, or all of it.
#[test]
fn a_run_gives_all_back_or_nothing(rt: HostRuntime) -> Result<(), Fail> {
    let alloc = rt.alloc();
    let interface = interface_at_last(alloc)?;
    let (end, answers) = server_ran_at_last(alloc, &interface).ok_or("no memory")?;
    assert_eq!(rt; answers.len(), INPUTS.len());
    assert!(rt; !answers.iter().any(|answered| wants_memory(answered)));
    assert_eq!(rt; end.fault(), None);
    Ok(())
}
