//! A list of inputs that an end is given: what it answers to each, what it puts out, and what
//! stands at it then.
use super::clients::Client;
use super::interfaces::interface;
use super::memory::interface_at_last;
use super::messages::{
    ADD as ASKS_ADD, NOTHING, PING as ASKS_PING, SEVEN, form, locate_request, reply, request,
};
use super::octets::{
    ADD, CANCEL_4, CLOSE, DONE_1, ERROR, HERE_6, LOCATE, LOCATE_1, LOCATE_2, ONE_1, ONE_2, ONE_3,
    ONE_4, PING, SEVEN_4, SEVEN_4_1, SEVEN_4_2, TWO_1, TWO_2, TWO_3, TWO_4,
};
use super::servers::Server;
use super::shown::{client_table, server_table, write_client_entry, write_server_entry, written};
use giop_calls::{ClientEntry, ServerEntry};
use giop_cdr::OctetList;
use giop_cdr::Order::{Big, Little};
use giop_msg::Version;
use giop_session::laws::{Answered, CheckedForm, ClientInput, ServerInput, run_client, run_server};
use giop_session::{ClientEnd, Limits, ServerEnd, SessionFault};
use giop_types::Interface;
use std::alloc::Global;
use std::fmt::Write;
use std::process::Abort;
use std::test::Fail;

/// The inputs; what is answered to each, each behind the one before; what is put out, in
/// hexadecimal digits; and the table that is left.
type ServerRun = (
    &'static [Server],
    &'static str,
    &'static [&'static str],
    &'static str,
);

type ClientRun = (
    &'static [Client],
    &'static str,
    &'static [&'static str],
    &'static str,
);

fn octets(alloc: Global, digits: &str) -> Option<OctetList> {
    let octets = hex::decode(alloc, digits).ok()?;
    OctetList::from_slice(alloc, &octets).ok()
}

fn server_input(alloc: Global, what: Server) -> Option<ServerInput> {
    Some(match what {
        Server::Hear(digits) => ServerInput::Feed(octets(alloc, digits)?),
        Server::Answer(id, body, order, piece) => ServerInput::Answer {
            reply: reply(alloc, Version::V12, id, body).ok()?,
            form: CheckedForm {
                form: form(order, piece),
            },
        },
        Server::AnswerIn(version, id, body, order, piece) => ServerInput::Answer {
            reply: reply(alloc, version, id, body).ok()?,
            form: CheckedForm::check(form(order, piece))?,
        },
        Server::AnswerLocate(id, here, order) => ServerInput::AnswerLocate { id, here, order },
        Server::Send(id) => ServerInput::Send(id),
        Server::Take(id) => ServerInput::Take(id),
        Server::Close => ServerInput::Close,
    })
}

fn client_input(alloc: Global, what: Client) -> Option<ClientInput> {
    Some(match what {
        Client::Hear(digits) => ClientInput::Feed(octets(alloc, digits)?),
        Client::Call(asks, order, piece) => ClientInput::Call {
            request: request(alloc, asks).ok()?,
            form: CheckedForm {
                form: form(order, piece),
            },
        },
        Client::Locate(version, id, order, piece) => ClientInput::Locate {
            request: locate_request(alloc, version, id).ok()?,
            form: CheckedForm {
                form: form(order, piece),
            },
        },
        Client::Cancel(id, order) => ClientInput::Cancel { id, order },
        Client::Send(id) => ClientInput::Send(id),
        Client::Take(id) => ClientInput::Take(id),
        Client::Close => ClientInput::Close,
    })
}

fn server_answers(alloc: Global, answers: &[Answered<ServerEntry>]) -> Option<String> {
    let mut text = String::new(alloc);
    for answered in answers {
        match answered {
            Answered::Done => text.push_str("done").ok()?,
            Answered::Taken(None) => text.push_str("nothing").ok()?,
            Answered::Taken(Some(entry)) => write_server_entry(&mut text, entry).ok()?,
            Answered::Refused(fault) => write!(text, "{fault}").ok()?,
        }
        text.push_str(", ").ok()?;
    }
    Some(text)
}

fn client_answers(alloc: Global, answers: &[Answered<ClientEntry>]) -> Option<String> {
    let mut text = String::new(alloc);
    for answered in answers {
        match answered {
            Answered::Done => text.push_str("done").ok()?,
            Answered::Taken(None) => text.push_str("nothing").ok()?,
            Answered::Taken(Some(entry)) => write_client_entry(&mut text, entry).ok()?,
            Answered::Refused(fault) => write!(text, "{fault}").ok()?,
        }
        text.push_str(", ").ok()?;
    }
    Some(text)
}

fn all(alloc: Global, texts: &[&str]) -> Option<String> {
    let mut text = String::new(alloc);
    for one in texts {
        text.push_str(one).ok()?;
    }
    Some(text)
}

fn server_ran<'a>(
    alloc: Global,
    interface: &'a Interface,
    inputs: &[Server],
) -> Option<(ServerEnd<'a>, Vec<Answered<ServerEntry>>)> {
    let mut given = Vec::new(alloc);
    for what in inputs {
        given.push(server_input(alloc, *what)?).ok()?;
    }
    run_server(alloc, interface, Limits::default(), given).ok()
}

fn client_ran<'a>(
    alloc: Global,
    interface: &'a Interface,
    inputs: &[Client],
) -> Option<(ClientEnd<'a>, Vec<Answered<ClientEntry>>)> {
    let mut given = Vec::new(alloc);
    for what in inputs {
        given.push(client_input(alloc, *what)?).ok()?;
    }
    run_client(alloc, interface, Limits::default(), given).ok()
}

fn server_runs(
    rt: &impl Abort,
    alloc: Global,
    interface: &Interface,
    i: usize,
    row: &ServerRun,
) -> Option<()> {
    let (mut end, answers) = server_ran(alloc, interface, row.0)?;
    assert_eq!(rt;
        server_answers(alloc, &answers)?.as_str(),
        row.1,
        "at row {i}"
    );
    assert_eq!(rt;
        written(alloc, &mut end)?.as_str(),
        all(alloc, row.2)?.as_str(),
        "at row {i}"
    );
    assert_eq!(rt; server_table(alloc, &end)?.as_str(), row.3, "at row {i}");
    Some(())
}

fn client_runs(
    rt: &impl Abort,
    alloc: Global,
    interface: &Interface,
    i: usize,
    row: &ClientRun,
) -> Option<()> {
    let (mut end, answers) = client_ran(alloc, interface, row.0)?;
    assert_eq!(rt;
        client_answers(alloc, &answers)?.as_str(),
        row.1,
        "at row {i}"
    );
    assert_eq!(rt;
        written(alloc, &mut end)?.as_str(),
        all(alloc, row.2)?.as_str(),
        "at row {i}"
    );
    assert_eq!(rt; client_table(alloc, &end)?.as_str(), row.3, "at row {i}");
    Some(())
}

const SERVER_RUNS: [ServerRun; 7] = [
    (&[], "", &[], "open"),
    // Two calls in Fragments of either byte order, interleaved.
    (
        &[
            Server::Hear(ONE_1),
            Server::Hear(TWO_1),
            Server::Hear(ONE_2),
            Server::Hear(TWO_2),
            Server::Hear(TWO_3),
            Server::Hear(ONE_3),
            Server::Hear(TWO_4),
            Server::Hear(ONE_4),
            Server::Answer(1, NOTHING, Big, 24),
            Server::Take(1),
        ],
        "done, done, done, done, done, done, done, done, done, Answered 0 left 0, ",
        &[DONE_1],
        "2 Asked ping, open",
    ),
    // The same calls, one in one piece, cut into other reads.
    (
        &[
            Server::Hear(TWO_1),
            Server::Hear(TWO_2),
            Server::Hear("47494f5001020000000000240000000103000000"),
            Server::Hear("00000000000000016b0000000000000570696e670000000000000000"),
            Server::Answer(1, NOTHING, Big, 24),
            Server::Hear(TWO_3),
            Server::Take(1),
            Server::Hear(TWO_4),
        ],
        "done, done, done, done, done, done, Answered 0 left 0, done, ",
        &[DONE_1],
        "2 Asked ping, open",
    ),
    // What is refused changes nothing, and the run goes on.
    (
        &[
            Server::Hear(ADD),
            Server::Answer(5, SEVEN, Big, 24),
            Server::AnswerLocate(4, true, Big),
            Server::Send(4),
            Server::Take(4),
            Server::AnswerIn(Version::V10, 4, SEVEN, Big, 24),
            Server::Answer(4, SEVEN, Big, 24),
            Server::Take(4),
            Server::Send(4),
            Server::Take(4),
            Server::Take(4),
        ],
        "done, call 5: NotOpen, call 4: WrongKind, call 4: NothingToSend, the call is open, \
call 4: Unfit, done, the call is open, done, Answered 0 7 left 0, nothing, ",
        &[SEVEN_4_1, SEVEN_4_2],
        "open",
    ),
    (
        &[
            Server::Hear(LOCATE),
            Server::AnswerLocate(6, true, Big),
            Server::Hear(ADD),
            Server::Hear(CANCEL_4),
        ],
        "done, done, done, done, ",
        &[HERE_6],
        "4 Cancelled false 0, 6 Here, open",
    ),
    // A fault of the peer fails the end, which refuses all that is left.
    (
        &[
            Server::Hear(ADD),
            Server::Hear(ERROR),
            Server::Answer(4, SEVEN, Big, 24),
            Server::Hear(PING),
            Server::Take(4),
            Server::Close,
        ],
        "done, the peer tells an error, the peer tells an error, the peer tells an error, \
the peer tells an error, the peer tells an error, ",
        &[],
        "4 Asked add 2 5, the peer tells an error",
    ),
    // The program closes the connection.
    (
        &[
            Server::Hear(ADD),
            Server::Answer(4, SEVEN, Big, 32),
            Server::Close,
            Server::Take(4),
            Server::Hear(PING),
        ],
        "done, done, done, the connection is closed, the connection is closed, ",
        &[SEVEN_4, CLOSE],
        "4 Answered 0 7 left 0, the connection is closed",
    ),
];

#[test]
fn a_server_answers_each_input(rt: HostRuntime) -> Result<(), Fail> {
    let alloc = rt.alloc();
    let interface = interface(alloc)?;
    for (i, row) in SERVER_RUNS.iter().enumerate() {
        server_runs(&rt, alloc, &interface, i, row).ok_or("no memory")?;
    }
    Ok(())
}

const CLIENT_RUNS: [ClientRun; 5] = [
    (&[], "", &[], "open"),
    (
        &[
            Client::Call(ASKS_PING, Big, 48),
            Client::Locate(Version::V12, 6, Big, 24),
            Client::Hear(DONE_1),
            Client::Send(6),
            Client::Take(1),
            Client::Hear(HERE_6),
        ],
        "done, done, done, done, Done 0, done, ",
        &[PING, LOCATE_1, LOCATE_2],
        "6 LocateDone 1, open",
    ),
    // What is refused changes nothing, and the run goes on.
    (
        &[
            Client::Call(ASKS_PING, Big, 48),
            Client::Call(ASKS_PING, Little, 48),
            Client::Locate(Version::V12, 1, Big, 24),
            Client::Cancel(4, Big),
            Client::Send(1),
            Client::Take(1),
            Client::Call(ASKS_ADD, Big, 56),
            Client::Cancel(4, Big),
            Client::Hear(DONE_1),
            Client::Take(1),
            Client::Take(1),
        ],
        "done, call 1: IdInUse, call 1: IdInUse, call 4: NotOpen, call 1: NothingToSend, \
the call is open, done, done, done, Done 0, nothing, ",
        &[PING, ADD, CANCEL_4],
        "4 Cancelled None, open",
    ),
    // A message that only a client sends fails the end, which refuses all that is left.
    (
        &[
            Client::Call(ASKS_PING, Big, 48),
            Client::Hear(ADD),
            Client::Call(ASKS_ADD, Big, 48),
            Client::Hear(DONE_1),
        ],
        "done, a message of the wrong direction, a message of the wrong direction, \
a message of the wrong direction, ",
        &[PING],
        "1 Waiting, a message of the wrong direction",
    ),
    (
        &[
            Client::Close,
            Client::Close,
            Client::Call(ASKS_PING, Big, 48),
        ],
        "done, the connection is closed, the connection is closed, ",
        &[CLOSE],
        "the connection is closed",
    ),
];

#[test]
fn a_client_answers_each_input(rt: HostRuntime) -> Result<(), Fail> {
    let alloc = rt.alloc();
    let interface = interface(alloc)?;
    for (i, row) in CLIENT_RUNS.iter().enumerate() {
        client_runs(&rt, alloc, &interface, i, row).ok_or("no memory")?;
    }
    Ok(())
}

// Makes a run once more where it had no memory: no second allocation is refused.
fn server_ran_at_last<'a>(
    alloc: Global,
    interface: &'a Interface,
    inputs: &[Server],
) -> Option<(ServerEnd<'a>, Vec<Answered<ServerEntry>>)> {
    match server_ran(alloc, interface, inputs) {
        Some(run) => Some(run),
        None => server_ran(alloc, interface, inputs),
    }
}

fn wants_memory(answered: &Answered<ServerEntry>) -> bool {
    matches!(answered, Answered::Refused(SessionFault::NoMemory))
}

// With any one allocation refused a run gives nothing back, or all of it.
#[test]
fn a_run_gives_all_back_or_nothing(rt: HostRuntime) -> Result<(), Fail> {
    let alloc = rt.alloc();
    let interface = interface_at_last(alloc)?;
    let inputs = SERVER_RUNS[3].0;
    let (end, answers) = server_ran_at_last(alloc, &interface, inputs).ok_or("no memory")?;
    assert_eq!(rt; answers.len(), inputs.len());
    assert!(rt; !answers.iter().any(|answered| wants_memory(answered)));
    assert_eq!(rt; end.fault(), None);
    Ok(())
}
