//! A client's end and a server's end, joined by what each puts out, step by step.
use super::clients::{Client, at_client, client_end};
use super::interfaces::interface;
use super::messages::{form, locate_request, reply, request};
use super::servers::{Server, at_server, server_end};
use super::shown::{client_table, server_table, shown_outcome, told};
use giop_msg::Version;
use giop_session::laws::{CheckedForm, WorldEvent, run_world};
use giop_session::{ClientEnd, End, Hearing, Limits, ServerEnd, SessionFault};
use giop_types::Interface;
use std::alloc::Global;
use std::process::Abort;
use std::test::Fail;

/// What is done at one of two ends.
#[derive(Clone, Copy)]
pub enum Step {
    AtClient(Client),
    AtServer(Server),
    /// So many octets that the client puts out come to the server, in one read.
    ToServer(usize),
    /// And as many that the server puts out to the client.
    ToClient(usize),
}

/// What is done, and what that tells: nothing where it isn't refused.
pub type JoinedRow = (Step, &'static str);

/// What stands in the end: the tables of the client and of the server, and what the call of an id
/// came to at both.
pub type Standing = (&'static str, &'static str, u32, &'static str, &'static str);

fn hand_over<A: Hearing, B: Hearing>(
    from: &mut End<'_, A>,
    to: &mut End<'_, B>,
    n: usize,
) -> Result<(), SessionFault> {
    let n = n.min(from.outgoing().len());
    let told = to.feed(&from.outgoing()[..n]);
    from.wrote(n);
    told
}

fn goes(
    rt: &impl Abort,
    alloc: Global,
    client: &mut ClientEnd<'_>,
    server: &mut ServerEnd<'_>,
    i: usize,
    row: &JoinedRow,
) -> Option<()> {
    let answer = match row.0 {
        Step::AtClient(what) => at_client(alloc, client, what)?,
        Step::AtServer(what) => at_server(alloc, server, what)?,
        Step::ToServer(n) => hand_over(client, server, n),
        Step::ToClient(n) => hand_over(server, client, n),
    };
    assert_eq!(rt; told(alloc, answer)?.as_str(), row.1, "at row {i}");
    Some(())
}

fn all_go(
    rt: &impl Abort,
    alloc: Global,
    client: &mut ClientEnd<'_>,
    server: &mut ServerEnd<'_>,
    rows: &[JoinedRow],
) -> Option<()> {
    for (i, row) in rows.iter().enumerate() {
        goes(rt, alloc, client, server, i, row)?;
    }
    Some(())
}

fn stands(
    rt: &impl Abort,
    alloc: Global,
    client: &ClientEnd<'_>,
    server: &ServerEnd<'_>,
    standing: Standing,
) -> Option<()> {
    let (at_client, at_server, id, client_came_to, server_came_to) = standing;
    assert_eq!(rt; client_table(alloc, client)?.as_str(), at_client);
    assert_eq!(rt; server_table(alloc, server)?.as_str(), at_server);
    assert_eq!(rt;
        shown_outcome(alloc, client.outcome(id))?.as_str(),
        client_came_to
    );
    assert_eq!(rt;
        shown_outcome(alloc, server.outcome(id))?.as_str(),
        server_came_to
    );
    Some(())
}

// What a client does, as an event of a world; none where it is no such event.
fn client_event(alloc: Global, what: Client) -> Option<WorldEvent> {
    Some(match what {
        Client::Call(asks, order, piece) => WorldEvent::Call {
            request: request(alloc, asks).ok()?,
            form: CheckedForm {
                form: form(order, piece),
            },
        },
        Client::Locate(version, id, order, piece) => WorldEvent::Locate {
            request: locate_request(alloc, version, id).ok()?,
            form: CheckedForm {
                form: form(order, piece),
            },
        },
        Client::Cancel(id, order) => WorldEvent::Cancel { id, order },
        Client::Send(id) => WorldEvent::SendClient(id),
        Client::Hear(_) | Client::Close | Client::Take(_) => return None,
    })
}

// The same of a server.
fn server_event(alloc: Global, what: Server) -> Option<WorldEvent> {
    let (version, id, body, order, piece) = match what {
        Server::Answer(id, body, order, piece) => (Version::V12, id, body, order, piece),
        Server::AnswerIn(version, id, body, order, piece) => (version, id, body, order, piece),
        Server::AnswerLocate(id, here, order) => {
            return Some(WorldEvent::AnswerLocate { id, here, order });
        }
        Server::Send(id) => return Some(WorldEvent::SendServer(id)),
        Server::Hear(_) | Server::Close | Server::Take(_) => return None,
    };
    Some(WorldEvent::Answer {
        reply: reply(alloc, version, id, body).ok()?,
        form: CheckedForm {
            form: form(order, piece),
        },
    })
}

fn event(alloc: Global, step: Step) -> Option<WorldEvent> {
    match step {
        Step::AtClient(what) => client_event(alloc, what),
        Step::AtServer(what) => server_event(alloc, what),
        Step::ToServer(n) => Some(WorldEvent::ToServer(n)),
        Step::ToClient(n) => Some(WorldEvent::ToClient(n)),
    }
}

// Whether a step is one that may happen in a world.
fn happens(row: &JoinedRow) -> bool {
    !matches!(
        row.0,
        Step::AtClient(Client::Hear(_) | Client::Close | Client::Take(_))
            | Step::AtServer(Server::Hear(_) | Server::Close | Server::Take(_))
    )
}

// The same steps as a schedule: `run_world` tells the same of each, and leaves the same.
fn world_stands(
    rt: &impl Abort,
    alloc: Global,
    interface: &Interface,
    limits: Limits,
    rows: &[JoinedRow],
    standing: Standing,
) -> Option<()> {
    let mut schedule = Vec::new(alloc);
    for row in rows {
        schedule.push(event(alloc, row.0)?).ok()?;
    }
    let gathered = limits.gathered.min(1 << 62);
    let limits = Limits { gathered, ..limits };
    let (world, answers) = run_world(alloc, interface, Limits::default(), limits, schedule).ok()?;
    assert_eq!(rt; answers.len(), rows.len());
    for (i, (answer, row)) in answers.iter().zip(rows).enumerate() {
        assert_eq!(rt; told(alloc, *answer)?.as_str(), row.1, "at event {i}");
    }
    stands(rt, alloc, &world.client, &world.server, standing)
}

/// All this, in turn, at two ends without calls, of which the server has these limits; and then
/// this stands. So it does where all this is the schedule of a world.
pub fn ends_as(
    rt: &impl Abort,
    alloc: Global,
    limits: Limits,
    rows: &[JoinedRow],
    standing: Standing,
) -> Result<(), Fail> {
    let interface = interface(alloc)?;
    let mut client = client_end(alloc, &interface, Limits::default());
    let mut server = server_end(alloc, &interface, limits);
    all_go(rt, alloc, &mut client, &mut server, rows).ok_or("no memory")?;
    stands(rt, alloc, &client, &server, standing).ok_or("no memory")?;
    if rows.iter().all(happens) {
        world_stands(rt, alloc, &interface, limits, rows, standing).ok_or("no memory")?;
    }
    Ok(())
}
