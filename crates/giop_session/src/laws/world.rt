//! A client's end and a server's end that hear one another, and what happens between them
//! (`run_world`). Its meaning is `WorldRuns`, `GoesBy` and `AreJoined` in specs/Worlds/World.antt, and
//! `Agreed` and `FailsByLimits` in specs/Worlds/Agreement.antt: change both.
ghost use Rattle.std.specs.Prelude.{◌≡◌, ◌≤◌, ◌^◌, IfOk, length, None, take, drop};
ghost use Rattle.giop_session.specs.Worlds.Agreement.{Agreed, FailsByLimits};
ghost use Rattle.giop_session.specs.Worlds.World.{AreJoined, ArriveAtClient, ArriveAtServer, AtClient, AtServer, IsStep, ends_of, GoesBy, returned_for, WorldRuns};

use super::inputs::{Answered, ClientInput, ServerInput, WorldEvent};
use super::running::{Driven, feed_to, take_all};
use super::two_ends::two_ends_agree;
use giop_calls::{ClientRule, ServerRule};
use giop_end::{ClientEnd, End, Limits, ServerEnd, SessionFault};
use giop_types::Interface;
use std::alloc::{AllocError, Global};

/// A client's end and a server's end of one connection. What is outgoing at one is on its way to
/// the other.
#[derive(Drop)]
pub struct World<'a> {
    /// The client's end.
    pub client: ClientEnd<'a>,
    /// The server's end.
    pub server: ServerEnd<'a>,
}

/// Makes both ends, and lets these events happen, one after another. What is returned for each is
/// whether the end did it, or why it refused. A world continues after a refusal, also after one
/// that fails an end, which then refuses all that is left; what arrives at it is lost.
///
/// Each end of a world is what `run_client` or `run_server` makes of some inputs, so all that these
/// say of an end holds of it. What the one put out is what the other was fed, octet for octet, and
/// behind it what is still on its way: whole messages, of kinds that its side sends.
///
/// The ends agree, where neither failed. Once nothing is outgoing, each id has the same outcome at
/// both. At any time, a Reply that the client has is the one that the server gave to that very
/// Request, and a LocateReply likewise. And an end fails for its own limits alone: at a message
/// that is too large, for want of a free id or of room to gather.
///
/// `alloc` gives the memory of the ends and of what is returned for the events. Where it is out of
/// memory, AllocError is returned in place of both.
pub fn run_world<'a>(
    alloc: Global,
    interface: &'a Interface,
    client_limits: Limits,
    server_limits: Limits,
    schedule: Vec<WorldEvent>,
) -> Result<(World<'a>, Vec<Result<(), SessionFault>>), AllocError>
    requires client { client_limits.gathered ≤ 2 ^ 62 }
    requires server { server_limits.gathered ≤ 2 ^ 62 }
    ensures value { IfOk result (λ run. WorldRuns interface.now client_limits server_limits
        schedule.items run.1.items (ends_of run.0)) }
    ensures same { IfOk result (λ run.
        GoesBy interface.now client_limits server_limits run.0) }
    ensures joined { IfOk result (λ run.
        AreJoined interface.now client_limits server_limits (ends_of run.0)) }
    ensures agreed { IfOk result (λ run. (ends_of run.0).client.fault ≡ None
        → (ends_of run.0).server.fault ≡ None → Agreed (ends_of run.0)) }
    ensures fails { IfOk result (λ run.
        FailsByLimits client_limits server_limits (ends_of run.0)) }
{
    two_ends_agree();
    let mut world = World {
        client: End::<ClientRule>::new(alloc, interface, client_limits),
        server: End::<ServerRule>::new(alloc, interface, server_limits),
    };
    let returned = take_all(alloc, &mut world, schedule)?;
    Ok((world, returned))
}

impl<'a> Driven for World<'a> {
    ghost use Rattle.giop_session.specs.Worlds.World.{ends_of, GoesBy, Happens};

    type Input = WorldEvent;

    type Answer = Result<(), SessionFault>;

    ghost is_given = { λ world event returned after. IsStep (λ interface client server w. Happens
        interface client server w event returned) world after };

    fn take_input(&mut self, event: WorldEvent) -> Result<Result<(), SessionFault>, AllocError> {
        match event {
            WorldEvent::Call { request, form } => {
                at_client(self, ClientInput::Call { request, form })
            }
            WorldEvent::Locate { request, form } => {
                at_client(self, ClientInput::Locate { request, form })
            }
            WorldEvent::Cancel { id, order } => at_client(self, ClientInput::Cancel { id, order }),
            WorldEvent::SendClient(id) => at_client(self, ClientInput::Send(id)),
            WorldEvent::Answer { reply, form } => at_server(
                self,
                ServerInput::Answer { reply, form },
            ),
            WorldEvent::AnswerLocate { id, here, order } => {
                at_server(self, ServerInput::AnswerLocate { id, here, order })
            }
            WorldEvent::SendServer(id) => at_server(self, ServerInput::Send(id)),
            WorldEvent::ToServer(n) => to_server(self, n),
            WorldEvent::ToClient(n) => to_client(self, n),
        }
    }
}

// The client's program does something at its end.
fn at_client(
    world: &mut World<'_>,
    given: ClientInput,
) -> Result<Result<(), SessionFault>, AllocError>
    ensures { IfOk result (λ returned. IsStep (λ interface client server w. AtClient interface client
        server w given returned) world.old world.new) }
{
    Ok(result_of(world.client.take_input(given)?))
}

// The server's program does something at its end.
fn at_server(
    world: &mut World<'_>,
    given: ServerInput,
) -> Result<Result<(), SessionFault>, AllocError>
    ensures { IfOk result (λ returned. IsStep (λ interface client server w. AtServer interface client
        server w given returned) world.old world.new) }
{
    Ok(result_of(world.server.take_input(given)?))
}

// Up to so many octets that the client put out arrive at the server's end.
fn to_server(world: &mut World<'_>, n: usize) -> Result<Result<(), SessionFault>, AllocError>
    ensures { IfOk result (λ returned. IsStep (λ interface client server w. ArriveAtServer interface
        client server w n returned) world.old world.new) }
{
    let octets = front(world.client.outgoing(), n);
    let count = octets.len();
    let answered = feed_to(&mut world.server, octets)?;
    world.client.wrote(count);
    Ok(result_of(answered))
}

// Up to so many octets that the server put out arrive at the client's end.
fn to_client(world: &mut World<'_>, n: usize) -> Result<Result<(), SessionFault>, AllocError>
    ensures { IfOk result (λ returned. IsStep (λ interface client server w. ArriveAtClient interface
        client server w n returned) world.old world.new) }
{
    let octets = front(world.server.outgoing(), n);
    let count = octets.len();
    let answered = feed_to(&mut world.client, octets)?;
    world.server.wrote(count);
    Ok(result_of(answered))
}

// Up to so many octets, the first of these.
fn front(octets: &[u8], n: usize) -> &[u8]
    ensures value { result.now ≡ take n octets.now }
    ensures within { length result.now ≤ length octets.now }
    ensures rest { drop (length result.now) octets.now ≡ drop n octets.now }
{
    &octets[..n.min(octets.len())]
}

// Whether an end did what it was given, or why it refused.
fn result_of<E: Drop>(answered: Answered<E>) -> Result<(), SessionFault>
    ensures { result ≡ returned_for answered }
{
    match answered {
        Answered::Done | Answered::Taken(_) => Ok(()),
        Answered::Refused(why) => Err(why),
    }
}
