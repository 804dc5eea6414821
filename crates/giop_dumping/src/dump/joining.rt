//! The Requests in pieces of a file, joined by their ids (CORBA 3.3 Part 2, 9.4.9). What each
//! message does is specs/Dump/Joining.antt: change both.
ghost use Rattle.std.specs.Prelude.{◌≡◌, ◌≢◌, ◌^◌, ◌≤◌, None, length, IfOk, OnOk};
ghost use Rattle.std.specs.FinMap as finite;
ghost use Rattle.giop_ids.specs.ById.{put};
ghost use Rattle.giop_msg.specs.RequestId.{request_id_of};
ghost use Rattle.giop_dumping.specs.Dump.Joining.{begun, brought_of, first_fault, first_piece, fragment_fault, gone_on, last_piece, lists_by, next_piece, piece_by, unjoined};

use giop_frag::{Gather, GatherFault};
use giop_msg::{Kind, Msg};
use giop_show::failure::Failure;

/// What is told of a message as a piece of a Request.
#[derive(Debug, Drop)]
pub enum Piece {
    /// Nothing: more is to come, or it is no piece of a Request that is gathered.
    Untold,
    /// It isn't joined, and what was gathered under its id is dropped.
    Unjoined(GatherFault),
    /// It is the last one: the Request, whose payload is the joined octets.
    Joined(Msg),
}

/// Gathers what a message of a file brings to a Request, within the gatherer's limit.
///
/// - The first piece of a Request begins what is gathered under its id.
/// - A Fragment goes on with it; the last one ends it, and the Request is returned.
/// - A piece that isn't joined ends it too, and so does any other message that names the id.
///
/// It fails only where it is out of memory.
pub fn join(gather: &mut Gather, message: &Msg) -> Result<Piece, Failure>
    requires { length message.now.payload ≤ 2 ^ 62 }
    ensures value { IfOk result (λ piece. piece ≡ piece_by gather.old.limit gather.old.lists
        message.now (request_id_of message.now)) }
    ensures lists { OnOk result (gather.new.lists ≡ lists_by gather.old.limit gather.old.lists
        message.now (request_id_of message.now)) }
    ensures limit { gather.new.limit ≡ gather.old.limit }
{
    let Some(Ok(id)) = message.request_id() else {
        return Ok(Piece::Untold);
    };
    match message.kind {
        Kind::Request if message.more => begin(gather, id, message),
        Kind::Fragment => go_on(gather, id, message),
        _ => {
            gather.discard(id);
            Ok(Piece::Untold)
        }
    }
}

// Begins what is gathered under an id with the first piece of a Request.
fn begin(gather: &mut Gather, id: u32, message: &Msg) -> Result<Piece, Failure>
    ensures value { IfOk result (λ piece. piece
        ≡ first_piece (first_fault gather.old.limit gather.old.lists id message.now)) }
    ensures lists { OnOk result (gather.new.lists ≡ put gather.old.lists id
        (begun message.now (first_fault gather.old.limit gather.old.lists id message.now))) }
    ensures limit { gather.new.limit ≡ gather.old.limit }
{
    gather.discard(id);
    match gather.begin(id, message.order, message.payload.as_slice()) {
        Ok(()) => Ok(Piece::Untold),
        Err(fault) => unjoined(fault),
    }
}

// Joins what a Fragment brings to what is gathered under its id.
fn go_on(gather: &mut Gather, id: u32, message: &Msg) -> Result<Piece, Failure>
    ensures value { IfOk result (λ piece. piece ≡ next_piece message.now
        (fragment_fault gather.old.limit gather.old.lists id message.now)
        (finite.get gather.old.lists id)) }
    ensures lists { OnOk result (gather.new.lists ≡ put gather.old.lists id (gone_on message.now
        (fragment_fault gather.old.limit gather.old.lists id message.now)
        (finite.get gather.old.lists id))) }
    ensures limit { gather.new.limit ≡ gather.old.limit }
{
    match gather.add(id, message.order, brought(message)) {
        Ok(()) if message.more => Ok(Piece::Untold),
        Ok(()) => finish(gather, id, message),
        Err(fault) => {
            gather.discard(id);
            unjoined(fault)
        }
    }
}

// The octets behind the request id of a Fragment.
fn brought(message: &Msg) -> &[u8]
    ensures { result.now ≡ brought_of message.now }
{
    let octets = message.payload.as_slice();
    &octets[octets.len().min(4)..]
}

// Takes out what is gathered under an id, as the Request whose last piece this message is.
fn finish(gather: &mut Gather, id: u32, message: &Msg) -> Result<Piece, Failure>
    ensures value { IfOk result (λ piece. piece
        ≡ last_piece message.now (finite.get gather.old.lists id)) }
    ensures lists { OnOk result (gather.new.lists ≡ put gather.old.lists id None) }
    ensures limit { gather.new.limit ≡ gather.old.limit }
{
    match gather.finish(id) {
        Ok((order, payload)) => Ok(Piece::Joined(Msg {
            version: message.version,
            order,
            more: false,
            kind: Kind::Request,
            payload,
        })),
        // An id to which a piece was joined has octets.
        Err(_) => Err(Failure::Memory),
    }
}

// What is told of a piece that isn't joined.
fn unjoined(fault: GatherFault) -> Result<Piece, Failure>
    ensures value { IfOk result (λ piece. piece ≡ unjoined fault) }
    ensures memory { OnOk result (fault ≢ GatherFault.NoMemory) }
{
    match fault {
        GatherFault::NoMemory => Err(Failure::Memory),
        GatherFault::Stray => Ok(Piece::Untold),
        fault => Ok(Piece::Unjoined(fault)),
    }
}
