//! The further pieces of a call or of an answer (CORBA 3.3 Part 2, 9.4.9), put out one at a time by
//! either end, as acts on the parts of an end that hasn't failed. Its meaning is `PutsNext` in
//! specs/Acts/InPieces.antt: change both.
ghost use Rattle.std.specs.Prelude.{◌≡◌, Err, is_ok, IsOk};
ghost use Rattle.giop_table.specs.CallTable.{entry_at};
ghost use Rattle.giop_end.specs.declared.session_fault.SessionFault.TheVariants.{NoMemory};
ghost use Rattle.giop_end.specs.Acts.InPieces.{PutsNext};

use crate::acts::local::act_result;
use crate::acts::outgoing::Outgoing;
use crate::acts::putting::put;
use crate::hearing::Hearing;
use crate::session_fault::SessionFault;
use giop_calls::{
    CallFault, ClientEntry, ClientEvent, ClientRule, ServerEntry, ServerEvent, ServerRule,
};
use giop_mux::{CallRule, Side};
use giop_table::{CallTable, Plan, Planned};

/// A side whose program sends messages in pieces: a client its calls, a server its Replies.
pub trait SendsPieces: Hearing<Answer = (), Fault = CallFault> {
    ghost use Rattle.std.specs.Prelude.{◌≡◌, Some, is_ok};
    ghost use Rattle.giop_end.specs.Acts.InPieces.{SendsBy};

    ghost sends: { Self.Event };

    /// The event by which the next piece is sent.
    fn next_piece() -> Self::Event
        ensures { result ≡ sends };

    /// Whether a piece of the message of a call with this entry is left to be sent. It takes no
    /// memory.
    fn has_piece(entry: &Self::Entry) -> bool
        ensures { (rule : _) → result
            ≡ is_ok (⟦<Self as CallRule>⟧.next rule (Some entry.now) sends).outcome };

    // The rule accepts that event where a piece is left.
    ghost sends_by: { (side : Self) → SendsBy (⟦<Self as CallRule>⟧.next side)
        ⟦<Self as Side>⟧.gathering sends };
}

impl SendsPieces for ClientRule {
    ghost use Rattle.giop_calls.specs.declared.client.event.ClientEvent.TheVariants.{Send};
    ghost use Rattle.giop_end.specs.Acts.InPieces.{client_sends};

    ghost sends = { Send };

    ghost sends_by = { λ rule. client_sends };

    fn next_piece() -> ClientEvent {
        ClientEvent::Send
    }

    fn has_piece(entry: &ClientEntry) -> bool {
        matches!(entry, ClientEntry::Sending { .. })
    }
}

impl SendsPieces for ServerRule {
    ghost use Rattle.giop_calls.specs.declared.server.event.ServerEvent.TheVariants.{Send};
    ghost use Rattle.giop_end.specs.Acts.InPieces.{server_sends};

    ghost sends = { Send };

    ghost sends_by = { λ rule. server_sends };

    fn next_piece() -> ServerEvent {
        ServerEvent::Send
    }

    #[tactic(auto, using(crate::proofs::OnActs::LastLemmas::server_has_piece))]
    fn has_piece(entry: &ServerEntry) -> bool {
        entry.left() != 0
    }
}

/// Puts out the next piece of the message of an id at an end that hasn't failed, of which these are
/// parts, as `End::send`.
#[tactic(auto, using(crate::proofs::OnActs::ActedLemmas::acted, crate::proofs::OnActs::QuietLemmas::piece_quiet, crate::proofs::OnActs::LastLemmas::sends_none))]
pub fn send<R: SendsPieces>(
    calls: &mut CallTable<R>,
    outgoing: &mut Outgoing,
    id: u32,
) -> Result<(), SessionFault>
    ensures last { result ≡ Err NoMemory
        → IsOk (R.next calls.old.rule (entry_at calls.old id) R.sends).outcome }
    ensures sent { PutsNext R.Side R.sends id calls.old outgoing.old result calls.new outgoing.new }
{
    if !has_piece(calls, id) {
        let fault = CallFault::NothingToSend;
        return Err(SessionFault::Call { id, fault });
    }
    let planned = Planned {
        event: R::next_piece(),
        plan: Plan::Next,
    };
    act_result(id, put(calls, outgoing, id, planned))
}

// Whether a piece of the message of an id is left to be sent.
fn has_piece<R: SendsPieces>(calls: &CallTable<R>, id: u32) -> bool
    ensures { result ≡ is_ok (R.next calls.now.rule (entry_at calls.now id) R.sends).outcome }
{
    match calls.slot(id) {
        Some(slot) => R::has_piece(&slot.entry),
        None => false,
    }
}
