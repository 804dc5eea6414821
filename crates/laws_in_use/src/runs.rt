//! Whole runs in use: a server's end and a client's are given octets and acts of their own.
ghost use Rattle.std.specs.Prelude.{◌≡◌, ◌≢◌, ◌⊎◌, ◌++◌, ◌∷◌, [], ℕ, IfOk, List, None, Some};
ghost use Rattle.giop_cdr.specs.declared.fault.CdrKind.TheVariants.{BadCount};
ghost use Rattle.giop_cdr.specs.declared.order.Order.TheVariants.{Big};
ghost use Rattle.giop_types.specs.declared.interfaces.interface.Interface.{Interface as Described};
ghost use Rattle.giop_msg.specs.Msg.{message_octets};
ghost use Rattle.giop_msg.specs.declared.messages.request_fault.RequestFault.TheVariants.{Header};
ghost use Rattle.giop_msg.specs.declared.version.Version.TheVariants.{V10};
ghost use Rattle.giop_ids.specs.Runs.{alone};
ghost use Rattle.giop_calls.specs.ClientItems.{client_turn};
ghost use Rattle.giop_calls.specs.ClientStanding as client_latest;
ghost use Rattle.giop_calls.specs.ServerItems.{server_turn};
ghost use Rattle.giop_calls.specs.ServerStanding as server_latest;
ghost use Rattle.giop_calls.specs.declared.kind.CallKind.TheVariants as kind;
ghost use Rattle.giop_calls.specs.declared.client.entry.ClientEntry.TheVariants.{LocateDone};
ghost use Rattle.giop_calls.specs.declared.server.entry.ServerEntry.TheVariants.{Undecoded};
ghost use Rattle.giop_session.specs.declared.laws.inputs.Answered.TheVariants.{Done};
ghost use Rattle.giop_session.specs.declared.laws.inputs.ClientInput.TheVariants as client;
ghost use Rattle.giop_session.specs.declared.laws.inputs.ServerInput.TheVariants as server;
ghost use Rattle.giop_session.specs.declared.SessionFault.TheVariants.{Closed};
ghost use Rattle.giop_session.specs.Runs.ClientRuns.{client_named, client_run};
ghost use Rattle.giop_session.specs.Calls.CallTable.{entry_at};
ghost use Rattle.giop_session.specs.Runs.Fits.{Fits, history_of, IsAsAlone, SaysAlone};
ghost use Rattle.giop_session.specs.Runs.ServerRuns.{server_named, server_run};
ghost use Rattle.giop_session.specs.Runs.SideRuns.{SideHolds, SideTakesAs};
ghost use Rattle.giop_session.specs.Runs.Driven.{NoneRefused, own_answers};
ghost use Rattle.giop_session.specs.Runs.RunLimits.{ClientIsGivenWithin, NoneForALimit, ServerIsGivenWithin};
ghost use Rattle.giop_session.specs.Acts.Sent.{close_connection};
ghost use Rattle.laws_in_use.specs.Asking.{here};
ghost use Rattle.laws_in_use.specs.Locating as locating;
ghost use Rattle.laws_in_use.specs.Runs.{client_answers, client_given, client_told, door_taken, Forms, history_of_asking, history_of_door, key_taken, server_answers, server_given, server_given_otherwise, server_said};

use giop_calls::{ClientEntry, ServerEntry};
use giop_msg::laws::{locate_replies_are_spelled, locate_requests_are_spelled};
use giop_session::laws::{
    Answered, ClientInput, ServerInput, entries_stand_at_client, entries_stand_at_server,
    run_client, run_server, what_is_cut_is_carried, what_is_taken_is_held_at_client,
    what_is_taken_is_held_at_server,
};
use giop_session::{ClientEnd, Limits, ServerEnd};
use giop_types::Interface;
use std::alloc::{AllocError, Global};

/// A server's end may be given the octets of two LocateRequests in four reads, one of them in two
/// messages with the other between, then a cancel, and octets that spell nothing under the id of
/// that; it answers the first one, and takes its entry out. It takes all of it and gives these
/// answers, none of which refuses, and it holds these calls. All of it is within its limits, and
/// fits the end: each of the two calls alone is refused nothing. So it is in another order. That
/// some calls are held, needs no look at them. What it has stored for 7 is what the table's steps
/// come to by the messages of 7, as they are read, and its acts; and what stands by them without
/// steps.
pub fn what_a_server_is_given()
    ensures taken { (interface : Described) → (acts : _) × (left : _) × (k : _) × SideTakesAs
        (server_run interface) locating.limits server_given server_answers acts left k }
    ensures held { (interface : Described) → (left : _) × (k : _) × (calls : _) × SideHolds
        (server_run interface) locating.limits server_given server_answers left k calls }
    ensures holds { (interface : Described) → (left : _) × (k : _) × SideHolds
        (server_run interface) locating.limits server_given server_answers left k server_said }
    ensures none { NoneRefused server_answers }
    ensures within { ServerIsGivenWithin locating.limits server_given }
    ensures fits { (interface : Described)
        → Fits (server_run interface) locating.limits server_given }
    ensures says { (interface : Described)
        → (fits : Fits (server_run interface) locating.limits server_given)
        × ((id : ℕ) → SaysAlone (fits.alone id) (server_said id)) }
    ensures otherwise { (interface : Described)
        → (fits : Fits (server_run interface) locating.limits server_given_otherwise)
        × ((id : ℕ) → SaysAlone (fits.alone id) (server_said id)) }
    ensures stands { (interface : Described) → (left : _) × (k : _) × (held : SideHolds
        (server_run interface) locating.limits server_given server_answers left k server_said)
        × (history_of (server_run interface) 7 held.holds.0 ≡ history_of_door)
        × (entry_at k 7 ≡ None) × (alone server_turn None history_of_door ≡ None)
        × (server_latest.standing history_of_door ≡ None) }
{
    entries_stand_at_server();
    locate_requests_are_spelled();
    what_is_cut_is_carried();
    what_is_taken_is_held_at_server();
}

/// Whatever end is made and given that, where nothing is refused: the id 7 has no entry then, and
/// was answered with the one that was taken out; the id 9 has what couldn't be decoded; and no
/// other id has any. In either order nothing is refused, and 7 comes to the same. In no case is
/// anything refused for a limit. Closed at once, an end has put out its CloseConnection; and
/// whatever it was given, it never puts out a LocateRequest first.
pub fn a_run_of_a_server<'a>(
    alloc: Global,
    interface: &'a Interface,
    inputs: Vec<ServerInput>,
) -> Result<(ServerEnd<'a>, Vec<Answered<ServerEntry>>), AllocError>
    ensures holds { inputs.items ≡ server_given → IfOk result (λ run.
        NoneRefused run.1.items → run.0.fault ≡ None
        → SideHolds (server_run interface.now) locating.limits inputs.items run.1.items run.0.framer
        run.0.calls server_said) }
    ensures seven { inputs.items ≡ server_given → IfOk result (λ run.
        NoneRefused run.1.items → run.0.fault ≡ None → entry_at run.0.calls 7 ≡ None) }
    ensures told { inputs.items ≡ server_given → IfOk result (λ run.
        NoneRefused run.1.items → run.0.fault ≡ None
        → own_answers server_named 7 inputs.items run.1.items ≡ Done ∷ door_taken ∷ []) }
    ensures nine { inputs.items ≡ server_given → IfOk result (λ run.
        NoneRefused run.1.items → run.0.fault ≡ None
        → entry_at run.0.calls 9 ≡ Some (Undecoded (record {
          version = V10;
          expects = Some kind.Locate;
          fault = Header (record { at = 16; kind = BadCount });
        }))) }
    ensures others { inputs.items ≡ server_given → IfOk result (λ run.
        NoneRefused run.1.items → run.0.fault ≡ None
        → (id : ℕ) → id ≢ 7 → id ≢ 9 → entry_at run.0.calls id ≡ None) }
    ensures accepted { (inputs.items ≡ server_given) ⊎ (inputs.items ≡ server_given_otherwise)
        → IfOk result (λ run. NoneRefused run.1.items × (run.0.fault ≡ None)) }
    ensures either { (inputs.items ≡ server_given) ⊎ (inputs.items ≡ server_given_otherwise)
        → IfOk result (λ run. (entry_at run.0.calls 7 ≡ None)
        × (own_answers server_named 7 inputs.items run.1.items ≡ Done ∷ door_taken ∷ [])) }
    ensures alone { inputs.items ≡ server_given_otherwise → IfOk result (λ run.
        (fits : Fits (server_run interface.now) locating.limits inputs.items)
        × IsAsAlone fits run.1.items run.0.calls 9) }
    ensures free { inputs.items ≡ server_given → IfOk result (λ run.
        NoneForALimit run.1.items) }
    ensures same { IfOk result (λ run. run.0.limits ≡ locating.limits) }
    ensures closed { inputs.items ≡ server.Close ∷ [] → IfOk result (λ run.
        (run.1.items ≡ Done ∷ []) × (run.0.fault ≡ Some Closed)
        × (run.0.outgoing ≡ message_octets (close_connection Big))) }
    ensures put_out { IfOk result (λ run. (octets : List ℕ)
        → run.0.outgoing ≢ message_octets locating.key_little ++ octets) }
{
    locate_requests_are_spelled();
    what_is_cut_is_carried();
    let limits = Limits {
        calls: 3,
        message: 64,
        gathered: 20,
    };
    Ok(run_server(alloc, interface, limits, inputs)?)
}

/// A client's end may be given a LocateRequest that it sends in two messages, another one, which it
/// cancels and asks again, and octets in three reads: the answer to the first in two messages, with
/// the late one to the second between, and octets that spell nothing; it takes that entry out. It
/// takes all of it and gives these answers, none of which refuses, and it holds these calls. All of
/// it is within its limits, and fits the end: each of the two calls alone is refused nothing. That
/// some calls are held, needs no look at them. What it has stored for 7 is what the table's steps
/// come to by its acts and the messages of 7, as they are read; and what stands by them without
/// steps.
pub fn what_a_client_is_given()
    ensures forms { Forms }
    ensures taken { (interface : Described) (forms : Forms) → (acts : _) × (left : _) × (k : _)
        × SideTakesAs (client_run interface) locating.limits (client_given forms) client_answers
        acts left k }
    ensures held { (interface : Described) (forms : Forms) → (left : _) × (k : _) × (calls : _)
        × SideHolds (client_run interface) locating.limits (client_given forms) client_answers
        left k calls }
    ensures holds { (interface : Described) (forms : Forms) → (left : _) × (k : _)
        × SideHolds (client_run interface) locating.limits (client_given forms) client_answers left
        k
        client_told }
    ensures none { NoneRefused client_answers }
    ensures within { (forms : Forms)
        → ClientIsGivenWithin locating.limits (client_given forms) }
    ensures fits { (interface : Described) (forms : Forms)
        → Fits (client_run interface) locating.limits (client_given forms) }
    ensures says { (interface : Described) (forms : Forms)
        → (fits : Fits (client_run interface) locating.limits (client_given forms))
        × ((id : ℕ) → SaysAlone (fits.alone id) (client_told id)) }
    ensures stands { (interface : Described) (forms : Forms) → (left : _) × (k : _) × (held :
        SideHolds (client_run interface) locating.limits (client_given forms) client_answers left k
        client_told)
        × (history_of (client_run interface) 7 held.holds.0 ≡ history_of_asking)
        × (entry_at k 7 ≡ Some (LocateDone locating.door here))
        × (alone client_turn None history_of_asking ≡ Some (LocateDone locating.door here))
        × (client_latest.standing history_of_asking ≡ Some (LocateDone locating.door here)) }
{
    entries_stand_at_client();
    locate_replies_are_spelled();
    what_is_taken_is_held_at_client();
}

/// Whatever end is made and given that, where nothing is refused: the id 7 has the LocateReply; the
/// id 9 has no entry then, and was answered with the one that was taken out; and no other id has
/// any. Nothing is refused. In no case is anything refused for a limit. Closed at once, an end has
/// put out its CloseConnection; and whatever it was given, it never puts out a LocateReply first.
pub fn a_run_of_a_client<'a>(
    alloc: Global,
    interface: &'a Interface,
    inputs: Vec<ClientInput>,
) -> Result<(ClientEnd<'a>, Vec<Answered<ClientEntry>>), AllocError>
    ensures holds { (forms : Forms) → inputs.items ≡ client_given forms → IfOk result (λ run.
        NoneRefused run.1.items → run.0.fault ≡ None
        → SideHolds (client_run interface.now) locating.limits inputs.items run.1.items run.0.framer
        run.0.calls client_told) }
    ensures seven { (forms : Forms) → inputs.items ≡ client_given forms → IfOk result (λ run.
        NoneRefused run.1.items → run.0.fault ≡ None
        → entry_at run.0.calls 7 ≡ Some (LocateDone locating.door here)) }
    ensures nine { (forms : Forms) → inputs.items ≡ client_given forms → IfOk result (λ run.
        NoneRefused run.1.items → run.0.fault ≡ None → entry_at run.0.calls 9 ≡ None) }
    ensures told { (forms : Forms) → inputs.items ≡ client_given forms → IfOk result (λ run.
        NoneRefused run.1.items → run.0.fault ≡ None
        → own_answers client_named 9 inputs.items run.1.items
        ≡ Done ∷ Done ∷ Done ∷ key_taken ∷ []) }
    ensures others { (forms : Forms) → inputs.items ≡ client_given forms → IfOk result (λ run.
        NoneRefused run.1.items → run.0.fault ≡ None
        → (id : ℕ) → id ≢ 7 → id ≢ 9 → entry_at run.0.calls id ≡ None) }
    ensures accepted { (forms : Forms) → inputs.items ≡ client_given forms → IfOk result (λ run.
        NoneRefused run.1.items × (run.0.fault ≡ None)) }
    ensures comes { (forms : Forms) → inputs.items ≡ client_given forms → IfOk result (λ run.
        entry_at run.0.calls 7 ≡ Some (LocateDone locating.door here)) }
    ensures alone { (forms : Forms) → inputs.items ≡ client_given forms → IfOk result (λ run.
        (fits : Fits (client_run interface.now) locating.limits inputs.items)
        × IsAsAlone fits run.1.items run.0.calls 9) }
    ensures free { (forms : Forms) → inputs.items ≡ client_given forms → IfOk result (λ run.
        NoneForALimit run.1.items) }
    ensures same { IfOk result (λ run. run.0.limits ≡ locating.limits) }
    ensures closed { inputs.items ≡ client.Close ∷ [] → IfOk result (λ run.
        (run.1.items ≡ Done ∷ []) × (run.0.fault ≡ Some Closed)
        × (run.0.outgoing ≡ message_octets (close_connection Big))) }
    ensures put_out { IfOk result (λ run. (octets : List ℕ)
        → run.0.outgoing ≢ message_octets locating.here_big ++ octets) }
{
    locate_replies_are_spelled();
    let limits = Limits {
        calls: 3,
        message: 64,
        gathered: 20,
    };
    Ok(run_client(alloc, interface, limits, inputs)?)
}
