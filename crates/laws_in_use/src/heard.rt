//! What a server's end hears of two ids in turn: each call is what its own messages make of it,
//! whatever lies between them, in whatever reads and order they come.
ghost use Rattle.std.specs.Prelude.{◌≡◌, ◌∷◌, [], ℕ, Ok};
ghost use Rattle.std.specs.FinMap as finite;
ghost use Rattle.giop_ids.specs.Runs.{Runs};
ghost use Rattle.giop_types.specs.declared.interfaces.interface.Interface.{Interface};
ghost use Rattle.giop_calls.specs.ServerTable.{is_closed, is_gathering, left_of, server_step};
ghost use Rattle.giop_session.specs.Calls.CallTable.{at, rules_of};
ghost use Rattle.giop_session.specs.Runs.Alone.{SameOfEach, RunsFreely, SameActs, answers_of, MeetsNone};
ghost use Rattle.giop_session.specs.Runs.Events.{Comes, Meets};
ghost use Rattle.giop_session.specs.Hearing.Feeding.{Fed, Through};
ghost use Rattle.giop_session.specs.Hearing.Heard.{hears};
ghost use Rattle.giop_session.specs.Runs.LeftToSend.{ArePlanned, IsLeft, ServerPlans, ServerMeets};
ghost use Rattle.giop_session.specs.Hearing.ServerHears.{server_side};
ghost use Rattle.laws_in_use.specs.Heard.{asked_and_begun, asks, begins, begun_and_asked, gathering, reads, silence, unread};
ghost use Rattle.laws_in_use.specs.Limited.{new_server};
ghost use Rattle.laws_in_use.specs.Locating.{door_begins, key_little, limits};

use giop_calls::ServerRule;
use giop_session::laws::{
    any_interleaving, any_interleaving_of_messages, any_reads, each_call_alone, each_call_of_a_run,
    own_messages_alone, what_is_left_is_unsent_at_server,
};

/// The first piece of a LocateRequest and a whole other one: 7 gathers what its own piece brought,
/// and the same where the other one came first; in one read they are heard as in two; and nothing
/// of either is unsent.
pub fn two_messages_are_heard(rule: &ServerRule)
    ensures heard { (interface : Interface) → (k : _)
        × Through (hears (server_side interface)) (new_server limits) begun_and_asked k }
    ensures seven { (interface : Interface) (k : _)
        → Through (hears (server_side interface)) (new_server limits) begun_and_asked k
        → at k 7 ≡ gathering }
    ensures either { (interface : Interface) (k k' : _)
        → Through (hears (server_side interface)) (new_server limits) begun_and_asked k
        → Through (hears (server_side interface)) (new_server limits) asked_and_begun k'
        → (id : ℕ) → at k id ≡ at k' id }
    ensures same { SameOfEach begun_and_asked asked_and_begun }
    ensures in_one { (interface : Interface) → (k : _)
        × Fed (hears (server_side interface)) reads (new_server limits) (Ok tt)
        unread k }
    ensures came { (interface : Interface) → (k : _)
        × ServerMeets interface limits (Comes door_begins ∷ []) k }
    ensures planned { ArePlanned ServerPlans (Comes door_begins ∷ []) }
    ensures left { (interface : Interface) (k : _)
        → ServerMeets interface limits (Comes door_begins ∷ []) k
        → (id : ℕ) → IsLeft left_of (finite.get k.table id) }
{
    own_messages_alone(rule);
    any_interleaving_of_messages(rule);
    any_reads(rule);
    what_is_left_is_unsent_at_server();
}

/// The same two as acts on calls by id: 7 gathers what its own act brought, is answered for it
/// alone, and in the other order it has the same. So it is where the messages are met as events.
pub fn two_acts_in_two_orders(rule: &ServerRule)
    ensures run { (interface : Interface) → (k : _)
        × RunsFreely (rules_of server_step is_closed is_gathering) (new_server limits)
        (begins ∷ asks ∷ []) (silence ∷ silence ∷ []) k }
    ensures free { (id : ℕ) → MeetsNone id (begins ∷ asks ∷ []) (silence ∷ silence ∷ []) }
    ensures same { SameActs (begins ∷ asks ∷ []) (asks ∷ begins ∷ []) }
    ensures seven { (k : _) → Runs (rules_of server_step is_closed is_gathering)
        (new_server limits) (begins ∷ asks ∷ []) (silence ∷ silence ∷ []) k
        → at k 7 ≡ gathering }
    ensures told { (k results : _) → Runs (rules_of server_step is_closed is_gathering)
        (new_server limits) (begins ∷ asks ∷ []) results k
        → MeetsNone 7 (begins ∷ asks ∷ []) results
        → answers_of 7 (begins ∷ asks ∷ []) results ≡ silence ∷ [] }
    ensures either { (k k' results results' : _)
        → RunsFreely (rules_of server_step is_closed is_gathering) (new_server limits)
        (begins ∷ asks ∷ []) results k
        → RunsFreely (rules_of server_step is_closed is_gathering) (new_server limits)
        (asks ∷ begins ∷ []) results' k'
        → (id : ℕ) → at k id ≡ at k' id }
    ensures met { (interface : Interface) (k : _)
        → Meets (server_side interface) (new_server limits)
        (Comes door_begins ∷ Comes key_little ∷ []) k
        → at k 7 ≡ gathering }
{
    each_call_alone(rule);
    any_interleaving(rule);
    each_call_of_a_run(rule);
}
