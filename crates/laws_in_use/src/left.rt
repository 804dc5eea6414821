//! What an end's own acts leave in use: as many messages as the event says are planned, and those
//! that are unsent then; an act that is accepted, and one that is refused.
ghost use Rattle.std.specs.Prelude.{◌≡◌, ◌≢◌, ◌++◌, ◌∷◌, [], ℕ, Err, List, Ok, Some, length, true};
ghost use Rattle.std.specs.FinMap as finite;
ghost use Rattle.giop_cdr.specs.declared.order.Order.TheVariants.{Big, Little};
ghost use Rattle.giop_types.specs.declared.interfaces.interface.Interface.{Interface};
ghost use Rattle.giop_msg.specs.Msg.{message_octets};
ghost use Rattle.giop_msg.specs.declared.version.Version.TheVariants.{V10, V12};
ghost use Rattle.giop_calls.specs.declared.client.call.Call.TheVariants as asked;
ghost use Rattle.giop_calls.specs.declared.client.event.ClientEvent.TheVariants as at_client;
ghost use Rattle.giop_calls.specs.declared.fault.CallFault.TheVariants.{NotOpen};
ghost use Rattle.giop_calls.specs.declared.server.entry.ServerEntry.{ServerEntry};
ghost use Rattle.giop_calls.specs.declared.server.entry.ServerEntry.TheVariants as entry;
ghost use Rattle.giop_calls.specs.declared.server.event.ServerEvent.TheVariants as at_server;
ghost use Rattle.giop_calls.specs.declared.server.rule.ServerRule.{ServerRule};
ghost use Rattle.giop_calls.specs.ClientTable as client;
ghost use Rattle.giop_calls.specs.ServerTable as server;
ghost use Rattle.giop_session.specs.declared.SessionFault.TheVariants.{Call as InCall};
ghost use Rattle.giop_session.specs.Calls.CallTable.{Held, rules_of};
ghost use Rattle.giop_session.specs.Acts.ClientCalls.{IsCall, IsCancel, IsLocate};
ghost use Rattle.giop_session.specs.Runs.Events.{Does};
ghost use Rattle.giop_session.specs.Hearing.Heard.{in_call};
ghost use Rattle.giop_session.specs.Runs.LeftToSend.{ArePlanned, ClientPlans, IsLeft, ClientMeets};
ghost use Rattle.giop_session.specs.Acts.Putting.{ActsOnCall};
ghost use Rattle.giop_session.specs.Calls.Sending.{entry_of};
ghost use Rattle.giop_session.specs.Acts.ServerAnswers.{IsAnswer, IsLocateAnswer};
ghost use Rattle.laws_in_use.specs.Asking.{asking};
ghost use Rattle.laws_in_use.specs.Exchange.{ping, pong};
ghost use Rattle.laws_in_use.specs.Left.{form, ping_sent, pong_sent, sends};
ghost use Rattle.laws_in_use.specs.Limited.{new_server};
ghost use Rattle.laws_in_use.specs.Locating.{cancel_little, door, door_begins, door_ends, here_big, limits};
ghost use Rattle.laws_in_use.specs.Pinged.{HasPing};

use giop_calls::ServerRule;
use giop_session::laws::{
    what_an_own_act_leaves, what_is_left_is_unsent_at_client, what_is_left_is_unsent_at_server,
};

/// A client plans a Request of 1.0 in one message, where the interface has its operation, a
/// LocateRequest in two and a CancelRequest: the event says as many, whatever it is planned as.
/// Behind the second one message is unsent, as the entry says.
pub fn what_a_client_plans()
    ensures calls { (interface : Interface) → HasPing interface → IsCall interface (ping V10) form
        (sends (at_client.Call (asked.Request (ping V10)) 1) (ping_sent interface ∷ [])) }
    ensures asks { IsLocate door form
        (sends (at_client.Call (asked.Locate door) 2) (door_begins ∷ door_ends ∷ [])) }
    ensures cancels { IsCancel 9 Little (Some V10) (sends at_client.Cancel (cancel_little ∷ [])) }
    ensures called { (interface : Interface) (n : ℕ) (messages : List _)
        → IsCall interface (ping V10) form
        (sends (at_client.Call (asked.Request (ping V10)) n) messages) → length messages ≡ n }
    ensures located { (n : ℕ) (messages : List _) → IsLocate door form
        (sends (at_client.Call (asked.Locate door) n) messages) → length messages ≡ n }
    ensures cancelled { (messages : List _)
        → IsCancel 9 Little (Some V10) (sends at_client.Cancel messages)
        → length messages ≡ 1 }
    ensures planned { ArePlanned ClientPlans (Does 7 asking ∷ []) }
    ensures met { (interface : Interface) → (k : _)
        × ClientMeets interface limits (Does 7 asking ∷ []) k }
    ensures left { (interface : Interface) (k : _)
        → ClientMeets interface limits (Does 7 asking ∷ []) k
        → (id : ℕ) → IsLeft client.left_of (finite.get k.table id) }
{
    what_is_left_is_unsent_at_client();
}

/// A server plans a Reply of 1.0 in one message, and a LocateReply: the event says as many.
pub fn what_a_server_plans()
    ensures answers { (interface : Interface) → IsAnswer interface (Some (Some (ping V10)))
        (pong V10) form (sends (at_server.Answer (pong V10) 1) (pong_sent interface ∷ [])) }
    ensures locates { IsLocateAnswer 7 true Big (Some V12)
        (sends (at_server.AnswerLocate true) (here_big ∷ [])) }
    ensures answered { (interface : Interface) (n : ℕ) (messages : List _)
        → IsAnswer interface (Some (Some (ping V10))) (pong V10) form
        (sends (at_server.Answer (pong V10) n) messages) → length messages ≡ n }
    ensures located { (messages : List _) → IsLocateAnswer 7 true Big (Some V12)
        (sends (at_server.AnswerLocate true) messages) → length messages ≡ 1 }
{
    what_is_left_is_unsent_at_server();
}

/// A server's answer to a LocateRequest is accepted: then it is answered, each other id has what it
/// had, and the message is outgoing behind what was. An answer under an id without an entry is
/// refused, and leaves all.
pub fn an_answer_is_accepted_or_refused(rule: &ServerRule)
    ensures accepted { (interface : Interface) (out : List ℕ)
        → (h k : Held ServerRule ServerEntry)
        × (entry_of (finite.get h.table 7) ≡ Some (entry.LocateAsked door))
        × ActsOnCall (rules_of server.server_step server.is_closed server.is_gathering) in_call 7
        (sends (at_server.AnswerLocate true) (here_big ∷ [])) h out (Ok tt) k
        (out ++ message_octets here_big) }
    ensures answered { (h k : Held ServerRule ServerEntry) (out out' : List ℕ)
        → entry_of (finite.get h.table 7) ≡ Some (entry.LocateAsked door)
        → ActsOnCall (rules_of server.server_step server.is_closed server.is_gathering) in_call 7
        (sends (at_server.AnswerLocate true) (here_big ∷ [])) h out (Ok tt) k out'
        → (entry_of (finite.get k.table 7) ≡ Some (entry.LocateAnswered (Some door.target) true))
        × (out' ≡ out ++ message_octets here_big)
        × ((id : ℕ) → id ≢ 7 → finite.get k.table id ≡ finite.get h.table id) }
    ensures refused { ActsOnCall (rules_of server.server_step server.is_closed server.is_gathering)
        in_call 7 (sends (at_server.AnswerLocate true) (here_big ∷ [])) (new_server limits) []
        (Err (InCall 7 NotOpen)) (new_server limits) [] }
    ensures kept { (h k : Held ServerRule ServerEntry) (out out' : List ℕ)
        → ActsOnCall (rules_of server.server_step server.is_closed server.is_gathering) in_call 7
        (sends (at_server.AnswerLocate true) (here_big ∷ [])) h out (Err (InCall 7 NotOpen)) k
        out' → (k ≡ h) × (out' ≡ out) }
{
    what_an_own_act_leaves(rule);
}
