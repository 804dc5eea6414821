//! What ends send, and what of it is on its way to the other end. Each function's contract is a
//! law; the bodies are empty, and no program calls these.
ghost use Rattle.std.specs.Prelude.{◌≡◌, ◌++◌, ◌<◌, ◌∷◌, [], All, length, List, Some};
ghost use Rattle.std.specs.List.{AllByRecursion};
ghost use Rattle.giop_types.specs.declared.interfaces.interface.Interface.{Interface};
ghost use Rattle.giop_msg.specs.Fault.{fault};
ghost use Rattle.giop_msg.specs.Msg.{message_octets};
ghost use Rattle.giop_msg.specs.Stream.{BeginsWithFault};
ghost use Rattle.giop_msg.specs.declared.fault.WireKind.TheVariants.{TooLarge};
ghost use Rattle.giop_msg.specs.declared.msg.Msg.{Msg};
ghost use Rattle.giop_calls.specs.Lane.{pieces_of};
ghost use Rattle.giop_calls.specs.declared.client.call.Call.TheVariants as question;
ghost use Rattle.giop_calls.specs.declared.client.event.ClientEvent.TheVariants as at_client;
ghost use Rattle.giop_calls.specs.declared.client.heard.HeardReply.TheVariants as answer;
ghost use Rattle.giop_calls.specs.declared.server.event.ServerEvent.TheVariants as at_server;
ghost use Rattle.giop_calls.specs.declared.server.heard.HeardCall.TheVariants as call;
ghost use Rattle.giop_end.specs.Acts.ClientCalls.{IsCancel};
ghost use Rattle.giop_session.specs.Items.ClientCarries.{CarryReply, AwaitsReply, AwaitsLocateReply};
ghost use Rattle.giop_session.specs.Items.ServerCarries.{CarryCall};
ghost use Rattle.giop_session.specs.Worlds.OnTheWay.{id_of, IsFramed, Names, OnTheWay};
ghost use Rattle.giop_session.specs.Worlds.OwnLane.{SendsCall, SendsLocated, SendsReply, SaysWhether};
ghost use Rattle.giop_end.specs.Acts.Sent.{sends_one};
ghost use Rattle.giop_end.specs.Acts.ServerAnswers.{IsLocateAnswer};

use crate::laws::one_end::what_is_cut_is_carried;

/// What an end plans to send are messages that a framer of the largest limit reads: the pieces of a
/// call or a Reply, a LocateReply, a CancelRequest.
pub fn what_is_sent_is_framed()
    ensures call { (interface entry call cut : _)
        → SendsCall interface entry call cut → All IsFramed (pieces_of cut) }
    ensures reply { (interface q r cut : _) → SendsReply interface q r cut
        → All IsFramed (pieces_of cut) }
    ensures located { (interface : Interface) (q here piece : _) → SendsLocated q here piece
        → IsFramed piece }
    ensures cancelled { (id order version m : _)
        → IsCancel id order (Some version) (sends_one at_client.Cancel m) → IsFramed m }
{}

/// Each message that an end plans to send names the id of its call: a Fragment too, and before 1.2,
/// where a head has its id behind the service contexts.
pub fn what_is_sent_names_its_id()
    ensures call { (interface entry call cut : _)
        → SendsCall interface entry call cut → AllByRecursion (Names (id_of call)) (pieces_of cut) }
    ensures reply { (interface q r cut : _) → SendsReply interface q r cut
        → AllByRecursion (Names r.id) (pieces_of cut) }
    ensures located { (id here order version m : _)
        → IsLocateAnswer id here order (Some version) (sends_one (at_server.AnswerLocate here) m)
        → Names id m }
    ensures cancelled { (id order version m : _)
        → IsCancel id order (Some version) (sends_one at_client.Cancel m) → Names id m }
{}

/// What an end sends is one item at the other end (docs/HEADLINE.md): the pieces of a call are that
/// Request or LocateRequest at a server, whatever stands there; those of a Reply are that Reply at a
/// client whose Request it answers; and a LocateReply is one that says what the server said.
///
/// Of the values a caller has nothing to show: that they are planned so is what `ClientEnd::call`
/// and `locate`, and `ServerEnd::answer` and `answer_locate`, say of what they put out.
pub fn what_is_sent_is_an_item()
    ensures request { (interface entry asked cut there : _)
        → SendsCall interface entry (question.Request asked) cut
        → CarryCall interface there (call.Request asked) (pieces_of cut) }
    ensures locate { (interface entry asked cut there : _)
        → SendsCall interface entry (question.Locate asked) cut
        → CarryCall interface there (call.Locate asked) (pieces_of cut) }
    ensures reply { (interface asked reply cut known : _) → AwaitsReply known asked
        → SendsReply interface asked reply cut → CarryReply interface known (answer.Reply reply)
        (pieces_of cut) }
    ensures located { (interface asked here m known : _) → AwaitsLocateReply known asked
        → SendsLocated asked here m → (reply : _) × CarryReply interface known (answer.Locate reply)
        (m ∷ []) × SaysWhether here reply }
{
    what_is_cut_is_carried();
}

/// Messages are on their way to an end where their octets are what it has unread, and what is
/// outgoing at the other. They are one list of messages; there are none, where nothing is outgoing
/// and the end waits. A fault at the front of such messages is TooLarge, of one that is larger than
/// the end takes.
pub fn what_is_on_its_way()
    ensures one { (unread : _) (one other : List Msg) (outgoing : _)
        → OnTheWay unread one outgoing → OnTheWay unread other outgoing → one ≡ other }
    ensures none { (unread : _) (messages : List Msg)
        → OnTheWay unread messages [] → messages ≡ [] }
    ensures fault { (limit m more e : _)
        → IsFramed m → BeginsWithFault limit (message_octets m ++ more) e
        → (e ≡ fault 8 TooLarge) × (limit < length m.payload) }
{}
