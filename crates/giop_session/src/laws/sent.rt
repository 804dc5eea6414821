//! What ends send, and what of it is on its way to the other end. Each function's contract is a
//! law; the bodies are empty, and no program calls these.
ghost use Rattle.std.specs.Prelude.{◌≡◌, ◌++◌, ◌<◌, ◌^◌, [], All, length, List, Some};
ghost use Rattle.std.specs.List.{AllByRecursion};
ghost use Rattle.giop_types.specs.declared.json.interface.Interface.{Interface};
ghost use Rattle.giop_msg.specs.Fault.{fault};
ghost use Rattle.giop_msg.specs.Msg.{message_octets};
ghost use Rattle.giop_msg.specs.Stream.{BeginsWithFault};
ghost use Rattle.giop_msg.specs.declared.fault.WireKind.TheVariants.{TooLarge};
ghost use Rattle.giop_msg.specs.declared.msg.Msg.{Msg};
ghost use Rattle.giop_calls.specs.Lane.{Cut, pieces_of};
ghost use Rattle.giop_calls.specs.declared.client.event.ClientEvent.TheVariants as at_client;
ghost use Rattle.giop_calls.specs.declared.server.event.ServerEvent.TheVariants as at_server;
ghost use Rattle.giop_session.specs.Acts.ClientCalls.{IsCancel};
ghost use Rattle.giop_session.specs.Worlds.OnTheWay.{id_of, IsFramed, Names, OnTheWay};
ghost use Rattle.giop_session.specs.Worlds.OwnLane.{PlansCall, PlansLocated, PlansReply, sends_cut};
ghost use Rattle.giop_session.specs.Acts.Sent.{sends_one};
ghost use Rattle.giop_session.specs.Acts.ServerAnswers.{IsLocateAnswer};

/// What an end plans to send are messages that a framer of the largest limit reads: the pieces of a
/// call or a Reply, a LocateReply, a CancelRequest.
pub fn what_is_sent_is_framed()
    ensures call { (interface : Interface) (entry call : _) (cut : Cut)
        → PlansCall interface entry call (sends_cut (at_client.Call call) cut)
        → All IsFramed (pieces_of cut) }
    ensures reply { (interface : Interface) (q r : _) (cut : Cut)
        → PlansReply interface q r (sends_cut (at_server.Answer r) cut)
        → All IsFramed (pieces_of cut) }
    ensures located { (interface : Interface) (q here : _) (piece : Msg)
        → PlansLocated q here (sends_one (at_server.AnswerLocate here) piece) → IsFramed piece }
    ensures cancelled { (id : _) (order version : _) (m : Msg)
        → IsCancel id order (Some version) (sends_one at_client.Cancel m) → IsFramed m }
{}

/// Each message that an end plans to send names the id of its call: a Fragment too, and before 1.2,
/// where a head has its id behind the service contexts. The id of a LocateReply or a CancelRequest
/// is below 2^32, as each `u32`.
pub fn what_is_sent_names_its_id()
    ensures call { (interface : Interface) (entry call : _) (cut : Cut)
        → PlansCall interface entry call (sends_cut (at_client.Call call) cut)
        → AllByRecursion (Names (id_of call)) (pieces_of cut) }
    ensures reply { (interface : Interface) (q r : _) (cut : Cut)
        → PlansReply interface q r (sends_cut (at_server.Answer r) cut)
        → AllByRecursion (Names r.id) (pieces_of cut) }
    ensures located { (id : _) (here : _) (order version : _) (m : Msg) → id < 2 ^ 32
        → IsLocateAnswer id here order (Some version) (sends_one (at_server.AnswerLocate here) m)
        → Names id m }
    ensures cancelled { (id : _) (order version : _) (m : Msg) → id < 2 ^ 32
        → IsCancel id order (Some version) (sends_one at_client.Cancel m) → Names id m }
{}

/// Messages are on their way to an end where their octets are what it has unread, and what is
/// outgoing at the other. They are one list of messages; there are none, where nothing is outgoing
/// and the end waits. A fault at the front of such messages is TooLarge, of one that is larger than
/// the end takes.
pub fn what_is_on_its_way()
    ensures one { (unread : _) (one other : List Msg) (outgoing : _)
        → OnTheWay unread one outgoing → OnTheWay unread other outgoing → one ≡ other }
    ensures none { (unread : _) (messages : List Msg)
        → OnTheWay unread messages [] → messages ≡ [] }
    ensures fault { (limit : _) (m : Msg) (more : _) (e : _)
        → IsFramed m → BeginsWithFault limit (message_octets m ++ more) e
        → (e ≡ fault 8 TooLarge) × (limit < length m.payload) }
{}
