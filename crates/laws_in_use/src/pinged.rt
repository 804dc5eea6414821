//! A Request of 1.2 in two pieces and a Reply of two in use: as what they are planned, that they
//! are read back and carried, and that their lane comes to a reply.
ghost use Rattle.std.specs.Prelude.{◌≡◌, ◌++◌, ◌∷◌, [], All, None, Some, false, map, true};
ghost use Rattle.std.specs.List.{AllByRecursion};
ghost use Rattle.giop_cdr.specs.declared.order.Order.TheVariants.{Big};
ghost use Rattle.giop_types.specs.declared.interfaces.interface.Interface.{Interface};
ghost use Rattle.giop_msg.specs.Cut.{joined};
ghost use Rattle.giop_msg.specs.declared.kind.Kind.TheVariants as message;
ghost use Rattle.giop_msg.specs.declared.version.Version.TheVariants.{V12};
ghost use Rattle.giop_calls.specs.Lane.{Continues, Lane, new, Opens};
ghost use Rattle.giop_calls.specs.declared.client.call.Call.TheVariants as asked;
ghost use Rattle.giop_calls.specs.declared.client.entry.ClientEntry.TheVariants as client;
ghost use Rattle.giop_calls.specs.declared.client.heard.HeardReply.TheVariants as told;
ghost use Rattle.giop_calls.specs.declared.kind.CallKind.TheVariants as kind;
ghost use Rattle.giop_calls.specs.declared.server.heard.HeardCall.TheVariants as call;
ghost use Rattle.giop_session.specs.Items.Carries.{CarriesItem, Got, IsSeries};
ghost use Rattle.giop_session.specs.Items.ClientCarries.{client_telling, IsReplyIn, AwaitsReply};
ghost use Rattle.giop_session.specs.Worlds.Coding.{coding};
ghost use Rattle.giop_session.specs.Runs.Events.{Comes};
ghost use Rattle.giop_session.specs.Worlds.LaneAtEnds.{seen};
ghost use Rattle.giop_session.specs.Worlds.OnTheWay.{IsFramed, Names};
ghost use Rattle.giop_session.specs.Worlds.OwnLane.{alone, PlansReply, sends_cut, OwnRuns, replied_run, SendsCall, SendsReply, IsAnswerable, IsReplied};
ghost use Rattle.giop_session.specs.Items.ServerCarries.{server_telling, IsRequestIn};
ghost use Rattle.laws_in_use.specs.Exchange.{ping};
ghost use Rattle.laws_in_use.specs.Framed.{refusing};
ghost use Rattle.laws_in_use.specs.Pinged.{HasPing, ping_back, ping_begins, ping_cut, ping_ends, ping_front, ping_whole};
ghost use Rattle.laws_in_use.specs.Pinged.{refusal_begins, refusal_cut, refusal_ends, refusal_whole};
ghost use Rattle.giop_calls.specs.declared.server.event.ServerEvent.TheVariants as at_server;

use giop_session::laws::{
    own_lanes_come_to_replies, what_is_cut_is_carried, what_is_sent_is_a_lanes,
    what_is_sent_is_an_item, what_is_sent_is_framed, what_is_sent_is_read,
    what_is_sent_names_its_id,
};

/// A client plans `ping` in two pieces, the first of which ends within its name: both are read back
/// as `ping`, are framed and name the id 7; on the lane the first opens the call and the second
/// ends it, and at a server both are the item `ping`.
pub fn a_request_in_two_pieces()
    ensures planned { (interface : Interface) → HasPing interface
        → SendsCall interface None (asked.Request (ping V12)) ping_cut }
    ensures read { (interface : Interface) → HasPing interface
        → (coding interface).read_call (ping_begins ∷ ping_ends ∷ [])
        ≡ call.Request (ping V12) }
    ensures carried { (interface : Interface) → HasPing interface
        → map seen (ping_begins ∷ ping_ends ∷ [])
        ≡ Opens kind.Request V12 false ping_begins ∷ Continues true ping_ends ∷ [] }
    ensures framed { (interface : Interface) → HasPing interface
        → All IsFramed (ping_begins ∷ ping_ends ∷ []) }
    ensures named { (interface : Interface) → HasPing interface
        → AllByRecursion (Names 7) (ping_begins ∷ ping_ends ∷ []) }
    ensures item { (interface : Interface) (there : _) → HasPing interface
        → CarriesItem (server_telling interface) there (Got (call.Request (ping V12)))
        (Comes ping_begins ∷ Comes ping_ends ∷ []) }
{
    what_is_sent_is_read();
    what_is_sent_is_a_lanes();
    what_is_sent_is_framed();
    what_is_sent_names_its_id();
    what_is_sent_is_an_item();
}

/// So a server plans an exception of the broker in two pieces, as the answer to it.
pub fn a_reply_in_two_pieces()
    ensures planned { (interface : Interface)
        → SendsReply interface (ping V12) refusing refusal_cut }
    ensures read { (interface : Interface)
        → (coding interface).read_reply (asked.Request (ping V12))
        (refusal_begins ∷ refusal_ends ∷ []) ≡ told.Reply refusing }
    ensures carried { (interface : Interface) → map seen (refusal_begins ∷ refusal_ends ∷ [])
        ≡ Opens kind.Request V12 false refusal_begins ∷ Continues true refusal_ends ∷ [] }
    ensures framed { (interface : Interface)
        → All IsFramed (refusal_begins ∷ refusal_ends ∷ []) }
    ensures named { (interface : Interface)
        → AllByRecursion (Names 7) (refusal_begins ∷ refusal_ends ∷ []) }
    ensures item { (interface : Interface) → CarriesItem (client_telling interface)
        (record { entry = None; latest = Some (asked.Request (ping V12)) })
        (Got (told.Reply refusing)) (Comes refusal_begins ∷ Comes refusal_ends ∷ []) }
{
    what_is_sent_is_read();
    what_is_sent_is_a_lanes();
    what_is_sent_is_framed();
    what_is_sent_names_its_id();
    what_is_sent_is_an_item();
}

/// Both are written and cut so: they are series of one byte order, whose joined octets are those
/// that were cut, and are carried as the Request and the Reply that they are.
pub fn both_are_carried()
    ensures written { (interface : Interface) → HasPing interface
        → IsRequestIn interface V12 Big (ping V12) 40 (ping_begins ∷ ping_ends ∷ []) }
    ensures series { (interface : Interface) → HasPing interface
        → IsSeries message.Request V12 Big false (ping_begins ∷ ping_ends ∷ []) }
    ensures again { (interface : Interface) → HasPing interface
        → joined (ping_begins ∷ ping_ends ∷ []) ≡ ping_front ++ ping_back }
    ensures request { (interface : Interface) (entry : _) → HasPing interface
        → CarriesItem (server_telling interface) entry (Got (call.Request (ping V12)))
        (Comes ping_begins ∷ Comes ping_ends ∷ []) }
    ensures written_back { (interface : Interface)
        → IsReplyIn interface (ping V12) V12 Big refusing 32
        (refusal_begins ∷ refusal_ends ∷ []) }
    ensures waits { AwaitsReply
        (record { entry = Some (client.Waiting (asked.Request (ping V12))); latest = None })
        (ping V12) }
    ensures reply { (interface : Interface) → CarriesItem (client_telling interface)
        (record { entry = Some (client.Waiting (asked.Request (ping V12))); latest = None })
        (Got (told.Reply refusing)) (Comes refusal_begins ∷ Comes refusal_ends ∷ []) }
{
    what_is_cut_is_carried();
}

/// Where both are in one message, their lane comes to the reply: the client has this Reply to this
/// Request.
pub fn a_lane_comes_to_a_reply()
    ensures answered { (interface : Interface) → PlansReply interface (ping V12) refusing
        (sends_cut (at_server.Answer refusing) (alone refusal_whole)) }
    ensures answerable { IsAnswerable (ping V12) refusing }
    ensures sent { (interface : Interface) → HasPing interface
        → IsReplied interface (ping V12) refusing ping_whole refusal_whole }
    ensures replied { (interface : Interface) → HasPing interface → (lane : Lane)
        × OwnRuns interface new (replied_run (ping V12) refusing ping_whole refusal_whole) lane
        × (lane.client.entry ≡ Some (client.Done (ping V12) refusing)) }
{
    own_lanes_come_to_replies();
}
