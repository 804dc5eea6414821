//! What ends hear in use: the pieces of a call and of its answer are the events of their lane, and
//! are gathered and read as `coding` reads them.
ghost use Rattle.std.specs.Prelude.{◌≡◌, ◌∷◌, [], None, Some, codes, true};
ghost use Rattle.giop_cdr.specs.declared.order.Order.TheVariants.{Big};
ghost use Rattle.giop_types.specs.declared.interfaces.interface.Interface.{Interface};
ghost use Rattle.giop_msg.specs.declared.version.Version.TheVariants.{V12};
ghost use Rattle.giop_calls.specs.declared.client.event.ClientEvent.TheVariants as at_client;
ghost use Rattle.giop_calls.specs.declared.client.heard.HeardReply.TheVariants as reply;
ghost use Rattle.giop_calls.specs.declared.kind.CallKind.TheVariants as kind;
ghost use Rattle.giop_calls.specs.declared.server.event.ServerEvent.TheVariants as at_server;
ghost use Rattle.giop_calls.specs.declared.server.heard.HeardCall.TheVariants as heard;
ghost use Rattle.giop_session.specs.Calls.CallTable.{Brings, brought, First, Hears, More, Nothing};
ghost use Rattle.giop_session.specs.Hearing.ClientHears.{client_act};
ghost use Rattle.giop_session.specs.Hearing.Heard.{behind_id, silently};
ghost use Rattle.giop_session.specs.Worlds.LaneAtEnds.{gathered_in};
ghost use Rattle.giop_session.specs.Hearing.ServerHears.{server_act};
ghost use Rattle.laws_in_use.specs.Asking.{here, here_begins, here_ends};
ghost use Rattle.laws_in_use.specs.Hearing.{door_begun, door_goes_on, gathers_door, gathers_here, waits, here_begun, here_standing};
ghost use Rattle.laws_in_use.specs.Locating.{cancel_big, door, door_begins, door_ends, here_little, key, key_big};
ghost use Rattle.giop_session.specs.Worlds.Reading.{IsContinuedBy, IsGathering};
ghost use Rattle.giop_calls.specs.declared.client.call.Call.TheVariants as asked;

use giop_session::laws::{
    clients_hear_the_lanes_event, clients_read_as_coding, pieces_are_gathered_as_they_come,
    servers_hear_the_lanes_event, servers_read_as_coding,
};

/// A server's end hears a whole LocateRequest as what it spells, whatever call stands there; the
/// first piece of another is gathered, a further one too, and with the last one it is read.
pub fn what_a_server_hears()
    ensures whole { (interface : Interface) (call : _) → server_act interface key_big call
        ≡ Hears (silently (at_server.Whole (heard.Locate key))) Nothing }
    ensures first { (interface : Interface) (call : _) → server_act interface door_begins call
        ≡ Hears (silently (at_server.First kind.Locate)) (First Big door_begins.payload) }
    ensures goes_on { IsContinuedBy door_begun door_goes_on }
    ensures more { (interface : Interface) → server_act interface door_goes_on gathers_door
        ≡ Hears (silently (at_server.More true)) (More (codes "do")) }
    ensures last { (interface : Interface) → server_act interface door_ends gathers_door
        ≡ Hears (silently (at_server.Last true (heard.Locate door))) (More (codes "door")) }
{
    servers_read_as_coding();
}

/// The same events are those that its lane has of these messages; and a cancel is.
pub fn what_a_servers_lane_has()
    ensures opens { (interface : Interface) (call : _) → (brings : Brings)
        × (server_act interface key_big call
        ≡ Hears (silently (at_server.Whole (heard.Locate key))) brings) }
    ensures continues { (interface : Interface) → server_act interface door_ends gathers_door
        ≡ Hears (silently (at_server.Last true (heard.Locate door))) (More (codes "door")) }
    ensures stops { (interface : Interface) (call : _) → server_act interface cancel_big call
        ≡ Hears (silently at_server.Cancel) Nothing }
{
    servers_hear_the_lanes_event();
}

/// A client's end that waits hears a whole LocateReply as what it spells; the first piece of
/// another is gathered, and with the last one it is read.
pub fn what_a_client_hears()
    ensures whole { (interface : Interface) → client_act interface here_little waits
        ≡ Hears (silently (at_client.Whole kind.Locate V12 (reply.Locate here))) Nothing }
    ensures first { (interface : Interface) → client_act interface here_begins waits
        ≡ Hears (silently (at_client.First kind.Locate V12)) (First Big here_begins.payload) }
    ensures more { (interface : Interface) → client_act interface door_goes_on gathers_here
        ≡ Hears (silently (at_client.More true)) (More (codes "do")) }
    ensures last { (interface : Interface) → client_act interface here_ends gathers_here
        ≡ Hears (silently (at_client.Last true (reply.Locate here))) (More (0 ∷ 0 ∷ 0 ∷ 1 ∷ [])) }
{
    clients_read_as_coding();
}

/// The same events are those that its lane has of these messages.
pub fn what_a_clients_lane_has()
    ensures gathers { IsGathering (asked.Locate door) here_begun here_standing }
    ensures opens { (interface : Interface) → (brings : Brings)
        × (client_act interface here_little waits
        ≡ Hears (silently (at_client.Whole kind.Locate V12 (reply.Locate here))) brings) }
    ensures continues { (interface : Interface) → client_act interface here_ends gathers_here
        ≡ Hears (silently (at_client.Last true (reply.Locate here))) (More (0 ∷ 0 ∷ 0 ∷ 1 ∷ [])) }
{
    clients_hear_the_lanes_event();
}

/// The octets of two pieces are gathered one behind the other, without the id of the second.
pub fn two_pieces_are_gathered()
    ensures first { brought (First Big door_begins.payload) None ≡ gathered_in door_begun }
    ensures more { brought (More (behind_id door_ends)) (gathered_in door_begun)
        ≡ Some (record {
          order = Big;
          octets = 0 ∷ 0 ∷ 0 ∷ 7 ∷ 0 ∷ 0 ∷ 0 ∷ 0 ∷ 0 ∷ 0 ∷ 0 ∷ 4 ∷ codes "door";
        }) }
{
    pieces_are_gathered_as_they_come();
}
