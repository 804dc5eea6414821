//! What an end hears is an act of the lane of its id. Each function's contract is a law, and no
//! program calls these.
ghost use Rattle.std.specs.Prelude.{◌≡◌, ◌≢◌, ◌∷◌, ℕ, Err, List, Ok, Some};
ghost use Rattle.giop_types.specs.declared.json.interface.Interface.{Interface};
ghost use Rattle.giop_msg.specs.declared.msg.Msg.{Msg};
ghost use Rattle.giop_calls.specs.Lane.{Act, Lane, Message, new, Runs, step, ToClient, ToServer};
ghost use Rattle.giop_calls.specs.declared.client.entry.ClientEntry.{ClientEntry};
ghost use Rattle.giop_calls.specs.declared.client.rule.ClientRule.{ClientRule};
ghost use Rattle.giop_calls.specs.declared.server.entry.ServerEntry.{ServerEntry};
ghost use Rattle.giop_calls.specs.declared.server.rule.ServerRule.{ServerRule};
ghost use Rattle.giop_session.specs.Calls.CallTable.{at, Held};
ghost use Rattle.giop_session.specs.Hearing.ClientHears.{client_side};
ghost use Rattle.giop_session.specs.Worlds.Coding.{coding};
ghost use Rattle.giop_session.specs.Hearing.Heard.{hears};
ghost use Rattle.giop_session.specs.Worlds.LaneAtEnds.{IsOfLimit, seen};
ghost use Rattle.giop_session.specs.Hearing.ServerHears.{server_side};
ghost use Rattle.giop_session.specs.Worlds.Tracks.{ClientShows, IsToClient, IsToServer, ServerShows};

use giop_calls::laws::ends_of_one_lane_agree;

/// What a server's end has stored for an id is what stands at the server of a lane, and it hears the
/// message that is next on its way there. That is the lane's act: what it has stored then is what
/// stands there behind the act, and each other id has what it had.
///
/// No rule refuses the message, whatever stands there: a Fragment behind a cancel, a CancelRequest
/// that crosses the reply, an id that is used again. Only a limit of the end itself does, where it
/// is met, or want of memory; then nothing changes.
pub fn servers_do_the_lanes_act()
    ensures heard { (interface : Interface) (acts : List Act) (lane : Lane) (id : ℕ) (m : Msg)
        (later : List Message) (h k : Held ServerRule ServerEntry)
        → Runs (coding interface) new acts lane → lane.to_server ≡ seen m ∷ later
        → ServerShows id (at h id) lane → IsToServer id m
        → hears (server_side interface) m h (Ok tt) k
        → (after : Lane) × (step (coding interface) lane ToServer ≡ Some after)
        × ServerShows id (at k id) after
        × ((other : ℕ) → other ≢ id → at k other ≡ at h other) }
    ensures refused { (interface : Interface) (acts : List Act) (lane : Lane) (id : ℕ) (m : Msg)
        (later : List Message) (h k : Held ServerRule ServerEntry) (why : _)
        → Runs (coding interface) new acts lane → lane.to_server ≡ seen m ∷ later
        → ServerShows id (at h id) lane → IsToServer id m
        → hears (server_side interface) m h (Err why) k
        → (k ≡ h) × IsOfLimit m h why }
{
    ends_of_one_lane_agree();
}

/// So a client's end, of a reply that is awaited, and of one that no call awaits any more since it
/// was cancelled.
pub fn clients_do_the_lanes_act()
    ensures heard { (interface : Interface) (acts : List Act) (lane : Lane) (id : ℕ) (m : Msg)
        (later : List Message) (h k : Held ClientRule ClientEntry)
        → Runs (coding interface) new acts lane → lane.to_client ≡ seen m ∷ later
        → ClientShows id (at h id) lane → IsToClient id m
        → hears (client_side interface) m h (Ok tt) k
        → (after : Lane) × (step (coding interface) lane ToClient ≡ Some after)
        × ClientShows id (at k id) after
        × ((other : ℕ) → other ≢ id → at k other ≡ at h other) }
    ensures refused { (interface : Interface) (acts : List Act) (lane : Lane) (id : ℕ) (m : Msg)
        (later : List Message) (h k : Held ClientRule ClientEntry) (why : _)
        → Runs (coding interface) new acts lane → lane.to_client ≡ seen m ∷ later
        → ClientShows id (at h id) lane → IsToClient id m
        → hears (client_side interface) m h (Err why) k
        → (k ≡ h) × IsOfLimit m h why }
{
    ends_of_one_lane_agree();
}
