//! Acts of a lane in use: an end that hears the next message of its lane has stored what the lane's
//! act leaves, and refuses it for a limit of its own alone.
ghost use Rattle.std.specs.Prelude.{◌≡◌, ◌≢◌, ℕ, Err, Ok, Some};
ghost use Rattle.giop_types.specs.declared.interfaces.interface.Interface.{Interface};
ghost use Rattle.giop_calls.specs.Lane.{new, Runs};
ghost use Rattle.giop_calls.specs.declared.client.entry.ClientEntry.{ClientEntry};
ghost use Rattle.giop_calls.specs.declared.client.entry.ClientEntry.TheVariants.{LocateDone};
ghost use Rattle.giop_calls.specs.declared.client.rule.ClientRule.{ClientRule};
ghost use Rattle.giop_calls.specs.declared.kind.CallKind.TheVariants as kind;
ghost use Rattle.giop_calls.specs.declared.server.entry.ServerEntry.{ServerEntry};
ghost use Rattle.giop_calls.specs.declared.server.entry.ServerEntry.TheVariants.{Gathering};
ghost use Rattle.giop_calls.specs.declared.server.rule.ServerRule.{ServerRule};
ghost use Rattle.giop_session.specs.declared.SessionFault.TheVariants.{NoMemory};
ghost use Rattle.giop_session.specs.Calls.CallTable.{at, Held};
ghost use Rattle.giop_session.specs.Hearing.ClientHears.{client_side};
ghost use Rattle.giop_session.specs.Worlds.Coding.{coding};
ghost use Rattle.giop_session.specs.Hearing.Heard.{hears};
ghost use Rattle.giop_session.specs.Calls.Sending.{entry_of};
ghost use Rattle.giop_session.specs.Hearing.ServerHears.{server_side};
ghost use Rattle.giop_session.specs.Worlds.Tracks.{ClientShows, IsToClient, IsToServer, ServerShows};
ghost use Rattle.laws_in_use.specs.LaneActs.{answered_acts, answered_lane, asked_acts, asked_lane, awaiting};
ghost use Rattle.laws_in_use.specs.Limited.{new_server};
ghost use Rattle.laws_in_use.specs.Locating.{door, door_begins, here_big, limits};
ghost use Rattle.laws_in_use.specs.Asking.{here};

use giop_session::laws::{clients_do_the_lanes_act, servers_do_the_lanes_act};

/// The first piece of a LocateRequest is on its way to a server that has nothing under its id. It
/// is heard; whatever else the server has, it gathers then, and each other id has what it had. A
/// new end refuses it for want of memory alone.
pub fn a_server_gathers_as_its_lane()
    ensures runs { (interface : Interface) → Runs (coding interface) new asked_acts asked_lane }
    ensures shows { ServerShows 7 (at (new_server limits) 7) asked_lane }
    ensures next { IsToServer 7 door_begins }
    ensures heard { (interface : Interface) → (k : _)
        × hears (server_side interface) door_begins (new_server limits) (Ok tt) k }
    ensures gathers { (interface : Interface) (h k : Held ServerRule ServerEntry)
        → ServerShows 7 (at h 7) asked_lane
        → hears (server_side interface) door_begins h (Ok tt) k
        → (entry_of (at k 7).slot ≡ Some (Gathering kind.Locate))
        × ((other : ℕ) → other ≢ 7 → at k other ≡ at h other) }
    ensures refused { (interface : Interface) (k : Held ServerRule ServerEntry) (why : _)
        → hears (server_side interface) door_begins (new_server limits) (Err why)
        k → (k ≡ new_server limits) × (why ≡ NoMemory) }
{
    servers_do_the_lanes_act();
}

/// The answer is on its way to a client that waits for it. It is heard; whatever else the client
/// has, it has the answer then, and each other id has what it had. An end with this call alone
/// refuses it for want of memory alone.
pub fn a_client_is_answered_as_its_lane()
    ensures runs { (interface : Interface)
        → Runs (coding interface) new answered_acts answered_lane }
    ensures shows { ClientShows 7 (at awaiting 7) answered_lane }
    ensures next { IsToClient 7 here_big }
    ensures heard { (interface : Interface) → (k : _)
        × hears (client_side interface) here_big awaiting (Ok tt) k }
    ensures answered { (interface : Interface) (h k : Held ClientRule ClientEntry)
        → ClientShows 7 (at h 7) answered_lane
        → hears (client_side interface) here_big h (Ok tt) k
        → (entry_of (at k 7).slot ≡ Some (LocateDone door here))
        × ((other : ℕ) → other ≢ 7 → at k other ≡ at h other) }
    ensures refused { (interface : Interface) (k : Held ClientRule ClientEntry) (why : _)
        → hears (client_side interface) here_big awaiting (Err why) k
        → (k ≡ awaiting) × (why ≡ NoMemory) }
{
    clients_do_the_lanes_act();
}
