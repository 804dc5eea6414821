//! Lanes of the session's own acts in use: a cancel that crosses its answer, an id used again, and
//! a LocateRequest that is answered.
ghost use Rattle.std.specs.Prelude.{◌≡◌, [], Some, false, true};
ghost use Rattle.std.specs.Option.{option_map};
ghost use Rattle.giop_types.specs.declared.interfaces.interface.Interface.{Interface};
ghost use Rattle.giop_calls.specs.declared.client.entry.ClientEntry.TheVariants as client;
ghost use Rattle.giop_calls.specs.declared.outcome.Outcome.TheVariants.{Cancelled};
ghost use Rattle.giop_calls.specs.declared.server.entry.ServerEntry.TheVariants as server;
ghost use Rattle.giop_calls.specs.ClientTable as client_table;
ghost use Rattle.giop_calls.specs.Lane.{Lane, new, Runs};
ghost use Rattle.giop_session.specs.Worlds.Coding.{coding};
ghost use Rattle.giop_session.specs.Worlds.OwnLane.{located_run, OwnRuns, IsLocated};
ghost use Rattle.laws_in_use.specs.Asking.{here, unknown_big};
ghost use Rattle.laws_in_use.specs.Locating.{door, key, key_big};
ghost use Rattle.laws_in_use.specs.OwnLanes.{again, answered, crossed, crossing};

use giop_session::laws::{own_ends_of_one_lane_agree, own_lanes_come_to_replies};

/// A LocateRequest in two pieces is answered, and the cancel crosses the answer; the id is used
/// again, and answered. Whatever acts of their own the two ends did: where nothing is on its way
/// and the server has it cancelled, so has the client; where the client has the answer, the server
/// gave it to this call; and the server has no message that it couldn't read.
pub fn a_cancel_crosses_its_answer()
    ensures own { (interface : Interface) → OwnRuns interface new crossing crossed }
    ensures runs { (interface : Interface) → Runs (coding interface) new crossing crossed }
    ensures again { (interface : Interface) → OwnRuns interface new again answered }
    ensures agree { (interface : Interface) (acts : _) (lane : Lane)
        → OwnRuns interface new acts lane → lane.to_server ≡ [] → lane.to_client ≡ []
        → lane.server.entry ≡ Some (server.Cancelled true 0)
        → option_map client_table.outcome lane.client.entry ≡ Some Cancelled }
    ensures right { (interface : Interface) (acts : _) (lane : Lane)
        → OwnRuns interface new acts lane
        → lane.client.entry ≡ Some (client.LocateDone door here)
        → lane.server.entry ≡ Some (server.LocateAnswered (Some door.target) true) }
    ensures uses { (interface : Interface) → answered.server.uses ≡ answered.client.uses }
    ensures read { (interface : Interface) (acts : _) (lane : Lane)
        → Runs (coding interface) new acts lane
        → (call : _) → lane.server.entry ≡ Some (server.Undecoded call) → ⊥ }
{
    own_ends_of_one_lane_agree();
}

/// Where `k` is asked for and answered in 1.0, the client has an answer; and so it is what the
/// server gave: no such object.
pub fn a_lane_comes_to_an_answer()
    ensures sent { (interface : Interface) → IsLocated interface key false key_big unknown_big }
    ensures comes { (interface : Interface) → (lane : Lane) × (told : _)
        × OwnRuns interface new (located_run key false key_big unknown_big) lane
        × (lane.client.entry ≡ Some (client.LocateDone key told)) }
    ensures answer { (interface : Interface) (lane : Lane) (told : _)
        → OwnRuns interface new (located_run key false key_big unknown_big) lane
        → lane.client.entry ≡ Some (client.LocateDone key told)
        → told.rest ≡ [] }
{
    own_ends_of_one_lane_agree();
    own_lanes_come_to_replies();
}
