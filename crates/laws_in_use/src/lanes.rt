//! Both ends of one id agree, where a cancel crosses its Reply, and where the id is used again.
ghost use Rattle.std.specs.Prelude.{◌≡◌, ◌∷◌, [], Some, true};
ghost use Rattle.std.specs.Option.{option_map};
ghost use Rattle.giop_msg.specs.declared.version.Version.TheVariants.{V12};
ghost use Rattle.giop_calls.specs.declared.client.entry.ClientEntry.TheVariants as replied;
ghost use Rattle.giop_calls.specs.declared.outcome.Outcome.TheVariants.{Cancelled};
ghost use Rattle.giop_calls.specs.declared.server.entry.ServerEntry.TheVariants as asked;
ghost use Rattle.giop_calls.specs.declared.server.question.Question.TheVariants as question;
ghost use Rattle.giop_calls.specs.ClientTable as client;
ghost use Rattle.giop_calls.specs.Lane.{Act, Lane, new, Runs, step, ToServer};
ghost use Rattle.giop_calls.specs.ServerTable as server;
ghost use Rattle.laws_in_use.specs.Exchange.{ping, pong};
ghost use Rattle.laws_in_use.specs.Lanes.{again, answered, codec, crossed, crossing};

use giop_calls::laws::ends_of_one_lane_agree;

/// A call in three messages is answered in two, and the cancel crosses them: at both ends it came
/// to be cancelled. Whatever the two did: where nothing is on its way and the server has it
/// cancelled, so has the client; and where the client has a Reply, it is the one that the server
/// gave, to the latest call of the id.
pub fn a_cancel_crosses_its_reply()
    ensures run { Runs codec new crossing crossed }
    ensures client { option_map client.outcome crossed.client.entry ≡ Some Cancelled }
    ensures server { option_map server.outcome crossed.server.entry ≡ Some Cancelled }
    ensures whatever { (acts : _) (lane : Lane) → Runs codec new acts lane
        → lane.to_server ≡ [] → lane.to_client ≡ []
        → lane.server.entry ≡ Some (asked.Cancelled true 0)
        → option_map client.outcome lane.client.entry ≡ Some Cancelled }
    ensures again { Runs codec new again answered }
    ensures right { (acts : _) (lane : Lane) → Runs codec new acts lane
        → lane.client.entry ≡ Some (replied.Done (ping V12) (pong V12))
        → lane.server.entry ≡ Some (asked.Answered (question.Request (ping V12)) (pong V12) 0) }
    ensures uses { answered.server.uses ≡ answered.client.uses }
    ensures heard { (acts : _) (lane : Lane) → Runs codec new acts lane
        → (after : Lane) × (step codec lane ToServer ≡ Some after) }
{
    ends_of_one_lane_agree();
}
