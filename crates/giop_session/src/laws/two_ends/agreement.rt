//! Two ends that hear one another agree on each call. The function's contract is a law, and no
//! program calls it; docs/AGREEMENT.md reads it aloud.
ghost use Rattle.std.specs.Prelude.{◌≡◌, None};
ghost use Rattle.giop_session.specs.Worlds.Agreement.{Agreed, FailsByLimits};
ghost use Rattle.giop_session.specs.Worlds.World.{WorldRuns};

use super::coding::own_ends_of_one_lane_agree;

/// After any schedule, where neither end has failed, both agree: once nothing is outgoing, each id
/// has the same outcome at both. At any time, a Reply that the client has is the one that the
/// server gave to that very Request, and a LocateReply likewise.
///
/// And an end fails for its own limits alone: at a message that is too large, for want of room for
/// one more call, or of room to gather.
pub fn two_ends_agree()
    ensures agreed { (interface client_limits server_limits schedule returned w : _)
        → WorldRuns interface client_limits server_limits schedule returned w → w.client.fault ≡ None
        → w.server.fault ≡ None → Agreed w }
    ensures fails { (interface client_limits server_limits schedule returned w : _)
        → WorldRuns interface client_limits server_limits schedule returned w
        → FailsByLimits client_limits server_limits w }
{
    own_ends_of_one_lane_agree();
}
