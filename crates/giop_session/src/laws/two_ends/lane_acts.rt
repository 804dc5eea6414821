//! What an end hears is an act of the lane of its id. Each function's contract is a law, and no
//! program calls these.
ghost use Rattle.giop_session.specs.Worlds.Tracks.{ClientDoesLanesAct, ClientRefusesByLimits, ServerDoesLanesAct, ServerRefusesByLimits};

use giop_calls::laws::ends_of_one_lane_agree;

/// What a server's end has stored for an id is what stands at the server of a lane, and it hears the
/// message that is next on its way there. That is the lane's act: what it has stored then is what
/// stands there behind the act, and each other id has what it had.
///
/// No rule refuses the message, whatever stands there: a Fragment behind a cancel, a CancelRequest
/// that crosses the reply, an id that is used again. Only a limit of the end itself does, where it
/// is met, or want of memory; then nothing changes.
pub fn servers_do_the_lanes_act()
    ensures heard { (interface acts lane id m later h k : _)
        → ServerDoesLanesAct interface acts lane id m later h k }
    ensures refused { (interface acts lane id m later h k why : _)
        → ServerRefusesByLimits interface acts lane id m later h k why }
{
    ends_of_one_lane_agree();
}

/// So a client's end, of a reply that is awaited, and of one that no call awaits any more since it
/// was cancelled.
pub fn clients_do_the_lanes_act()
    ensures heard { (interface acts lane id m later h k : _)
        → ClientDoesLanesAct interface acts lane id m later h k }
    ensures refused { (interface acts lane id m later h k why : _)
        → ClientRefusesByLimits interface acts lane id m later h k why }
{
    ends_of_one_lane_agree();
}
