//! Limits in any order: events that are within the limits of an end meet none. Each function's
//! contract is a law; the bodies are empty, and no program calls these.
ghost use Rattle.std.specs.Prelude.{◌≤◌, length, sum_by};
ghost use Rattle.giop_end.specs.declared.limits.Limits.{Limits};
ghost use Rattle.giop_end.specs.Hearing.ClientHears.{client_side};
ghost use Rattle.giop_session.specs.Runs.Limits.{AreWithinAtClient, AreWithinAtServer, MeetNoLimit, payload_of};
ghost use Rattle.giop_end.specs.Hearing.ServerHears.{server_side};

/// Let a server's Requests and LocateRequests have at most as many distinct ids as its limit
/// `calls`, and all pieces of fragmented messages at most as many octets as its limit `gathered`.
/// Then no order of its events meets a limit: whichever of them came, the next one is never refused
/// as TooManyCalls or GatherFull.
///
/// This holds of any events, at most `calls` of them, whose messages have at most `gathered` octets
/// in all.
pub fn limits_in_any_order_at_server()
    ensures order { (interface limits all : _) → AreWithinAtServer limits all
        → MeetNoLimit (server_side interface) (record {}) limits all }
    ensures few { (limits : Limits) (all : _) → length all ≤ limits.calls
        → sum_by payload_of all ≤ limits.gathered → AreWithinAtServer limits all }
{}

/// Let the calls and locates of a client's own program have at most as many distinct ids as its
/// limit `calls`, and all pieces of fragmented messages at most as many octets as its limit
/// `gathered`. Then no order of its events meets a limit: whichever of them came, the next one is
/// never refused as TooManyCalls or GatherFull.
///
/// This holds of any events, at most `calls` of them, whose messages have at most `gathered` octets
/// in all.
pub fn limits_in_any_order_at_client()
    ensures order { (interface limits all : _) → AreWithinAtClient limits all
        → MeetNoLimit (client_side interface) (record {}) limits all }
    ensures few { (limits : Limits) (all : _) → length all ≤ limits.calls
        → sum_by payload_of all ≤ limits.gathered → AreWithinAtClient limits all }
{}
