//! Limits in any order: events that are within the limits of an end meet none. Each function's
//! contract is a law; the bodies are empty, and no program calls these.
ghost use Rattle.std.specs.Prelude.{◌≢◌, ◌≤◌, List, length, sum_by};
ghost use Rattle.giop_types.specs.declared.json.interface.Interface.{Interface};
ghost use Rattle.giop_calls.specs.ClientTable as client;
ghost use Rattle.giop_calls.specs.ServerTable as server;
ghost use Rattle.giop_calls.specs.declared.client.entry.ClientEntry.{ClientEntry};
ghost use Rattle.giop_calls.specs.declared.client.event.ClientEvent.{ClientEvent};
ghost use Rattle.giop_calls.specs.declared.client.rule.ClientRule.{ClientRule};
ghost use Rattle.giop_calls.specs.declared.server.entry.ServerEntry.{ServerEntry};
ghost use Rattle.giop_calls.specs.declared.server.event.ServerEvent.{ServerEvent};
ghost use Rattle.giop_calls.specs.declared.server.rule.ServerRule.{ServerRule};
ghost use Rattle.giop_session.specs.declared.limits.Limits.{Limits};
ghost use Rattle.giop_session.specs.declared.session_fault.SessionFault.{SessionFault};
ghost use Rattle.giop_session.specs.declared.session_fault.SessionFault.TheVariants.{TooManyCalls, GatherFull};
ghost use Rattle.giop_session.specs.Calls.Begun.{no_calls};
ghost use Rattle.giop_session.specs.Calls.CallTable.{Held};
ghost use Rattle.giop_session.specs.Hearing.ClientHears.{client_befalls, client_breaks};
ghost use Rattle.giop_session.specs.Runs.Events.{Event, Meets};
ghost use Rattle.giop_session.specs.Hearing.Heard.{in_call};
ghost use Rattle.giop_session.specs.Runs.Limits.{AreWithinAtClient, AreWithinAtServer, IsNext, payload_of, Refuses};
ghost use Rattle.giop_session.specs.Hearing.ServerHears.{server_befalls, server_breaks};

/// Let a server's Requests and LocateRequests have at most as many distinct ids as its limit
/// `calls`, and all pieces of fragmented messages at most as many octets as its limit `gathered`.
/// Then no order of its events meets a limit: whichever of them came, the next one is never refused
/// as TooManyCalls or GatherFull.
///
/// This holds of any events, at most `calls` of them, whose messages have at most `gathered` octets
/// in all.
pub fn limits_in_any_order_at_server()
    ensures order { (interface : Interface) (limits : Limits) (all came : List (Event ServerEvent))
        (e : Event ServerEvent) (h : Held ServerRule ServerEntry) (why : SessionFault)
        → AreWithinAtServer limits all → IsNext all came e
        → Meets (λ rule. server.server_step) (λ rule. server.is_closed) server.is_gathering in_call
        server_breaks (server_befalls interface) (no_calls (record {}) limits) came h
        → Refuses (λ rule. server.server_step) (λ rule. server.is_closed) server.is_gathering
        in_call server_breaks (server_befalls interface) e h why
        → (why ≢ TooManyCalls) × (why ≢ GatherFull) }
    ensures few { (limits : Limits) (all : List (Event ServerEvent))
        → length all ≤ limits.calls → sum_by payload_of all ≤ limits.gathered
        → AreWithinAtServer limits all }
{}

/// Let the calls and locates of a client's own program have at most as many distinct ids as its
/// limit `calls`, and all pieces of fragmented messages at most as many octets as its limit
/// `gathered`. Then no order of its events meets a limit: whichever of them came, the next one is
/// never refused as TooManyCalls or GatherFull.
///
/// This holds of any events, at most `calls` of them, whose messages have at most `gathered` octets
/// in all.
pub fn limits_in_any_order_at_client()
    ensures order { (interface : Interface) (limits : Limits) (all came : List (Event ClientEvent))
        (e : Event ClientEvent) (h : Held ClientRule ClientEntry) (why : SessionFault)
        → AreWithinAtClient limits all → IsNext all came e
        → Meets (λ rule. client.client_step) (λ rule. client.is_closed) client.is_gathering in_call
        client_breaks (client_befalls interface) (no_calls (record {}) limits) came h
        → Refuses (λ rule. client.client_step) (λ rule. client.is_closed) client.is_gathering
        in_call client_breaks (client_befalls interface) e h why
        → (why ≢ TooManyCalls) × (why ≢ GatherFull) }
    ensures few { (limits : Limits) (all : List (Event ClientEvent))
        → length all ≤ limits.calls → sum_by payload_of all ≤ limits.gathered
        → AreWithinAtClient limits all }
{}
