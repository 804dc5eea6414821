//! Limits in use: what is within them meets none in any order, and what meets one isn't within.
ghost use Rattle.std.specs.Prelude.{◌≡◌, ◌≢◌, ◌∷◌, []};
ghost use Rattle.giop_types.specs.declared.interfaces.interface.Interface.{Interface};
ghost use Rattle.giop_session.specs.declared.SessionFault.TheVariants.{GatherFull, TooManyCalls, WrongDirection};
ghost use Rattle.giop_session.specs.Hearing.ClientHears.{client_side};
ghost use Rattle.giop_session.specs.Runs.Events.{Comes, Does, Meets};
ghost use Rattle.giop_session.specs.Runs.Limits.{AreWithinAtClient, AreWithinAtServer, IsNext, Refuses};
ghost use Rattle.giop_session.specs.Hearing.ServerHears.{server_side};
ghost use Rattle.laws_in_use.specs.Asking.{asking, sending};
ghost use Rattle.laws_in_use.specs.Left.{new_client};
ghost use Rattle.laws_in_use.specs.Limited.{all, asked, new_server, one_call, two_calls};
ghost use Rattle.laws_in_use.specs.Locating.{door_begins, door_whole, here_big, key_little, limits};

use giop_session::laws::{limits_in_any_order_at_client, limits_in_any_order_at_server};

/// Two calls and twelve octets are within limits: so the second of their messages is refused for
/// none, and neither is any other in any order. Where one call may be open the second meets the
/// limit, and the two messages aren't within it.
pub fn a_limit_that_is_met()
    ensures within { AreWithinAtServer limits all }
    ensures next { IsNext all (Comes door_begins ∷ []) (Comes key_little) }
    ensures came { (interface : Interface) → (h : _)
        × Meets (server_side interface) (new_server limits) (Comes door_begins ∷ []) h }
    ensures refused { (interface : Interface) → Refuses (server_side interface) (Comes here_big)
        (new_server limits) WrongDirection }
    ensures none { (interface : Interface) (h why : _)
        → Meets (server_side interface) (new_server limits) (Comes door_begins ∷ []) h
        → Refuses (server_side interface) (Comes key_little) h why
        → (why ≢ TooManyCalls) × (why ≢ GatherFull) }
    ensures met { (interface : Interface) (h : _)
        → Meets (server_side interface) (new_server one_call) (Comes key_little ∷ []) h
        → Refuses (server_side interface) (Comes door_whole) h TooManyCalls
        → AreWithinAtServer one_call two_calls → ⊥ }
    ensures few { AreWithinAtServer limits (Comes key_little ∷ []) }
    ensures at_client { AreWithinAtClient limits asked }
{
    limits_in_any_order_at_server();
    limits_in_any_order_at_client();
}

/// A client that asks in two messages and is answered is within its limits: so the second of its
/// acts is refused for none, and neither is any other in any order.
pub fn limits_at_a_client()
    ensures within { AreWithinAtClient limits asked }
    ensures next { IsNext asked (Does 7 asking ∷ []) (Does 7 sending) }
    ensures none { (interface : Interface) (h why : _)
        → Meets (client_side interface) (new_client limits)
        (Does 7 asking ∷ []) h
        → Refuses (client_side interface) (Does 7 sending) h why
        → (why ≢ TooManyCalls) × (why ≢ GatherFull) }
{
    limits_in_any_order_at_client();
}
