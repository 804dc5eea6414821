//! What is on its way in use: the rest of a message that came in part, and one that is too large.
ghost use Rattle.std.specs.Prelude.{◌≡◌, ◌++◌, ◌∷◌, [], List, drop, take};
ghost use Rattle.giop_msg.specs.declared.fault.WireKind.TheVariants.{TooLarge};
ghost use Rattle.giop_msg.specs.Fault.{fault};
ghost use Rattle.giop_msg.specs.Msg.{message_octets};
ghost use Rattle.giop_msg.specs.Stream.{BeginsWithFault};
ghost use Rattle.giop_session.specs.Hearing.Feeding.{nothing_unread};
ghost use Rattle.giop_session.specs.Worlds.OnTheWay.{IsFramed, OnTheWay};
ghost use Rattle.laws_in_use.specs.Asking.{here_begins, here_ends};
ghost use Rattle.laws_in_use.specs.Locating.{door_begins};

use giop_session::laws::what_is_on_its_way;

/// Nine octets of two messages came, the others are outgoing: no other messages are on their way
/// so. Where an end waits and nothing is outgoing, none is. And where a message has twelve octets
/// and the end takes eight, the fault at the front is that it is too large, whatever follows.
pub fn messages_that_came_in_part()
    ensures there { OnTheWay
        (record { limit = 64; octets = take 9 (message_octets here_begins) })
        (here_begins ∷ here_ends ∷ [])
        (drop 9 (message_octets here_begins) ++ message_octets here_ends) }
    ensures no_others { (messages : List _) → OnTheWay
        (record { limit = 64; octets = take 9 (message_octets here_begins) }) messages
        (drop 9 (message_octets here_begins) ++ message_octets here_ends)
        → messages ≡ here_begins ∷ here_ends ∷ [] }
    ensures empty { OnTheWay (nothing_unread 64) [] [] }
    ensures none { (messages : List _) → OnTheWay (nothing_unread 64) messages []
        → messages ≡ [] }
    ensures framed { IsFramed door_begins }
    ensures large { BeginsWithFault 8 (message_octets door_begins ++ message_octets here_ends)
        (fault 8 TooLarge) }
    ensures fault { (more e : _) → BeginsWithFault 8 (message_octets door_begins ++ more) e
        → e ≡ fault 8 TooLarge }
{
    what_is_on_its_way();
}
