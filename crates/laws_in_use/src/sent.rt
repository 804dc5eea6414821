//! What ends plan to send in use: a LocateRequest of 1.0 in one piece, one of 1.2 in two, the
//! cancel of the first and the answer to it. The other end reads them back, and a lane carries them.
ghost use Rattle.std.specs.Prelude.{◌≡◌, ◌∷◌, [], All, None, Some, false, map, true};
ghost use Rattle.std.specs.List.{AllByRecursion};
ghost use Rattle.giop_cdr.specs.declared.order.Order.TheVariants.{Big, Little};
ghost use Rattle.giop_types.specs.declared.interfaces.interface.Interface.{Interface};
ghost use Rattle.giop_msg.specs.declared.version.Version.TheVariants.{V10, V12};
ghost use Rattle.giop_calls.specs.Lane.{Continues, Opens};
ghost use Rattle.giop_calls.specs.declared.client.call.Call.TheVariants as asked;
ghost use Rattle.giop_calls.specs.declared.client.heard.HeardReply.TheVariants as reply;
ghost use Rattle.giop_calls.specs.declared.kind.CallKind.TheVariants as kind;
ghost use Rattle.giop_calls.specs.declared.server.heard.HeardCall.TheVariants as call;
ghost use Rattle.giop_session.specs.Acts.ClientCalls.{IsCancel};
ghost use Rattle.giop_session.specs.Items.Carries.{CarriesItem, Got};
ghost use Rattle.giop_session.specs.Items.ClientCarries.{client_telling, AwaitsLocateReply};
ghost use Rattle.giop_session.specs.Items.ServerCarries.{server_telling};
ghost use Rattle.giop_session.specs.Runs.Events.{Comes};
ghost use Rattle.giop_session.specs.Worlds.Coding.{coding};
ghost use Rattle.giop_session.specs.Worlds.LaneAtEnds.{seen};
ghost use Rattle.giop_session.specs.Worlds.OnTheWay.{IsFramed, Names};
ghost use Rattle.giop_session.specs.Worlds.OwnLane.{PlansCall, PlansLocated, SendsLocated};
ghost use Rattle.giop_session.specs.Acts.ServerAnswers.{IsLocateAnswer};
ghost use Rattle.laws_in_use.specs.Asking.{unknown_big};
ghost use Rattle.laws_in_use.specs.Locating.{cancel_little, door, door_begins, door_ends, key, key_big};
ghost use Rattle.laws_in_use.specs.Sent.{answers_key, asks_door, asks_key, cancels_key};

use giop_session::laws::{
    what_is_sent_is_a_lanes, what_is_sent_is_an_item, what_is_sent_is_framed, what_is_sent_is_read,
    what_is_sent_names_its_id,
};

/// A client plans to ask where `k` is and to cancel that, and a server to answer it, in 1.0. What
/// is sent is read back, is framed, names the id 9, is on its lane what its header says, and is an
/// item at the other end.
pub fn a_locate_request_of_1_0()
    ensures asks { (interface : Interface) → PlansCall interface None (asked.Locate key) asks_key }
    ensures answers { PlansLocated key false answers_key }
    ensures sends { SendsLocated key false unknown_big }
    ensures answers_it { IsLocateAnswer 9 false Big (Some V10) answers_key }
    ensures cancels { IsCancel 9 Little (Some V10) cancels_key }
    ensures read { (interface : Interface)
        → (coding interface).read_call (key_big ∷ []) ≡ call.Locate key }
    ensures read_back { (interface : Interface) → (told : _)
        × ((coding interface).read_reply (asked.Locate key) (unknown_big ∷ [])
        ≡ reply.Locate told) × (told.head.status ≡ 0) × (told.rest ≡ []) }
    ensures carried { (interface : Interface)
        → map seen (key_big ∷ []) ≡ Opens kind.Locate V10 true key_big ∷ [] }
    ensures carried_back { (interface : Interface)
        → seen unknown_big ≡ Opens kind.Locate V10 true unknown_big }
    ensures framed { (interface : Interface) → All IsFramed (key_big ∷ []) }
    ensures framed_back { (interface : Interface) → IsFramed unknown_big }
    ensures framed_too { IsFramed cancel_little }
    ensures named { (interface : Interface) → AllByRecursion (Names 9) (key_big ∷ []) }
    ensures named_back { Names 9 unknown_big }
    ensures named_too { Names 9 cancel_little }
    ensures item { (interface : Interface) (there : _)
        → CarriesItem (server_telling interface) there (Got (call.Locate key))
        (Comes key_big ∷ []) }
    ensures waits { AwaitsLocateReply (record { entry = None; latest = Some (asked.Locate key) }) key }
    ensures item_back { (interface : Interface) → (told : _)
        × CarriesItem (client_telling interface)
        (record { entry = None; latest = Some (asked.Locate key) }) (Got (reply.Locate told))
        (Comes unknown_big ∷ []) × (told.head.status ≡ 0) × (told.rest ≡ []) }
{
    what_is_sent_is_read();
    what_is_sent_is_a_lanes();
    what_is_sent_is_framed();
    what_is_sent_names_its_id();
    what_is_sent_is_an_item();
}

/// A client plans to ask where `door` is in two pieces, of which the second has nothing but octets
/// of the key: both together are read back, each is framed and names the id 7, and on the lane the
/// first opens the call and the second ends it.
pub fn a_locate_request_in_two_pieces()
    ensures asks { (interface : Interface)
        → PlansCall interface None (asked.Locate door) asks_door }
    ensures read { (interface : Interface)
        → (coding interface).read_call (door_begins ∷ door_ends ∷ []) ≡ call.Locate door }
    ensures carried { (interface : Interface) → map seen (door_begins ∷ door_ends ∷ [])
        ≡ Opens kind.Locate V12 false door_begins ∷ Continues true door_ends ∷ [] }
    ensures framed { (interface : Interface) → All IsFramed (door_begins ∷ door_ends ∷ []) }
    ensures named { (interface : Interface)
        → AllByRecursion (Names 7) (door_begins ∷ door_ends ∷ []) }
{
    what_is_sent_is_read();
    what_is_sent_is_a_lanes();
    what_is_sent_is_framed();
    what_is_sent_names_its_id();
}
