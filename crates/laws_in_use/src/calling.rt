//! Calls that `call` makes, in use: one for which there is room, one that waits for it, and one
//! that is refused.
ghost use Rattle.std.specs.Prelude.{◌≡◌, ◌≢◌, ◌∷◌, [], None, Some, length};
ghost use Rattle.std.specs.FinMap as finite;
ghost use Rattle.giop_json.specs.InterfaceFromJson.{interface_view};
ghost use Rattle.giop_types.specs.declared.interfaces.interface.Interface.{Interface};
ghost use Rattle.giop_show.specs.declared.status.Status.TheVariants.{Refused};
ghost use Rattle.giop_commands.specs.Session.Printed.{wire};
ghost use Rattle.giop_calling.specs.Call.Calling.{new_box};
ghost use Rattle.giop_calling.specs.Call.Printed.{IsCalled};
ghost use Rattle.giop_calling.specs.Call.Streaming.{Makes};
ghost use Rattle.laws_in_use.specs.Calling.{HasNoPing, asked_for, has_called, no_ping, one_at_once, ping_line};
ghost use Rattle.laws_in_use.specs.Checked.{as_text};
ghost use Rattle.laws_in_use.specs.InJson.{adding};
ghost use Rattle.laws_in_use.specs.Pinged.{HasPing};

use giop_calling::laws::{calls_are_made_where_none_is_open, refused_calls_write_nothing};

/// Of two calls the first is made at an end that holds one, and the second waits. So one is open
/// there, and wherever the second waits.
pub fn one_call_waits_for_another()
    ensures made { (interface : Interface) → HasPing interface → Makes (asked_for interface []) None
        (ping_line 7 ∷ ping_line 9 ∷ []) (ping_line 9 ∷ []) (new_box one_at_once) None has_called }
    ensures open { length (finite.keys has_called.calls.table) ≡ 1 }
    ensures waits { (interface : Interface) (fault calls s t : _)
        → Makes (asked_for interface []) fault calls (ping_line 9 ∷ []) s None t
        → length (finite.keys t.calls.table) ≢ 0 }
{
    calls_are_made_where_none_is_open();
}

/// An interface of `add` and `halt` has no `ping`. A call of an operation that its object hasn't is
/// refused at this end: that is told, nothing is written, and what would answer stays unread.
pub fn a_call_that_no_object_has()
    ensures lacks { (interface : Interface) → interface_view interface ≡ adding
        → interface.objects.entries ≡ [] → HasNoPing interface }
    ensures refused { (interface : Interface) → HasNoPing interface
        → IsCalled (asked_for interface (ping_line 7 ∷ [])) as_text
        (wire (Some (7 ∷ [])) (Some [])) (wire (Some (7 ∷ [])) (Some [])) (Some []) (Some no_ping)
        Refused }
    ensures kept { (interface : Interface) → HasNoPing interface → (after new status : _)
        → IsCalled (asked_for interface (ping_line 7 ∷ [])) as_text
        (wire (Some (7 ∷ [])) (Some [])) after (Some []) (Some new) status
        → after ≡ wire (Some (7 ∷ [])) (Some []) }
{
    refused_calls_write_nothing();
}
