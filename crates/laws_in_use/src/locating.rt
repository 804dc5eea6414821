//! The headline in use: two ways in which a server's end is given the same calls.
ghost use Rattle.std.specs.Prelude.{◌≡◌, ◌≢◌, ℕ, true, Some, None, ◌∷◌, []};
ghost use Rattle.std.specs.FinMap as finite;
ghost use Rattle.giop_cdr.specs.declared.fault.CdrKind.TheVariants.{BadCount};
ghost use Rattle.giop_types.specs.declared.interfaces.interface.Interface.{Interface};
ghost use Rattle.giop_msg.specs.declared.messages.request_fault.RequestFault.TheVariants.{Header};
ghost use Rattle.giop_msg.specs.declared.version.Version.TheVariants.{V10, V12};
ghost use Rattle.giop_calls.specs.declared.kind.CallKind.TheVariants as kind;
ghost use Rattle.giop_calls.specs.declared.server.entry.ServerEntry.TheVariants.{LocateAnswered, Undecoded};
ghost use Rattle.giop_session.specs.Runs.ServerRuns.{server_run};
ghost use Rattle.giop_session.specs.Runs.SideRuns.{ActsHold, SideTakes, SideTakesItems};
ghost use Rattle.giop_session.specs.Calls.Sending.{entry_of};
ghost use Rattle.laws_in_use.specs.Locating.{door, limits, one_way, other_way, said, tight_limits, door_begins, door_ends};
ghost use Rattle.giop_session.specs.Items.ServerCarries.{IsLocateRequestIn};
ghost use Rattle.giop_cdr.specs.declared.order.Order.TheVariants.{Big};

use giop_msg::laws::locate_requests_are_spelled;
use giop_session::laws::{same_calls_same_entries_at_server, what_is_cut_is_carried};

/// One LocateRequest is cut in two, and between its pieces another one comes in the other byte
/// order and version; it is cancelled, and its id used again by octets that spell nothing. At the
/// other end all of that comes in one read, in other byte orders, the two ids in another order,
/// uncut. Neither end refuses anything, both hold the same calls, and each id has the same entry,
/// whatever the interface.
pub fn two_ways_of_locating()
    ensures one_taken { (interface : Interface) → (k : _)
        × SideTakesItems (server_run interface) limits one_way said k }
    ensures other_taken { (interface : Interface) → (k : _)
        × SideTakesItems (server_run interface) tight_limits other_way said k }
    ensures written { IsLocateRequestIn V12 Big door 24 (door_begins ∷ door_ends ∷ []) }
    ensures one_holds { (interface : Interface)
        → ActsHold (server_run interface) limits one_way said }
    ensures other_holds { (interface : Interface)
        → ActsHold (server_run interface) tight_limits other_way said }
    ensures seven { (interface : Interface) (left k : _)
        → SideTakes (server_run interface) limits one_way left k
        → entry_of (finite.get k.table 7) ≡ Some (LocateAnswered (Some door.target) true) }
    ensures nine { (interface : Interface) (left k : _)
        → SideTakes (server_run interface) limits one_way left k
        → entry_of (finite.get k.table 9) ≡ Some (Undecoded (record {
          version = V10;
          expects = Some kind.Locate;
          fault = Header (record { at = 16; kind = BadCount });
        })) }
    ensures others { (interface : Interface) (left k : _)
        → SideTakes (server_run interface) limits one_way left k
        → (id : ℕ) → id ≢ 7 → id ≢ 9 → entry_of (finite.get k.table id) ≡ None }
    ensures same { (interface : Interface) (left left' k k' : _)
        → SideTakes (server_run interface) limits one_way left k
        → SideTakes (server_run interface) tight_limits other_way left' k'
        → (id : ℕ) → entry_of (finite.get k.table id) ≡ entry_of (finite.get k'.table id) }
{
    locate_requests_are_spelled();
    what_is_cut_is_carried();
    same_calls_same_entries_at_server();
}
