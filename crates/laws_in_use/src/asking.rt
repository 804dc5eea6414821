//! The headline in use at a client: two ways in which its end is answered the same.
ghost use Rattle.std.specs.Prelude.{◌≡◌, ◌≢◌, ◌∷◌, [], ℕ, Some, None};
ghost use Rattle.std.specs.FinMap as finite;
ghost use Rattle.giop_cdr.specs.declared.fault.CdrKind.TheVariants.{Short};
ghost use Rattle.giop_cdr.specs.declared.order.Order.TheVariants.{Little};
ghost use Rattle.giop_types.specs.declared.interfaces.interface.Interface.{Interface};
ghost use Rattle.giop_msg.specs.declared.version.Version.TheVariants.{V12};
ghost use Rattle.giop_calls.specs.declared.client.call.Call.TheVariants as asked;
ghost use Rattle.giop_calls.specs.declared.client.entry.ClientEntry.TheVariants.{LocateDone, Undecoded};
ghost use Rattle.giop_session.specs.Runs.ClientRuns.{client_run};
ghost use Rattle.giop_session.specs.Runs.SideRuns.{ActsHold, SideTakes, SideTakesItems};
ghost use Rattle.giop_session.specs.Calls.Sending.{entry_of};
ghost use Rattle.laws_in_use.specs.Asking.{here, one_way, other_way, told};
ghost use Rattle.laws_in_use.specs.Locating.{door, here_little, key, limits, tight_limits};
ghost use Rattle.giop_session.specs.Items.ClientCarries.{IsLocateReplyIn};

use giop_msg::laws::locate_replies_are_spelled;
use giop_session::laws::{same_calls_same_entries_at_client, what_is_cut_is_carried};

/// A LocateRequest is sent in two messages and its LocateReply comes in two; between them another
/// one is cancelled, its answer comes late, and its id is used again and answered by octets that
/// spell nothing. At the other end all of that comes in other reads, byte orders and pieces, the
/// two ids in another order. Neither end refuses anything, both hold the same calls, and each id
/// has the same entry, whatever the interface.
pub fn two_ways_of_being_answered()
    ensures one_taken { (interface : Interface) → (k : _)
        × SideTakesItems (client_run interface) limits one_way told k }
    ensures other_taken { (interface : Interface) → (k : _)
        × SideTakesItems (client_run interface) tight_limits other_way told k }
    ensures one_holds { (interface : Interface)
        → ActsHold (client_run interface) limits one_way told }
    ensures written { IsLocateReplyIn V12 Little here 24 (here_little ∷ []) }
    ensures other_holds { (interface : Interface)
        → ActsHold (client_run interface) tight_limits other_way told }
    ensures seven { (interface : Interface) (left k : _)
        → SideTakes (client_run interface) limits one_way left k
        → entry_of (finite.get k.table 7) ≡ Some (LocateDone door here) }
    ensures nine { (interface : Interface) (left k : _)
        → SideTakes (client_run interface) limits one_way left k
        → entry_of (finite.get k.table 9)
        ≡ Some (Undecoded (asked.Locate key) (record { at = 16; kind = Short })) }
    ensures others { (interface : Interface) (left k : _)
        → SideTakes (client_run interface) limits one_way left k
        → (id : ℕ) → id ≢ 7 → id ≢ 9 → entry_of (finite.get k.table id) ≡ None }
    ensures same { (interface : Interface) (left left' k k' : _)
        → SideTakes (client_run interface) limits one_way left k
        → SideTakes (client_run interface) tight_limits other_way left' k'
        → (id : ℕ) → entry_of (finite.get k.table id) ≡ entry_of (finite.get k'.table id) }
{
    locate_replies_are_spelled();
    what_is_cut_is_carried();
    same_calls_same_entries_at_client();
}
