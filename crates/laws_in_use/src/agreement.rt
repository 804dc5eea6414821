//! What two ends that hear one another agree on, in use: an answer that the client has, a call that
//! stands open at both, and for what an end fails.
ghost use Rattle.std.specs.Prelude.{◌≡◌, ◌≢◌, ◌∷◌, [], Err, List, None, Some, true};
ghost use Rattle.std.specs.FinMap as finite;
ghost use Rattle.std.specs.Option.{option_map};
ghost use Rattle.giop_types.specs.declared.interfaces.interface.Interface.{Interface};
ghost use Rattle.giop_msg.specs.Fault.{fault};
ghost use Rattle.giop_msg.specs.declared.fault.WireKind.TheVariants.{BadMagic};
ghost use Rattle.giop_msg.specs.declared.version.Version.TheVariants.{V12};
ghost use Rattle.giop_calls.specs.declared.client.entry.ClientEntry.TheVariants.{Done, LocateDone};
ghost use Rattle.giop_calls.specs.declared.fault.CallFault.TheVariants.{NotOpen};
ghost use Rattle.giop_calls.specs.declared.outcome.Outcome.TheVariants.{Pending};
ghost use Rattle.giop_calls.specs.declared.server.entry.ServerEntry.TheVariants.{Answered, LocateAnswered, LocateAsked};
ghost use Rattle.giop_calls.specs.declared.server.question.Question.TheVariants as question;
ghost use Rattle.giop_calls.specs.ClientTable as client_table;
ghost use Rattle.giop_session.specs.declared.laws.inputs.WorldEvent.{WorldEvent};
ghost use Rattle.giop_session.specs.declared.SessionFault.TheVariants.{Call as InCall, TooManyCalls, Wire};
ghost use Rattle.giop_session.specs.Calls.CallTable.{entry_at};
ghost use Rattle.giop_session.specs.Worlds.World.{new_world, WorldRuns, WorldState};
ghost use Rattle.laws_in_use.specs.Asking.{here};
ghost use Rattle.laws_in_use.specs.Exchange.{ping};
ghost use Rattle.laws_in_use.specs.Framed.{refusing};
ghost use Rattle.laws_in_use.specs.Locating.{door, key, limits};
ghost use Rattle.laws_in_use.specs.Runs.{Forms};
ghost use Rattle.laws_in_use.specs.Worlds.{asked_for, unasked};

use giop_session::laws::two_ends_agree;

/// A world runs by a schedule. Where the client has the answer that `door` is here, its server gave
/// that, and nothing stands behind it; where it has a Reply to `ping`, its server gave that. Where
/// `k` is asked for and stands at the server, and nothing is on its way, it is pending at the client
/// too. The cancel of what was never called is refused, and fails no end; a server that has too many
/// calls has as many as it may have; and no client finds another broker's header.
pub fn what_two_ends_agree_on()
    ensures runs { (interface : Interface) → WorldRuns interface limits limits unasked
        (Err (InCall 9 NotOpen) ∷ []) (new_world limits limits) }
    ensures located { (interface : Interface) (schedule : List WorldEvent) (told : _)
        (w : WorldState) → WorldRuns interface limits limits schedule told w
        → w.client.fault ≡ None → w.server.fault ≡ None
        → entry_at w.client.calls 7 ≡ Some (LocateDone door here)
        → entry_at w.server.calls 7 ≡ Some (LocateAnswered (Some door.target) true) }
    ensures bare { (interface : Interface) (schedule : List WorldEvent) (told : _)
        (w : WorldState) → WorldRuns interface limits limits schedule told w
        → w.client.fault ≡ None → w.server.fault ≡ None → entry_at w.client.calls 7
        ≢ Some (LocateDone door (record here { rest = 9 ∷ [] })) }
    ensures replied { (interface : Interface) (schedule : List WorldEvent) (told : _)
        (w : WorldState) → WorldRuns interface limits limits schedule told w
        → w.client.fault ≡ None → w.server.fault ≡ None
        → entry_at w.client.calls 7 ≡ Some (Done (ping V12) refusing)
        → entry_at w.server.calls 7
        ≡ Some (Answered (question.Request (ping V12)) refusing 0) }
    ensures pending { (interface : Interface) (forms : Forms) (told : _) (w : WorldState)
        → WorldRuns interface limits limits (asked_for forms) told w
        → w.client.fault ≡ None → w.server.fault ≡ None
        → w.client.outgoing ≡ [] → w.server.outgoing ≡ []
        → entry_at w.server.calls 9 ≡ Some (LocateAsked key)
        → option_map client_table.outcome (entry_at w.client.calls 9) ≡ Some Pending }
    ensures kept { (interface : Interface) (told : _) (w : WorldState)
        → WorldRuns interface limits limits unasked told w
        → w.client.fault ≢ Some (InCall 9 NotOpen) }
    ensures full { (interface : Interface) (schedule : List WorldEvent) (told : _)
        (w : WorldState) → WorldRuns interface limits limits schedule told w
        → w.server.fault ≡ Some TooManyCalls
        → finite.len w.server.calls.table ≡ 3 }
    ensures sound { (interface : Interface) (schedule : List WorldEvent) (told : _)
        (w : WorldState) → WorldRuns interface limits limits schedule told w
        → w.client.fault ≢ Some (Wire (fault 0 BadMagic)) }
{
    two_ends_agree();
}
