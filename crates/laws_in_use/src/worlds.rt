//! Worlds in use: a client that cancels what it never called, and a LocateRequest that one end
//! sends and that stands at the other.
ghost use Rattle.std.specs.Prelude.{◌≡◌, ◌≢◌, ◌++◌, ◌∷◌, [], Err, IfOk, List, None, Ok, Some};
ghost use Rattle.std.specs.Option.{option_map};
ghost use Rattle.giop_calls.specs.ClientTable.{outcome};
ghost use Rattle.giop_calls.specs.declared.fault.CallFault.TheVariants.{NotOpen};
ghost use Rattle.giop_calls.specs.declared.outcome.Outcome.TheVariants.{Pending};
ghost use Rattle.giop_calls.specs.declared.server.entry.ServerEntry.TheVariants.{LocateAsked};
ghost use Rattle.giop_msg.specs.Msg.{message_octets};
ghost use Rattle.giop_session.specs.declared.laws.inputs.ServerInput.{ServerInput};
ghost use Rattle.giop_session.specs.declared.SessionFault.TheVariants.{Call as InCall};
ghost use Rattle.giop_session.specs.Calls.CallTable.{entry_at};
ghost use Rattle.giop_session.specs.Worlds.World.{ends_of, fed_to_server};
ghost use Rattle.laws_in_use.specs.Locating as locating;
ghost use Rattle.laws_in_use.specs.Runs.{Forms};
ghost use Rattle.laws_in_use.specs.Worlds.{asked_for, unasked};

use giop_calls::{ClientRule, ServerRule};
use giop_msg::laws::one_split;
use giop_session::laws::{
    World, WorldEvent, own_messages_alone, run_world, what_an_own_act_leaves,
};
use giop_session::{Limits, SessionFault};
use giop_types::Interface;
use std::alloc::{AllocError, Global};

/// A cancel of what was never called is refused, and fails no end. Where a LocateRequest is sent
/// and all of it arrives, it stands at the server; and where nothing is on its way then, it is
/// pending at the client. Whatever happens, what the client put out never begins with a
/// LocateReply: what the server was fed and what is on its way are messages of a client.
pub fn a_world_of_two_ends<'a>(
    alloc: Global,
    interface: &'a Interface,
    schedule: Vec<WorldEvent>,
) -> Result<(World<'a>, Vec<Result<(), SessionFault>>), AllocError>
    ensures refused { schedule.items ≡ unasked → IfOk result (λ run.
        run.1.items ≡ Err (InCall 9 NotOpen) ∷ []) }
    ensures asked { (forms : Forms) → schedule.items ≡ asked_for forms → IfOk result (λ run.
        run.1.items ≡ Ok tt ∷ Ok tt ∷ []
        → entry_at run.0.server.calls 9 ≡ Some (LocateAsked locating.key)) }
    ensures same { IfOk result (λ run. (run.0.client.limits ≡ locating.limits)
        × (run.0.server.limits ≡ locating.limits)) }
    ensures joined { IfOk result (λ run. (inputs : List ServerInput) × ((more : List _)
        → fed_to_server inputs ++ run.0.client.outgoing
        ≢ message_octets locating.here_big ++ more)) }
    ensures agreed { (forms : Forms) → schedule.items ≡ asked_for forms → IfOk result (λ run.
        (ends_of run.0).client.fault ≡ None → (ends_of run.0).server.fault ≡ None
        → (ends_of run.0).client.outgoing ≡ [] → (ends_of run.0).server.outgoing ≡ []
        → entry_at (ends_of run.0).server.calls 9 ≡ Some (LocateAsked locating.key)
        → option_map outcome (entry_at (ends_of run.0).client.calls 9) ≡ Some Pending) }
    ensures stands { schedule.items ≡ unasked → IfOk result (λ run.
        (ends_of run.0).client.fault ≢ Some (InCall 9 NotOpen)) }
{
    one_split();
    own_messages_alone(&ServerRule);
    what_an_own_act_leaves(&ClientRule);
    let limits = Limits {
        calls: 3,
        message: 64,
        gathered: 20,
    };
    Ok(run_world(alloc, interface, limits, limits, schedule)?)
}
