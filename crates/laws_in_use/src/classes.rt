//! Which refusals are of a call alone, and which of a limit or of memory: true and false for each.
ghost use Rattle.std.specs.Prelude.{◌≡◌, ℕ, Option, Err, true, false};
ghost use Rattle.giop_ids.specs.Runs.{Distinguishes};
ghost use Rattle.giop_mux.specs.declared.refusal.Refusal.TheVariants as refusal;
ghost use Rattle.giop_mux.specs.Runs.{call_rules, is_of_call, IsOpen, Refuses, turn};
ghost use Rattle.giop_frag.specs.declared.fault.GatherFault.{GatherFault};
ghost use Rattle.giop_frag.specs.declared.fault.GatherFault.TheVariants.{GatherFull, NoMemory, OrderDiffers, Stray};
ghost use Rattle.giop_frag.specs.Gathered.{Pieces};
ghost use Rattle.giop_frag.specs.Runs.{gather_rules, Happening, is_of_id};
ghost use Rattle.giop_frag.specs.Runs.{turn as gather_turn};
ghost use Rattle.laws_in_use.specs.declared.doors.Stuck.{Stuck};
ghost use Rattle.laws_in_use.specs.Doors.{is_closed, step_of};

/// A gatherer refuses as Stray or OrderDiffers for the id's own sake, and as GatherFull or NoMemory
/// not: limits and memory are of the one kind, and whatever an id's own pieces are refused for is
/// of the other.
pub fn refusals_of_a_gatherer()
    ensures stray { is_of_id Stray ≡ true }
    ensures order { is_of_id OrderDiffers ≡ true }
    ensures full { is_of_id GatherFull ≡ false }
    ensures memory { is_of_id NoMemory ≡ false }
    ensures classes { (limit : ℕ) → Distinguishes (gather_rules limit) is_of_id }
    ensures own { (held : Option Pieces) (what : Happening) (why : GatherFault)
        → gather_turn held what ≡ Err why → is_of_id why ≡ true }
{}

/// A table of calls refuses by its rule, or since a call is open, for the call's own sake, and as
/// TooManyCalls or NoMemory not.
pub fn refusals_of_a_table()
    ensures rule { is_of_call {F = Stuck} (Refuses (refusal.Rule (record {}))) ≡ true }
    ensures open { is_of_call {F = Stuck} IsOpen ≡ true }
    ensures many { is_of_call {F = Stuck} (Refuses refusal.TooManyCalls) ≡ false }
    ensures memory { is_of_call {F = Stuck} (Refuses refusal.NoMemory) ≡ false }
    ensures classes { (limit : ℕ) → Distinguishes (call_rules step_of is_closed limit) is_of_call }
    ensures own { (door what why : _) → turn step_of is_closed door what ≡ Err why
        → is_of_call why ≡ true }
{}
