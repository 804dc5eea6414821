//! A rule as small as can be, and the laws of every table by id in use by it: doors under ids,
//! which are opened and shut in turn, with a limit that one of them meets.
ghost use Rattle.std.specs.Prelude.{◌≡◌, ◌≤◌, ◌++◌, ◌∷◌, [], ℕ, List, Ok, Err, Result, Some, None};
ghost use Rattle.std.specs.FinMap as finite;
ghost use Rattle.giop_ids.specs.ById.{AddressesOnly, HasOnly, ids_of, put, sum_of};
ghost use Rattle.giop_ids.specs.Runs.{addressed, all_after, all_told, Distinguishes, IsApart, MeetsNoLimit, own, RefusedAs, Runs};
ghost use Rattle.giop_mux.specs.declared.refusal.Refusal.{Refusal};
ghost use Rattle.giop_mux.specs.declared.refusal.Refusal.TheVariants.{NoMemory, Rule};
ghost use Rattle.laws_in_use.specs.declared.doors.Door.{Door};
ghost use Rattle.laws_in_use.specs.declared.doors.Door.TheVariants.{Open, Shut};
ghost use Rattle.laws_in_use.specs.declared.doors.Push.{Push};
ghost use Rattle.laws_in_use.specs.declared.doors.Stuck.{Stuck};
ghost use Rattle.laws_in_use.specs.Doors.{accepted_pushes, at_once, both_shut, doors, in_turn, is_of_door, more, more_results, none_open, open_doors, pushes, results, rules, seven_shut, shut_doors, step_of, stuck};

use giop_ids::laws::{
    any_interleaving, each_id_alone, each_id_of_a_run_alone, entries_within_ids,
    memory_is_told_last, one_id_changes, premises_are_met, refused_acts_leave_nothing, runs_go_on,
    sums_change_by_one,
};
use giop_mux::{CallRule, Mux, Refusal, Step};

/// The rule of doors.
#[derive(Clone, Copy)]
pub struct Doors;

/// A door under an id.
#[derive(Clone, Copy)]
pub enum Door {
    /// It may be walked through.
    Open,
    /// It was shut, and may be opened again.
    Shut,
}

/// What may befall a door.
#[derive(Clone, Copy)]
pub enum Push {
    /// It is opened; refused where it is open.
    Opens,
    /// It is shut; refused where it isn't open.
    Shuts,
}

/// Why a door doesn't move.
#[derive(Clone, Copy)]
pub struct Stuck;

impl CallRule for Doors {
    ghost use Rattle.std.specs.Prelude.{◌≡◌};
    ghost use Rattle.laws_in_use.specs.Doors.{fault_keeps, is_closed, step_of};

    type Entry = Door;

    type Event = Push;

    type Answer = ();

    type Fault = Stuck;

    ghost next = { λ rule. step_of };

    ghost closed = { λ rule. is_closed };

    ghost fault_keeps = { λ rule. fault_keeps };

    fn step(&self, entry: Option<Door>, event: Push) -> Step<Door, (), Stuck>
        ensures { result ≡ step_of entry event }
    {
        match (entry, event) {
            (None, Push::Opens) => Step {
                entry: Some(Door::Open),
                outcome: Ok(()),
            },
            (Some(Door::Shut), Push::Opens) => Step {
                entry: Some(Door::Open),
                outcome: Ok(()),
            },
            (Some(Door::Open), Push::Shuts) => Step {
                entry: Some(Door::Shut),
                outcome: Ok(()),
            },
            (entry, _) => Step {
                entry,
                outcome: Err(Stuck),
            },
        }
    }

    fn is_closed(&self, entry: &Door) -> bool {
        matches!(entry, Door::Shut)
    }
}

/// Doors under 7 and 9 are pushed in turn; one push is refused for the door's own sake, and one
/// under a third id meets the limit of two. 7 has what its own pushes leave, and is answered as by
/// these alone; and where no push is refused for a limit, any other order leaves and answers the
/// same.
pub fn doors_in_turn()
    ensures apart { IsApart rules }
    ensures classes { Distinguishes rules is_of_door }
    ensures run { Runs rules none_open pushes results seven_shut }
    ensures met_none { MeetsNoLimit is_of_door 7 pushes results }
    ensures met_one { MeetsNoLimit is_of_door 5 pushes results → ⊥ }
    ensures seven { (s : _) → Runs rules none_open pushes results s
        → finite.get s.entries 7 ≡ Some Shut }
    ensures told { (s answers : _) → Runs rules none_open pushes answers s
        → MeetsNoLimit is_of_door 7 pushes answers
        → own 7 (addressed pushes answers) ≡ Ok tt ∷ Err stuck ∷ Ok tt ∷ [] }
    ensures accepted { (s : _) → Runs rules none_open pushes results s
        → s ≡ all_after rules none_open accepted_pushes }
    ensures continued { Runs rules none_open (pushes ++ more) (results ++ more_results) both_shut }
    ensures alone { finite.get (all_after rules none_open pushes).entries 7 ≡ Some Shut }
    ensures told_alone { own 7 (all_told rules none_open pushes)
        ≡ Ok tt ∷ Err stuck ∷ Ok tt ∷ [] }
    ensures same { (id : ℕ) → finite.get (all_after rules none_open in_turn).entries id
        ≡ finite.get (all_after rules none_open at_once).entries id }
    ensures same_told { (id : ℕ) → own id (all_told rules none_open in_turn)
        ≡ own id (all_told rules none_open at_once) }
{
    each_id_of_a_run_alone::<Mux<Doors>, Option<Door>, Push, (), Refusal<Stuck>>();
    refused_acts_leave_nothing::<Mux<Doors>, Option<Door>, Push, (), Refusal<Stuck>>();
    runs_go_on::<Mux<Doors>, Option<Door>, Push, (), Refusal<Stuck>>();
    each_id_alone::<Mux<Doors>, Option<Door>, Push, (), Refusal<Stuck>>();
    any_interleaving::<Mux<Doors>, Option<Door>, Push, (), Refusal<Stuck>>();
}

/// A table by id of two doors: each stands under its id, whichever came first; there are no more of
/// them than ids, and as many open as shut ones; and what is put counts once in a sum.
pub fn a_table_of_two_doors()
    ensures seven { finite.get open_doors 7 ≡ Some Open }
    ensures either { put (put doors 9 (Some Open)) 7 (Some Open) ≡ open_doors }
    ensures only { HasOnly open_doors (7 ∷ 9 ∷ []) }
    ensures two { finite.len open_doors ≤ 2 }
    ensures as_many { finite.len open_doors ≤ finite.len shut_doors }
    ensures sum { sum_of (λ door. 4) open_doors ≡ 8 }
    ensures none { sum_of {V = Door} (λ door. 4) finite.empty ≡ 0 }
{
    one_id_changes::<Door>();
    entries_within_ids::<Door, Door>();
    sums_change_by_one::<Door>();
}

/// What was found is told, and out of memory only where nothing was; and premises that hold of
/// every run without a refusal.
pub fn premises_in_use()
    ensures refused { RefusedAs {Why = Refusal Stuck} NoMemory stuck (Some stuck) }
    ensures found { (why : Refusal Stuck) → RefusedAs NoMemory why (Some stuck) → why ≡ stuck }
    ensures memory { (why : Refusal Stuck) → RefusedAs NoMemory why None → why ≡ NoMemory }
    ensures met { MeetsNoLimit is_of_door 9 more more_results }
    ensures none { HasOnly doors (7 ∷ []) }
    ensures listed { AddressesOnly pushes (ids_of pushes) }
{
    memory_is_told_last::<Refusal<Stuck>>();
    premises_are_met::<Door, Push, (), Refusal<Stuck>>();
}
