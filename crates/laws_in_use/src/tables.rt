//! The laws of a table of calls in use: doors under two ids, opened, shut and taken out in turn.
ghost use Rattle.std.specs.Prelude.{◌≡◌, ◌≢◌, ◌∷◌, [], ℕ, Ok, Err, Some, None};
ghost use Rattle.std.specs.FinMap as finite;
ghost use Rattle.std.specs.List.{AllByRecursion};
ghost use Rattle.giop_ids.specs.ById.{AddressesOnly, HasOnly};
ghost use Rattle.giop_ids.specs.Runs.{addressed, MeetsNoLimit, own, Runs};
ghost use Rattle.giop_mux.specs.declared.refusal.Refusal.TheVariants.{TooManyCalls};
ghost use Rattle.giop_mux.specs.Runs.{Answers, call_rules, Gives, is_of_call, IsOpen, Refuses};
ghost use Rattle.laws_in_use.specs.declared.doors.Door.TheVariants.{Shut};
ghost use Rattle.laws_in_use.specs.Doors.{doors, is_closed, step_of, take_results, taken, takes, takes_at_once, takes_in_turn};

use crate::doors::Doors;
use giop_mux::laws::{any_interleaving, each_call_alone, limits_in_any_order};

/// An open door isn't taken out, and a third meets the limit; 7 is gone at the end, and was
/// answered by what befell it alone.
pub fn doors_are_taken_out(rule: &Doors)
    ensures run { Runs (call_rules step_of is_closed 2) doors takes take_results taken }
    ensures met_none { MeetsNoLimit is_of_call 7 takes take_results }
    ensures met_one { MeetsNoLimit is_of_call 5 takes take_results → ⊥ }
    ensures seven { (n : _) → Runs (call_rules step_of is_closed 2) doors takes take_results n
        → finite.get n 7 ≡ None }
    ensures told { (n answers : _) → Runs (call_rules step_of is_closed 2) doors takes answers n
        → MeetsNoLimit is_of_call 7 takes answers
        → own 7 (addressed takes answers)
        ≡ Ok (Answers tt) ∷ Err IsOpen ∷ Ok (Answers tt) ∷ Ok (Gives (Some Shut)) ∷ [] }
{
    each_call_alone(rule);
}

/// Two orders that are equal for each id leave one table and one list of answers for each; and
/// under two ids, with a limit of two, no order meets it.
pub fn doors_in_two_orders(rule: &Doors)
    ensures same { (n k answers others : _)
        → Runs (call_rules step_of is_closed 2) doors takes_in_turn answers n
        → Runs (call_rules step_of is_closed 2) doors takes_at_once others k
        → ((id : ℕ) → MeetsNoLimit is_of_call id takes_in_turn answers)
        → ((id : ℕ) → MeetsNoLimit is_of_call id takes_at_once others) → n ≡ k }
    ensures told { (n k answers others : _)
        → Runs (call_rules step_of is_closed 2) doors takes_in_turn answers n
        → Runs (call_rules step_of is_closed 2) doors takes_at_once others k
        → ((id : ℕ) → MeetsNoLimit is_of_call id takes_in_turn answers)
        → ((id : ℕ) → MeetsNoLimit is_of_call id takes_at_once others)
        → own 7 (addressed takes_in_turn answers) ≡ own 7 (addressed takes_at_once others) }
    ensures none { HasOnly doors (7 ∷ 9 ∷ []) }
    ensures ids { AddressesOnly takes_in_turn (7 ∷ 9 ∷ []) }
    ensures within { (n answers : _)
        → Runs (call_rules step_of is_closed 2) doors takes_in_turn answers n
        → AllByRecursion (λ result. result ≢ Err (Refuses TooManyCalls)) answers }
{
    any_interleaving(rule);
    limits_in_any_order(rule);
}
