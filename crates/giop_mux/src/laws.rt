//! Laws of a `Mux` by any rule: what a run over the calls of many ids leaves of each, and what it
//! returns for each. A function's contract is a law; the bodies are empty, and no program calls
//! them.
ghost use Rattle.std.specs.Prelude.{◌≡◌, ◌≢◌, ◌≤◌, ℕ, Err, length};
ghost use Rattle.std.specs.List.{AllByRecursion};
ghost use Rattle.std.specs.FinMap as finite;
ghost use Rattle.giop_ids.specs.ById.{HasOnly, AddressesOnly};
ghost use Rattle.giop_ids.specs.Runs.{own, alone, told_alone, Runs, addressed, MeetsNoLimit};
ghost use Rattle.giop_mux.specs.Runs.{turn, call_rules, is_of_call, Refuses};
ghost use Rattle.giop_mux.specs.declared.refusal.Refusal.TheVariants.{TooManyCalls};

mod refusals;

use crate::CallRule;
pub use refusals::{limits_let_in_what_fits, refusals_are_numbered};

/// In any run of steps and takes, which continues after refusals, the entry of an id and the
/// results of its own steps and takes are those of its own alone. This holds unless one of them met
/// the limit or was out of memory.
pub fn each_call_alone<R: CallRule>(rule: &R)
    ensures value { (limit : ℕ) (m n : _) (acts results : _) (id : ℕ)
        → Runs (call_rules (R.next rule.now) (R.closed rule.now) limit) m acts results n
        → MeetsNoLimit is_of_call id acts results
        → finite.get n id
        ≡ alone (turn (R.next rule.now) (R.closed rule.now)) (finite.get m id) (own id acts) }
    ensures told { (limit : ℕ) (m n : _) (acts results : _) (id : ℕ)
        → Runs (call_rules (R.next rule.now) (R.closed rule.now) limit) m acts results n
        → MeetsNoLimit is_of_call id acts results
        → own id (addressed acts results)
        ≡ told_alone (turn (R.next rule.now) (R.closed rule.now)) (finite.get m id) (own id acts) }
{}

/// Two runs whose steps and takes are equal for each id, in any interleaving, leave equal tables
/// and return the same results for each id. This holds where they meet no limit and are never out
/// of memory.
pub fn any_interleaving<R: CallRule>(rule: &R)
    ensures value { (limit : ℕ) (m n n' : _) (one other : _) (results results' : _)
        → Runs (call_rules (R.next rule.now) (R.closed rule.now) limit) m one results n
        → Runs (call_rules (R.next rule.now) (R.closed rule.now) limit) m other results' n'
        → ((id : ℕ) → MeetsNoLimit is_of_call id one results)
        → ((id : ℕ) → MeetsNoLimit is_of_call id other results')
        → ((id : ℕ) → own id one ≡ own id other) → n ≡ n' }
    ensures told { (limit : ℕ) (m n n' : _) (one other : _) (results results' : _)
        → Runs (call_rules (R.next rule.now) (R.closed rule.now) limit) m one results n
        → Runs (call_rules (R.next rule.now) (R.closed rule.now) limit) m other results' n'
        → ((id : ℕ) → MeetsNoLimit is_of_call id one results)
        → ((id : ℕ) → MeetsNoLimit is_of_call id other results')
        → ((id : ℕ) → own id one ≡ own id other)
        → (id : ℕ) → own id (addressed one results) ≡ own id (addressed other results') }
{}

/// Where a table and a run of steps and takes have, together, at most as many ids as the limit, no
/// order of these steps and takes is refused as `TooManyCalls`.
pub fn limits_in_any_order<R: CallRule>(rule: &R)
    ensures { (limit : ℕ) (m n : _) (acts results : _) (ids : _)
        → HasOnly m ids → AddressesOnly acts ids → length ids ≤ limit
        → Runs (call_rules (R.next rule.now) (R.closed rule.now) limit) m acts results n
        → AllByRecursion (λ result. result ≢ Err (Refuses TooManyCalls)) results }
{}
