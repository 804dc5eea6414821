//! Laws of every table by id, whatever is stored for an id and whatever an act does to it. Each
//! function's contract is one of them; the bodies are empty, and no program calls them. giop_mux
//! and giop_frag state such laws of their own tables.
ghost use Rattle.std.specs.Prelude.{◌≡◌, ◌≤◌, ◌==◌, ℕ, Bool, true, List, ◌++◌, ◌+◌, length, Result, IsOk, Option, Some, None, is_some, if◌then◌else◌};
ghost use Rattle.std.specs.List.{AllByRecursion};
ghost use Rattle.std.specs.Ordering.{nat_cmp};
ghost use Rattle.std.specs.FinMap as finite;
ghost use Rattle.giop_ids.specs.declared.addressed.Addressed.{Addressed};
ghost use Rattle.giop_ids.specs.ById.{ById, put, HasOnly, AddressesOnly, ids_of, sum_of, weight_in};
ghost use Rattle.giop_ids.specs.Runs.{own, alone, told_alone, Rules, all_after, all_told, Runs, addressed, accepted, IsApart, Distinguishes, MeetsNoLimit, RefusedAs};

/// A value that is put is stored for its id, and what was stored for each other id stays. Two
/// tables that have the same stored for each id are equal.
pub fn one_id_changes<V>()
    ensures value { (m : ById V) (id : ℕ) (held : Option V) (q : ℕ) → finite.get (put m id held) q
        ≡ (if q == id then held else finite.get m q) }
    ensures equal { (m n : ById V)
        → ((id : ℕ) → finite.get m id ≡ finite.get n id) → m ≡ n }
{}

/// Where a list has each id of a table, the table has no more entries than the list has ids. Where
/// each id of a table is an id of another, the first has no more entries than the second.
pub fn entries_within_ids<V, W>()
    ensures listed { (m : ById V) (ids : List ℕ) → HasOnly m ids → finite.len m ≤ length ids }
    ensures shared { (m : ById V) (n : ById W)
        → ((id : ℕ) → is_some (finite.get m id) ≡ true → is_some (finite.get n id) ≡ true)
        → finite.len m ≤ finite.len n }
{}

/// The weight of all values together changes by what is put, and by what that replaces. An empty
/// table weighs 0.
pub fn sums_change_by_one<V>()
    ensures value { (weight : V → ℕ) (m : ById V) (id : ℕ) (held : Option V)
        → sum_of weight (put m id held) + weight_in weight (finite.get m id)
        ≡ sum_of weight m + weight_in weight held }
    ensures none { (weight : V → ℕ) → sum_of weight finite.empty ≡ 0 }
{}

/// After any list of acts, what is stored for each id is what its own acts alone make of what was
/// stored for it. The results of these acts are those that they have alone.
pub fn each_id_alone<S, V, Act, Answer, Why>()
    ensures value { (rules : Rules S V Act Answer Why) → IsApart rules
        → (s : S) (acts : List (Addressed Act)) (id : ℕ)
        → rules.at (all_after rules s acts) id ≡ alone rules.turn (rules.at s id) (own id acts) }
    ensures told { (rules : Rules S V Act Answer Why) → IsApart rules
        → (s : S) (acts : List (Addressed Act)) (id : ℕ)
        → own id (all_told rules s acts) ≡ told_alone rules.turn (rules.at s id) (own id acts) }
{}

/// Two lists of acts that are equal for each id, in any interleaving, leave the same stored for
/// each id, and its acts have the same results.
pub fn any_interleaving<S, V, Act, Answer, Why>()
    ensures value { (rules : Rules S V Act Answer Why) → IsApart rules
        → (s : S) (one other : List (Addressed Act)) → ((id : ℕ) → own id one ≡ own id other)
        → (id : ℕ) → rules.at (all_after rules s one) id ≡ rules.at (all_after rules s other) id }
    ensures told { (rules : Rules S V Act Answer Why) → IsApart rules
        → (s : S) (one other : List (Addressed Act)) → ((id : ℕ) → own id one ≡ own id other)
        → (id : ℕ) → own id (all_told rules s one) ≡ own id (all_told rules s other) }
{}

/// A run of calls, which continues after refusals, leaves what its accepted acts leave.
pub fn refused_acts_leave_nothing<S, V, Act, Answer, Why>()
    ensures { (rules : Rules S V Act Answer Why) (s t : S) (acts : List (Addressed Act))
        (results : List (Result Answer Why)) → Runs rules s acts results t
        → t ≡ all_after rules s (accepted acts results) }
{}

/// In a run of calls, what is stored for an id, and each answer and refusal of its own acts, are
/// those of its own acts alone, whatever happens to other ids. This holds unless one of its own
/// acts met a limit of the whole or was out of memory.
pub fn each_id_of_a_run_alone<S, V, Act, Answer, Why>()
    ensures value { (rules : Rules S V Act Answer Why) (of_id : Why → Bool)
        → IsApart rules → Distinguishes rules of_id
        → (s t : S) (acts : List (Addressed Act)) (results : List (Result Answer Why)) (id : ℕ)
        → Runs rules s acts results t → MeetsNoLimit of_id id acts results
        → rules.at t id ≡ alone rules.turn (rules.at s id) (own id acts) }
    ensures told { (rules : Rules S V Act Answer Why) (of_id : Why → Bool)
        → IsApart rules → Distinguishes rules of_id
        → (s t : S) (acts : List (Addressed Act)) (results : List (Result Answer Why)) (id : ℕ)
        → Runs rules s acts results t → MeetsNoLimit of_id id acts results
        → own id (addressed acts results)
        ≡ told_alone rules.turn (rules.at s id) (own id acts) }
{}

/// A run, and one that continues where it ended, are one run.
pub fn runs_go_on<S, V, Act, Answer, Why>()
    ensures { (rules : Rules S V Act Answer Why) (s mid t : S) (one other : List (Addressed Act))
        (results more : List (Result Answer Why))
        → Runs rules s one results mid → Runs rules mid other more t
        → Runs rules s (one ++ other) (results ++ more) t }
{}

/// What was found is returned, and out of memory only where nothing was found.
pub fn memory_is_told_last<Why>()
    ensures found { (memory why found : Why) → RefusedAs memory why (Some found) → why ≡ found }
    ensures none { (memory why : Why) → RefusedAs memory why None → why ≡ memory }
{}

/// The premises of the other laws can be met. Acts that are all accepted met no limit. Any list has
/// all ids of an empty table. A list of acts addresses only the ids that `ids_of` lists.
pub fn premises_are_met<V, Act, Answer, Why>()
    ensures accepted { (of_id : Why → Bool) (id : ℕ) (acts : List (Addressed Act))
        (results : List (Result Answer Why)) → AllByRecursion IsOk results
        → MeetsNoLimit of_id id acts results }
    ensures empty { (ids : List ℕ) → HasOnly (finite.empty {X = V} {R = nat_cmp}) ids }
    ensures listed { (acts : List (Addressed Act)) → AddressesOnly acts (ids_of acts) }
{}
