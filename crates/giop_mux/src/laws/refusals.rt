//! Laws of why a table refuses. Each function's contract is a law; the bodies are empty, and no
//! program calls them.
ghost use Rattle.std.specs.Prelude.{◌≡◌, ◌≤◌, ◌↔◌, ◌⊎◌, ℕ, Option, None};
ghost use Rattle.std.specs.FinMap as finite;
ghost use Rattle.giop_ids.specs.ById.{ById, put};
ghost use Rattle.giop_mux.specs.Calls.{room_refusal};
ghost use Rattle.giop_mux.specs.Faults.{refusal_number};
ghost use Rattle.giop_mux.specs.declared.refusal.Refusal.{Refusal};
ghost use Rattle.giop_mux.specs.declared.refusal.Refusal.TheVariants.{Rule};

/// The numbers of the refusals are 1 to 3, each the number of one refusal, where those for faults of
/// the rule count as one.
pub fn refusals_are_numbered<F>()
    ensures within { (refusal : Refusal F) → (1 ≤ refusal_number refusal)
        × (refusal_number refusal ≤ 3) }
    ensures once { (one other : Refusal F) → refusal_number one ≡ refusal_number other
        → (one ≡ other) ⊎ ((fault another : F) × (one ≡ Rule fault) × (other ≡ Rule another)) }
    ensures each { (fault : F) (number : ℕ) → 1 ≤ number → number ≤ 3
        → (refusal : Refusal F) × (refusal_number refusal ≡ number) }
{}

/// A table within its limit has room for what a step leaves exactly where it is within the limit
/// with that.
pub fn limits_let_in_what_fits<E, F>()
    ensures { (m : ById E) (limit id : ℕ) (entry : Option E) → finite.len m ≤ limit
        → (room_refusal {F = F} m limit id entry ≡ None) ↔ (finite.len (put m id entry) ≤ limit) }
{}
