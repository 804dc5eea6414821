//! The law of what an observer keeps. The function's contract is the law; its body is empty, and no
//! program calls it.
ghost use Rattle.std.specs.Prelude.{◌≡◌, ℕ, Bool, List};
ghost use Rattle.std.specs.FinMap as finite;
ghost use Rattle.giop_ids.specs.ById.{ById};
ghost use Rattle.giop_trace.specs.declared.flow.Flow.{Flow};
ghost use Rattle.giop_trace.specs.Observing.{Brought, left_alone, left_of_all, own};

/// Whatever messages name other ids, of either direction and in any order between its own, what
/// stands under an id is what its own messages alone leave there.
pub fn each_call_alone()
    ensures { (alone : Bool) (flows : ById Flow) (all : List Brought) (id : ℕ)
        → finite.get (left_of_all alone flows all) id
        ≡ left_alone alone (finite.get flows id) (own id all) }
{}
