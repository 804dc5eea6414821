//! The law of any run of acts, which continues after refusals. The function's contract is the law;
//! its body is empty, and no program calls it.
ghost use Rattle.std.specs.Prelude.{◌≡◌, ℕ, List, Result};
ghost use Rattle.giop_ids.specs.declared.addressed.Addressed.{Addressed};
ghost use Rattle.giop_ids.specs.Runs.{own, alone, told_alone, Runs, addressed, MeetsNoLimit};
ghost use Rattle.example_end.specs.declared.fault.EndFault.{EndFault};
ghost use Rattle.example_end.specs.End.{Held, Act, Reply, at, turn, end_rules, is_of_message};

/// Whatever happens to other ids in a run, a message has the entry, the pieces and the answers of
/// its own acts alone, unless one of these met a limit or was out of memory.
pub fn each_message_alone()
    ensures value { (h k : Held) (acts : List (Addressed Act))
        (results : List (Result Reply EndFault)) (id : ℕ)
        → Runs end_rules h acts results k → MeetsNoLimit is_of_message id acts results
        → at k id ≡ alone turn (at h id) (own id acts) }
    ensures told { (h k : Held) (acts : List (Addressed Act))
        (results : List (Result Reply EndFault)) (id : ℕ)
        → Runs end_rules h acts results k → MeetsNoLimit is_of_message id acts results
        → own id (addressed acts results) ≡ told_alone turn (at h id) (own id acts) }
{}
