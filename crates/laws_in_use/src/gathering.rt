//! Pieces of two messages are gathered in turn, under two ids and in two byte orders.
ghost use Rattle.std.specs.Prelude.{◌≡◌, ◌≢◌, ◌≤◌, ℕ, List, [], ◌∷◌, Some, None, Ok, Err, Result};
ghost use Rattle.std.specs.FinMap as finite;
ghost use Rattle.std.specs.List.{AllByRecursion};
ghost use Rattle.giop_ids.specs.ById.{put};
ghost use Rattle.giop_ids.specs.Runs.{accepted, addressed, alone, MeetsNoLimit, own, Runs};
ghost use Rattle.giop_frag.specs.declared.fault.GatherFault.{GatherFault};
ghost use Rattle.giop_frag.specs.declared.fault.GatherFault.TheVariants.{GatherFull, NoMemory, OrderDiffers, Stray};
ghost use Rattle.giop_frag.specs.Gathered.{blocks_after, blocks_of, IsBlocksAfter, Lists, total_of};
ghost use Rattle.giop_frag.specs.Runs.{gather_rules, IsDone, IsJoined, is_of_id, Reply, turn};
ghost use Rattle.laws_in_use.specs.Gathering.{acts, begun, handed_out, in_turn, none, of_seven, one_begun, one_by_one, results};

use giop_frag::laws::{
    any_interleaving, blocks_stay_within, each_id_alone, limits_in_any_order,
    own_pieces_are_joined, total_stays_within,
};

/// Seven's pieces are joined, and what its own pieces are answered is told, whatever came for 9
/// between them; 9 met the limit, and of it nothing is said.
pub fn pieces_in_turn()
    ensures run { Runs (gather_rules 8) none acts results handed_out }
    ensures met_none { MeetsNoLimit is_of_id 7 acts results }
    ensures met_one { MeetsNoLimit is_of_id 9 acts results → ⊥ }
    ensures are_joined { IsJoined of_seven (own 7 (accepted acts results)) }
    ensures seven { (n : Lists) → Runs (gather_rules 8) none acts results n
        → finite.get n 7 ≡ Some of_seven }
    ensures latest { alone turn None (own 7 (accepted acts results)) ≡ Some of_seven }
    ensures own_alone { (n : Lists) → Runs (gather_rules 8) none acts results n
        → finite.get n 7 ≡ Some of_seven }
    ensures told { (n : Lists) (answers : List (Result Reply GatherFault))
        → Runs (gather_rules 8) none acts answers n → MeetsNoLimit is_of_id 7 acts answers
        → own 7 (addressed acts answers) ≡ Ok IsDone ∷ Err OrderDiffers ∷ Ok IsDone ∷ [] }
    ensures total { (n : Lists) → Runs (gather_rules 8) none acts results n → total_of n ≤ 8 }
{
    own_pieces_are_joined();
    each_id_alone();
    total_stays_within();
}

/// The accepted pieces in another order leave the same, and are answered the same; nor does any
/// order of them meet the limit, since they have six octets in all.
pub fn pieces_in_another_order()
    ensures same { (n k : Lists) (answers others : List (Result Reply GatherFault))
        → Runs (gather_rules 8) none in_turn answers n
        → Runs (gather_rules 8) none one_by_one others k
        → ((id : ℕ) → MeetsNoLimit is_of_id id in_turn answers)
        → ((id : ℕ) → MeetsNoLimit is_of_id id one_by_one others) → n ≡ k }
    ensures told { (n k : Lists) (answers others : List (Result Reply GatherFault))
        → Runs (gather_rules 8) none in_turn answers n
        → Runs (gather_rules 8) none one_by_one others k
        → ((id : ℕ) → MeetsNoLimit is_of_id id in_turn answers)
        → ((id : ℕ) → MeetsNoLimit is_of_id id one_by_one others)
        → own 7 (addressed in_turn answers) ≡ own 7 (addressed one_by_one others) }
    ensures within { (n : Lists) (answers : List (Result Reply GatherFault))
        → Runs (gather_rules 8) none one_by_one answers n
        → AllByRecursion (λ result. result ≢ Err GatherFull) answers }
{
    any_interleaving();
    limits_in_any_order();
}

/// Three octets under one id need a block; 600 octets under two ids never have more than three; and
/// out of memory may leave one that nothing needs yet, where another refusal leaves none.
pub fn blocks_of_two_ids()
    ensures one { blocks_of one_begun ≤ 1 }
    ensures three { (m : Lists) → total_of m ≤ 600 → finite.len m ≤ 2 → blocks_after 2 m ≤ 3 }
    ensures memory { IsBlocksAfter NoMemory 0 one_begun 1 }
    ensures refused { (blocks : ℕ) → IsBlocksAfter Stray 2 one_begun blocks → blocks ≡ 2 }
{
    blocks_stay_within();
}
