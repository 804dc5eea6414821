//! Laws of any run of calls of a `Gather`, whatever is refused in it. In the contracts of `Gather`,
//! `Does` says that a call is an act of such a run. Each function's contract is a law; the bodies
//! are empty, and no program calls them.
ghost use Rattle.std.specs.Prelude.{◌≡◌, ◌≢◌, ◌≤◌, ◌+◌, ◌/◌, ◌↔◌, ℕ, List, Option, Some, None, Result, Err};
ghost use Rattle.std.specs.List.{AllByRecursion};
ghost use Rattle.std.specs.FinMap as map;
ghost use Rattle.giop_ids.specs.declared.addressed.Addressed.{Addressed};
ghost use Rattle.giop_ids.specs.Runs.{own, alone, told_alone, Runs, addressed, accepted, MeetsNoLimit};
ghost use Rattle.giop_frag.specs.declared.fault.GatherFault.{GatherFault};
ghost use Rattle.giop_frag.specs.declared.fault.GatherFault.TheVariants.{GatherFull, NoMemory};
ghost use Rattle.giop_frag.specs.Gathered.{Lists, Pieces, total_of, blocks_of, blocks_after, IsBlocksAfter};
ghost use Rattle.giop_frag.specs.Runs.{Happening, Reply, turn, is_of_id, gather_rules, octets_with, all_octets, IsJoined};

mod refusals;

pub use refusals::{
    blocks_are_the_fewest, faults_are_numbered, limits_let_through_what_fits,
    own_faults_are_of_ids, strays_have_nothing_gathered,
};

/// After any run of calls, the octets of an id that had none are those of its own accepted calls.
/// They are the octets of the latest call that began it and of all that added to it since, joined
/// in their order.
pub fn own_pieces_are_joined()
    ensures value { (limit : ℕ) (m n : Lists) (acts : List (Addressed Happening))
        (results : List (Result Reply GatherFault)) (id : ℕ) (pieces : Pieces)
        → Runs (gather_rules limit) m acts results n → map.get m id ≡ None
        → (map.get n id ≡ Some pieces) ↔ IsJoined pieces (own id (accepted acts results)) }
    ensures alone { (held : Option Pieces) (pieces : Pieces) (heard : List Happening)
        → IsJoined pieces heard → alone turn held heard ≡ Some pieces }
{}

/// In any run of calls, what is gathered for an id and the results of its own calls are those of
/// its own calls alone. This holds unless one of them met the limit or was out of memory.
pub fn each_id_alone()
    ensures value { (limit : ℕ) (m n : Lists) (acts : List (Addressed Happening))
        (results : List (Result Reply GatherFault)) (id : ℕ)
        → Runs (gather_rules limit) m acts results n → MeetsNoLimit is_of_id id acts results
        → map.get n id ≡ alone turn (map.get m id) (own id acts) }
    ensures told { (limit : ℕ) (m n : Lists) (acts : List (Addressed Happening))
        (results : List (Result Reply GatherFault)) (id : ℕ)
        → Runs (gather_rules limit) m acts results n → MeetsNoLimit is_of_id id acts results
        → own id (addressed acts results) ≡ told_alone turn (map.get m id) (own id acts) }
{}

/// Two runs whose calls are equal for each id, in any interleaving, leave equal lists and return
/// the same results for each id. This holds where they meet no limit and are never out of memory.
pub fn any_interleaving()
    ensures value { (limit : ℕ) (m n n' : Lists) (one other : List (Addressed Happening))
        (results results' : List (Result Reply GatherFault))
        → Runs (gather_rules limit) m one results n → Runs (gather_rules limit) m other results' n'
        → ((id : ℕ) → MeetsNoLimit is_of_id id one results)
        → ((id : ℕ) → MeetsNoLimit is_of_id id other results')
        → ((id : ℕ) → own id one ≡ own id other) → n ≡ n' }
    ensures told { (limit : ℕ) (m n n' : Lists) (one other : List (Addressed Happening))
        (results results' : List (Result Reply GatherFault))
        → Runs (gather_rules limit) m one results n → Runs (gather_rules limit) m other results' n'
        → ((id : ℕ) → MeetsNoLimit is_of_id id one results)
        → ((id : ℕ) → MeetsNoLimit is_of_id id other results')
        → ((id : ℕ) → own id one ≡ own id other)
        → (id : ℕ) → own id (addressed one results) ≡ own id (addressed other results') }
{}

/// Over any run of calls the total never passes the limit.
pub fn total_stays_within()
    ensures { (limit : ℕ) (m n : Lists) (acts : List (Addressed Happening))
        (results : List (Result Reply GatherFault)) → Runs (gather_rules limit) m acts results n
        → total_of m ≤ limit → total_of n ≤ limit }
{}

/// Where what is gathered and the octets of all pieces to come add up to at most the limit, no
/// order of these calls is refused as `GatherFull`.
pub fn limits_in_any_order()
    ensures { (limit : ℕ) (m n : Lists) (acts : List (Addressed Happening))
        (results : List (Result Reply GatherFault)) → Runs (gather_rules limit) m acts results n
        → total_of m + all_octets acts ≤ limit
        → AllByRecursion (λ result. result ≢ Err GatherFull) results }
{}

/// Lists need at most one block for each 512 octets in them, and one more for each id. So where
/// there are never more ids than some number, there are never more blocks than the limit over 512
/// plus that number. A refusal leaves as many blocks as before. Only `NoMemory` may leave more, but
/// no more than an accepted call would.
pub fn blocks_stay_within()
    ensures need { (m : Lists) → blocks_of m ≤ total_of m / 512 + map.len m }
    ensures kept { (limit ids blocks : ℕ) (m : Lists) → total_of m ≤ limit → map.len m ≤ ids
        → blocks ≤ limit / 512 + ids → blocks_after blocks m ≤ limit / 512 + ids }
    ensures refused { (fault : GatherFault) (old new : ℕ) (m : Lists)
        → IsBlocksAfter fault old m new
        → (old ≤ new) × (new ≤ blocks_after old m) × (fault ≢ NoMemory → new ≡ old) }
{}
