//! Laws of why a gatherer refuses, and of how many blocks octets need. Each function's contract is
//! a law; the bodies are empty, and no program calls them.
ghost use Rattle.std.specs.Prelude.{◌≡◌, ◌≢◌, ◌≤◌, ◌+◌, ◌*◌, ◌↔◌, ℕ, true, Option, Some, None, Err};
ghost use Rattle.std.specs.FinMap as map;
ghost use Rattle.giop_cdr.specs.declared.order.Order.{Order};
ghost use Rattle.giop_frag.specs.declared.fault.GatherFault.{GatherFault};
ghost use Rattle.giop_frag.specs.declared.fault.GatherFault.TheVariants.{OrderDiffers, Stray};
ghost use Rattle.giop_frag.specs.Faults.{gather_fault_number};
ghost use Rattle.giop_frag.specs.Gathered.{Gathered, Pieces, add_fault, begin_fault, blocks_for, order_fault, total_of};
ghost use Rattle.giop_frag.specs.Runs.{Happening, is_of_id, turn};

/// The numbers of the faults are 1 to 4, each the number of one fault.
pub fn faults_are_numbered()
    ensures within { (fault : GatherFault) → (1 ≤ gather_fault_number fault)
        × (gather_fault_number fault ≤ 4) }
    ensures once { (one other : GatherFault) → gather_fault_number one ≡ gather_fault_number other
        → one ≡ other }
    ensures each { (number : ℕ) → 1 ≤ number → number ≤ 4
        → (fault : GatherFault) × (gather_fault_number fault ≡ number) }
{}

/// A fault is an id's own, and none of the limit or of memory, exactly where something that befalls
/// an id is refused for it by what is gathered under that id alone.
pub fn own_faults_are_of_ids()
    ensures { (fault : GatherFault) → (is_of_id fault ≡ true)
        ↔ ((held : Option Pieces) × (act : Happening) × (turn held act ≡ Err fault)) }
{}

/// Octets behind others are a stray piece exactly where nothing is gathered for their id. They
/// differ in order exactly where what is gathered has another one.
pub fn strays_have_nothing_gathered()
    ensures stray { (held : Option Pieces) (order : Order)
        → (order_fault held order ≡ Some Stray) ↔ (held ≡ None) }
    ensures differs { (pieces : Pieces) (order : Order)
        → (order_fault (Some pieces) order ≡ Some OrderDiffers) ↔ (order ≢ pieces.order) }
{}

/// The limit lets through exactly what it has room for: all that is gathered and the new octets
/// together are at most as many. Where an id has a fault of its own, that comes first.
pub fn limits_let_through_what_fits()
    ensures begun { (g : Gathered) (n : ℕ)
        → (begin_fault g n ≡ None) ↔ (total_of g.lists + n ≤ g.limit) }
    ensures added { (g : Gathered) (id n : ℕ) (order : Order)
        → order_fault (map.get g.lists id) order ≡ None
        → (add_fault g id order n ≡ None) ↔ (total_of g.lists + n ≤ g.limit) }
    ensures own_first { (g : Gathered) (id n : ℕ) (order : Order) (fault : GatherFault)
        → order_fault (map.get g.lists id) order ≡ Some fault
        → add_fault g id order n ≡ Some fault }
{}

/// Octets need as many blocks of 512 as hold them, and no fewer do.
pub fn blocks_are_the_fewest()
    ensures enough { (n : ℕ) → n ≤ 512 * blocks_for n }
    ensures fewest { (n blocks : ℕ) → n ≤ 512 * blocks → blocks_for n ≤ blocks }
{}
