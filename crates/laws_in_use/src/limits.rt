//! What a gatherer and a table of calls let through and refuse, in use: each at its limit, and one
//! beyond.
ghost use Rattle.std.specs.Prelude.{◌≡◌, ◌≢◌, ◌≤◌, ℕ, [], ◌∷◌, None, Option, Some, Err, true};
ghost use Rattle.giop_cdr.specs.declared.order.Order.TheVariants.{Big, Little};
ghost use Rattle.giop_frag.specs.Faults.{gather_fault_number};
ghost use Rattle.giop_frag.specs.Gathered.{add_fault, begin_fault, blocks_for, Gathered, order_fault, Pieces};
ghost use Rattle.giop_frag.specs.Runs.{Happening, is_of_id, turn};
ghost use Rattle.giop_frag.specs.declared.fault.GatherFault.{GatherFault};
ghost use Rattle.giop_frag.specs.declared.fault.GatherFault.TheVariants.{GatherFull, OrderDiffers, Stray};
ghost use Rattle.giop_mux.specs.Calls.{room_refusal};
ghost use Rattle.laws_in_use.specs.Doors.{doors};
ghost use Rattle.laws_in_use.specs.Gathering.{begun, one_begun};
ghost use Rattle.laws_in_use.specs.declared.doors.Door.TheVariants.{Shut};
ghost use Rattle.laws_in_use.specs.declared.doors.Stuck.{Stuck};

use crate::doors::{Door, Stuck};
use giop_frag::laws::{
    blocks_are_the_fewest, faults_are_numbered, limits_let_through_what_fits,
    own_faults_are_of_ids, strays_have_nothing_gathered,
};
use giop_mux::laws::limits_let_in_what_fits;

/// Beside three octets of 7 a limit of eight lets through five, and not six. Octets of 7 in another
/// order, or of an id that has none, are refused for that first, however many they are.
pub fn five_octets_more()
    ensures five { begin_fault (record { limit = 8; blocks = 1; lists = one_begun }) 5 ≡ None }
    ensures six { begin_fault (record { limit = 8; blocks = 1; lists = one_begun }) 6 ≢ None }
    ensures joined { add_fault (record { limit = 8; blocks = 1; lists = one_begun }) 7 Big 5 ≡ None }
    ensures other_order { add_fault (record { limit = 8; blocks = 1; lists = one_begun }) 7 Little 6
        ≡ Some OrderDiffers }
{
    limits_let_through_what_fits();
}

/// Where nothing is gathered a piece is stray, and where three octets are in one order, a piece of
/// the other order isn't. Both faults are an id's own.
pub fn strays_and_orders()
    ensures stray { order_fault None Big ≡ Some Stray }
    ensures no_stray { order_fault (Some begun) Little ≢ Some Stray }
    ensures differs { order_fault (Some begun) Little ≡ Some OrderDiffers }
    ensures own { is_of_id OrderDiffers ≡ true }
    ensures is_met { (fault : GatherFault) → is_of_id fault ≡ true
        → (held : Option Pieces) × (act : Happening) × (turn held act ≡ Err fault) }
{
    strays_have_nothing_gathered();
    own_faults_are_of_ids();
}

/// 512 octets fit one block, which no fewer hold, and 513 don't.
pub fn blocks_of_octets()
    ensures one { blocks_for 512 ≤ 1 }
    ensures two { blocks_for 513 ≢ 1 }
{
    blocks_are_the_fewest();
}

/// A table of no doors, which may have one, has room for a door; one that may have none hasn't.
pub fn room_for_a_door()
    ensures one { room_refusal {F = Stuck} doors 1 7 (Some Shut) ≡ None }
    ensures none { room_refusal {F = Stuck} doors 0 7 (Some Shut) ≢ None }
{
    limits_let_in_what_fits::<Door, Stuck>();
}

/// Number 3 of a gatherer is that it is full, and there is no fifth.
pub fn numbers_of_gatherers()
    ensures third { (fault : GatherFault) → gather_fault_number fault ≡ 3 → fault ≡ GatherFull }
    ensures no_fifth { (fault : GatherFault) → gather_fault_number fault ≢ 5 }
    ensures fourth { (fault : GatherFault) × (gather_fault_number fault ≡ 4) }
{
    faults_are_numbered();
}
