//! The numbers of faults in use: a number says which fault it is.
ghost use Rattle.std.specs.Prelude.{◌≡◌, ◌≢◌};
ghost use Rattle.giop_calls.specs.Faults.{fault_number};
ghost use Rattle.giop_calls.specs.declared.fault.CallFault.{CallFault};
ghost use Rattle.giop_calls.specs.declared.fault.CallFault.TheVariants.{WrongKind};
ghost use Rattle.giop_ior.specs.CorbalocFault.{corbaloc_kind_number};
ghost use Rattle.giop_ior.specs.declared.addresses.corbaloc_fault.CorbalocKind.{CorbalocKind};
ghost use Rattle.giop_ior.specs.declared.addresses.corbaloc_fault.CorbalocKind.TheVariants.{BadPort};
ghost use Rattle.giop_mux.specs.Faults.{refusal_number};
ghost use Rattle.giop_mux.specs.declared.refusal.Refusal.{Refusal};
ghost use Rattle.giop_mux.specs.declared.refusal.Refusal.TheVariants.{TooManyCalls};

use giop_calls::CallFault;
use giop_calls::laws::faults_are_numbered;
use giop_ior::laws::kinds_are_numbered;
use giop_mux::laws::refusals_are_numbered;

/// Number 5 of a call is that its kind is wrong, and there is no tenth.
pub fn numbers_of_calls()
    ensures fifth { (fault : CallFault) → fault_number fault ≡ 5 → fault ≡ WrongKind }
    ensures no_tenth { (fault : CallFault) → fault_number fault ≢ 10 }
    ensures ninth { (fault : CallFault) × (fault_number fault ≡ 9) }
{
    faults_are_numbered();
}

/// Number 4 of a corbaloc is a bad port, and there is no ninth.
pub fn numbers_of_corbalocs()
    ensures fourth { (kind : CorbalocKind) → corbaloc_kind_number kind ≡ 4 → kind ≡ BadPort }
    ensures no_ninth { (kind : CorbalocKind) → corbaloc_kind_number kind ≢ 9 }
    ensures eighth { (kind : CorbalocKind) × (corbaloc_kind_number kind ≡ 8) }
{
    kinds_are_numbered();
}

/// Number 2 of a table of calls is that there are too many, and there is no fourth.
pub fn numbers_of_tables()
    ensures second { (refusal : Refusal CallFault) → refusal_number refusal ≡ 2
        → refusal ≡ TooManyCalls }
    ensures no_fourth { (refusal : Refusal CallFault) → refusal_number refusal ≢ 4 }
    ensures third { (refusal : Refusal CallFault) × (refusal_number refusal ≡ 3) }
{
    refusals_are_numbered::<CallFault>();
}
