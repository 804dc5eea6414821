//! What neither a clause of giop_calls nor a row of tests/cases says.
use giop_calls::CallFault;
use std::test::Fail;

// A refusal of an end's own program is the last in the list.
#[test]
fn a_fault_has_its_number_and_its_name(rt: HostRuntime) -> Result<(), Fail> {
    let alloc = rt.alloc();
    assert_eq!(rt; CallFault::NothingToSend.number(), 9);
    let text = format!(in alloc; "{} {}", CallFault::UnknownOperation, CallFault::Stray)?;
    assert_eq!(rt; text.as_str(), "UnknownOperation Stray");
    Ok(())
}
