//! The values of parameters as CDR octets that stand by themselves (9.3), with no message around
//! them: the first octet has the offset 0, by which all are aligned.
ghost use Rattle.std.specs.Prelude.{◌≡◌, ◌≤◌, ◌^◌, ◌↔◌, true, false, Ok, length, map, IfOk, IsErrOf};
ghost use Rattle.giop_cdr.specs.declared.encode_fault.EncodeFault.{EncodeFault};
ghost use Rattle.giop_types.specs.Values.Fits.{fields_fit};
ghost use Rattle.giop_types.specs.Values.Views.{value_view};
ghost use Rattle.giop_msg.specs.Messages.Alone.{AreTold, DecodesAlone, SpellsAlone, octets_alone, values_alone};
ghost use Rattle.giop_msg.specs.Messages.Body.{fields_in};

use crate::messages::body::read_last_values;
use crate::messages::body_checking::check_last_values;
use crate::messages::body_writing::{append_values, are_fitting};
use giop_cdr::{CdrFault, CdrIn, CdrKind, CdrOut, EncodeFault, Order, SliceOctets};
use giop_types::{Parameter, Value, ValueList};
use std::alloc::Global;

/// The CDR octets of the values of parameters, in a byte order: an operation's ins or outs, or an
/// exception's members, one after the other from the offset 0 on, padded with zeros.
///
/// Refused as Unfit where there are not as many values as parameters, or one isn't of its
/// parameter's description; else as NoMemory when out of memory.
#[tactic(auto, using(crate::proofs::WholeMessages::AloneLemmas::alone_back))]
pub fn values_to_octets(
    alloc: Global,
    parameters: &[Parameter],
    values: &[Value],
    order: Order,
) -> Result<Vec<u8>, EncodeFault>
    ensures value { IfOk result (λ octets. octets.items
        ≡ octets_alone parameters.now order (map value_view values.now)) }
    ensures err { IsErrOf result EncodeFault.Unfit
        ↔ (fields_fit (fields_in parameters.now) (map value_view values.now) ≡ false) }
    ensures back { IfOk result (λ octets.
        values_alone parameters.now order octets.items ≡ Ok (map value_view values.now)) }
{
    if !are_fitting(parameters, values) {
        return Err(EncodeFault::Unfit);
    }
    let mut out = CdrOut::new(alloc, order, 0);
    if append_values(parameters, values, &mut out).is_err() {
        return Err(EncodeFault::NoMemory);
    }
    Ok(out.into_bytes())
}

/// The values of parameters that octets are, in a byte order: an operation's ins or outs, or an
/// exception's members, one after the other from the offset 0 on.
///
/// Refused as the first field of them that is refused, in reading order, or as Trailing at the first
/// octet that is left behind them. When out of memory, and nothing is refused, it is NoMemory at 0.
pub fn values_from_octets(
    alloc: Global,
    parameters: &[Parameter],
    octets: &[u8],
    order: Order,
) -> Result<ValueList, CdrFault>
    requires { length octets.now ≤ 2 ^ 62 }
    // What is returned is what the octets spell, and what they spell is returned.
    ensures found { IfOk result (λ trees. SpellsAlone parameters.now order trees octets.now) }
    ensures only { (trees : _) → SpellsAlone parameters.now order trees octets.now
        → AreTold result trees }

    // Which refusal it is.
    ensures exact { DecodesAlone result (values_alone parameters.now order octets.now) }
{
    read_alone(alloc, parameters, octets, order)
}

// Reads the values in one pass where all goes well. Out of memory is reported last: a second pass,
// which takes no memory, looks for a fault first.
fn read_alone(
    alloc: Global,
    parameters: &[Parameter],
    octets: &[u8],
    order: Order,
) -> Result<ValueList, CdrFault>
    requires { length octets.now ≤ 2 ^ 62 }
    ensures { DecodesAlone result (values_alone parameters.now order octets.now) }
{
    let source = SliceOctets::new(octets);
    let fault = match read_last_values(alloc, parameters, &mut CdrIn::new(&source, order, 0)) {
        Ok(values) => return Ok(values),
        Err(fault) => fault,
    };
    if fault.kind != CdrKind::NoMemory {
        return Err(fault);
    }
    check_last_values(parameters, &mut CdrIn::new(&source, order, 0))?;
    Err(CdrFault {
        at: 0,
        kind: fault.kind,
    })
}
