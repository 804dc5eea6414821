//! The public call that writes a value (9.3.2). It puts the output back after a refusal, and
//! reports Unfit before out of memory.
ghost use Rattle.std.specs.Prelude.{◌≡◌, ◌↔◌, false, OnOk, IsErrOf};
ghost use Rattle.giop_cdr.specs.RoundTrip.{IsReadBack};
ghost use Rattle.giop_cdr.specs.Writing.Outcome.{Writes};
ghost use Rattle.giop_types.specs.Descriptions.CheckedShape.{checked_shape};
ghost use Rattle.giop_types.specs.Coding.Decoding.{decode_at};
ghost use Rattle.giop_types.specs.Values.Fits.{fits};
ghost use Rattle.giop_types.specs.Coding.Spells.{Spells};
ghost use Rattle.giop_types.specs.Values.Views.{value_view};
ghost use Rattle.giop_types.specs.Coding.Written.{value_out};

use crate::codec::append::append;
use crate::codec::fitting::fits;
use crate::description::checked_desc::CheckedDesc;
use crate::value::Value;
use giop_cdr::{CdrOut, EncodeFault};

/// Writes a value of this description (9.3.2): each part aligned, after as few zeros as that takes,
/// in the output's byte order.
///
/// Refused as Unfit where `fits` is false, and else as NoMemory when out of memory. The output is
/// then as it was.
pub fn encode(out: &mut CdrOut, desc: &CheckedDesc, value: &Value) -> Result<(), EncodeFault>
    ensures value { Writes out.old result out.new
        (value_out (checked_shape desc.now) (value_view value.now) out.old) }
    ensures err { IsErrOf result EncodeFault.Unfit
        ↔ (fits (checked_shape desc.now) (value_view value.now) ≡ false) }

    // What was appended spells the value, and `decode` reads it again, whatever octets follow.
    ensures back { OnOk result (IsReadBack (Spells (checked_shape desc.now))
        (decode_at (checked_shape desc.now)) (value_view value.now) out.old out.new) }
{
    let point = out.checkpoint();
    let Err(fault) = append(out, desc.desc(), value) else {
        return Ok(());
    };
    out.back_to(point);
    match fault {
        EncodeFault::NoMemory if fits(desc, value) => Err(EncodeFault::NoMemory),
        _ => Err(EncodeFault::Unfit),
    }
}
