ghost use Rattle.std.specs.Prelude.{◌≡◌, ◌↔◌, false, OnOk, IsErrOf};
ghost use Rattle.giop_cdr.specs.RoundTrip.{IsReadBack};
ghost use Rattle.giop_cdr.specs.Writing.{Writes};
ghost use Rattle.giop_types.specs.CheckedShape.{checked_shape};
ghost use Rattle.giop_types.specs.Decoding.{decode_at};
ghost use Rattle.giop_types.specs.Fits.{fits};
ghost use Rattle.giop_types.specs.Spells.{Spells};
ghost use Rattle.giop_types.specs.Views.{value_view};
ghost use Rattle.giop_types.specs.Written.{value_out};

use crate::append::append;
use crate::checked_desc::CheckedDesc;
use crate::fitting::fits;
use crate::value::Value;
use giop_cdr::{CdrOut, EncodeFault};

/// Writes a value of this description (9.3.2): each part aligned, behind as few zeros as that
/// takes, in the output's order.
///
/// Refused as Unfit where `fits` is false, and else as NoMemory where memory is wanting. The output
/// is then as it was.
pub fn encode(out: &mut CdrOut, desc: &CheckedDesc, value: &Value) -> Result<(), EncodeFault>
    ensures value { Writes out.old result out.new
        (value_out (checked_shape desc.now) (value_view value.now) out.old) }
    ensures err { IsErrOf result EncodeFault.Unfit
        ↔ (fits (checked_shape desc.now) (value_view value.now) ≡ false) }

    // What was appended spells the value, and `decode` reads it again, whatever stands behind it.
    ensures back { OnOk result (IsReadBack (Spells (checked_shape desc.now))
        (decode_at (checked_shape desc.now)) (value_view value.now) out.old out.new) }
{
    let point = out.checkpoint();
    let Err(fault) = append(out, desc.desc(), value) else {
        return Ok(());
    };
    out.back_to(point);
    match fault {
        EncodeFault::NoMemory if fits(desc, value) => Err(EncodeFault::NoMemory),
        _ => Err(EncodeFault::Unfit),
    }
}
