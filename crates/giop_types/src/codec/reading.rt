//! Reading the parts of values that giop_cdr doesn't know: ordinals (9.3.2.6), the lengths of
//! arrays (9.3.2.4) and discriminants (9.3.2.3). build.rt and skip.rt share these, so that both
//! refuse alike.
ghost use Rattle.std.specs.Prelude.{◌≡◌, ◌<◌, ◌≤◌, length, IfOk, IfErr};
ghost use Rattle.giop_cdr.specs.declared.fault.CdrKind.TheVariants.{BadCount};
ghost use Rattle.giop_cdr.specs.Reading.Values.{fault};
ghost use Rattle.giop_cdr.specs.Reading.Outcome.{Exactly};
ghost use Rattle.giop_types.specs.Coding.Decoding.{ordinal_at, label_at, is_label};
ghost use Rattle.giop_types.specs.Values.Views.{desc_view};

use crate::description::desc::Desc;
use giop_cdr::{CdrFault, CdrIn, CdrKind, Octets};

/// Reads the ordinal of an enum of so many names (9.3.2.6). Refused at its place: as Short where it
/// isn't there, as BadLabel where it has no name.
#[tactic(auto, unfolding(crate::specs::Coding::Decoding::ordinal_at, giop_cdr::specs::Reading::Values::such_at))]
pub fn read_ordinal<S: Octets>(names: usize, input: &mut CdrIn<S>) -> Result<u32, CdrFault>
    ensures { Exactly result input.new (ordinal_at names input.old) }
{
    let at = input.place::<4>();
    let ordinal = input.read_ulong()?;
    if ordinal as usize >= names {
        return Err(CdrFault {
            at,
            kind: CdrKind::BadLabel,
        });
    }
    Ok(ordinal)
}

/// Reads a discriminant, as a number: of a boolean 0 or 1, of a char its octet, of an enum its
/// ordinal. Refused as its description is read, and as BadLabel where the reader is if the
/// description can't be a discriminant's.
#[tactic(auto, unfolding(crate::specs::Coding::Decoding::label_at))]
pub fn read_label<S: Octets>(disc: &Desc, input: &mut CdrIn<S>) -> Result<i128, CdrFault>
    ensures { Exactly result input.new (label_at (desc_view disc.now) input.old) }
{
    Ok(match disc {
        Desc::Boolean => i128::from(input.read_boolean()?),
        Desc::Char => i128::from(input.read_char()?),
        Desc::Short => i128::from(input.read_short()?),
        Desc::UShort => i128::from(input.read_ushort()?),
        Desc::Long => i128::from(input.read_long()?),
        Desc::ULong => i128::from(input.read_ulong()?),
        Desc::LongLong => i128::from(input.read_longlong()?),
        Desc::ULongLong => i128::from(input.read_ulonglong()?),
        Desc::Labels(names) => i128::from(read_ordinal(names.len(), input)?),
        _ => {
            return Err(CdrFault {
                at: input.position(),
                kind: CdrKind::BadLabel,
            });
        }
    })
}

/// The length of an array, which is in its description. Refused as BadCount, where the reader is,
/// if more values than octets are left, since each takes an octet or more.
pub fn row_length<S: Octets>(n: u32, input: &CdrIn<S>) -> Result<usize, CdrFault>
    ensures ok { IfOk result (λ count. (count ≡ n) × (n ≤ length input.now.rest)) }
    ensures err { IfErr result (λ e.
        (length input.now.rest < n) × (e ≡ fault input.now.at BadCount)) }
{
    let n = n as usize;
    if input.remaining() < n {
        return Err(CdrFault {
            at: input.position(),
            kind: CdrKind::BadCount,
        });
    }
    Ok(n)
}

/// Whether a case has this label.
pub fn has_label(labels: &[i128], label: &i128) -> bool
    ensures { result ≡ is_label label.now labels.now }
{
    labels.contains(label)
}
