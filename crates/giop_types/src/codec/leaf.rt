//! Reading the values that hold no other value: numbers, chars, booleans, texts, octets and enums.
//! These readers are outside the cycles of calls, since they call nothing back.
ghost use Rattle.std.specs.Prelude.{◌≡◌, true};
ghost use Rattle.giop_cdr.specs.Reading.Outcome.{ReadsAs, Follows, Skips};
ghost use Rattle.giop_types.specs.Coding.Decoding.{decode_at};
ghost use Rattle.giop_types.specs.Descriptions.Shape.{is_primitive, is_leaf};
ghost use Rattle.giop_types.specs.Values.Views.{desc_view, value_view};

use crate::codec::reading::read_ordinal;
use crate::codec::value_memory::ValueMemory;
use crate::description::desc::Desc;
use crate::value::Value;
use giop_cdr::{CdrFault, CdrIn, Octets};

/// Whether a description is that of a number, a char or a boolean, which is read without memory.
#[inline(always)]
pub fn is_primitive(desc: &Desc) -> bool
    ensures { result ≡ is_primitive (desc_view desc.now) }
{
    matches!(
        desc,
        Desc::Boolean
            | Desc::Octet
            | Desc::Char
            | Desc::Short
            | Desc::UShort
            | Desc::Long
            | Desc::ULong
            | Desc::LongLong
            | Desc::ULongLong
    )
}

/// Reads a number, a char or a boolean.
#[inline(always)]
#[tactic(auto, unfolding(crate::specs::Coding::Decoding::decode_at))]
pub fn read_primitive<S: Octets>(desc: &Desc, input: &mut CdrIn<S>) -> Result<Value, CdrFault>
    requires { is_primitive (desc_view desc.now) ≡ true }
    ensures { ReadsAs value_view input.old result input.new
        (decode_at (desc_view desc.now) input.old) }
{
    match desc {
        Desc::Boolean => Ok(Value::Boolean(input.read_boolean()?)),
        Desc::Octet => Ok(Value::Octet(input.read_octet()?)),
        Desc::Char => Ok(Value::Char(input.read_char()?)),
        Desc::Short => Ok(Value::Short(input.read_short()?)),
        Desc::UShort => Ok(Value::UShort(input.read_ushort()?)),
        Desc::Long => Ok(Value::Long(input.read_long()?)),
        Desc::ULong => Ok(Value::ULong(input.read_ulong()?)),
        Desc::LongLong => Ok(Value::LongLong(input.read_longlong()?)),
        Desc::ULongLong => Ok(Value::ULongLong(input.read_ulonglong()?)),
        _ => unreachable!(),
    }
}

/// Reads a value that holds no other value.
#[tactic(auto, unfolding(crate::specs::Coding::Decoding::decode_at))]
pub fn build_leaf<S: Octets>(
    memory: ValueMemory,
    desc: &Desc,
    input: &mut CdrIn<S>,
) -> Result<Value, CdrFault>
    requires { is_leaf (desc_view desc.now) ≡ true }
    ensures { Follows value_view result input.new (decode_at (desc_view desc.now) input.old) }
{
    match desc {
        Desc::Text(bound) => Ok(Value::Text(memory.read_text(*bound, input)?)),
        Desc::Octets(bound) => Ok(Value::Octets(memory.read_octets(*bound, input)?)),
        Desc::Labels(names) => Ok(Value::Label(read_ordinal(names.len(), input)?)),
        _ => read_primitive(desc, input),
    }
}

/// Passes over a value that holds no other value.
#[tactic(auto, unfolding(crate::specs::Coding::Decoding::decode_at))]
pub fn skip_leaf<S: Octets>(desc: &Desc, input: &mut CdrIn<S>) -> Result<(), CdrFault>
    requires { is_leaf (desc_view desc.now) ≡ true }
    ensures { Skips result input.new (decode_at (desc_view desc.now) input.old) }
{
    match desc {
        Desc::Text(bound) => input.skip_string(*bound)?,
        Desc::Octets(bound) => input.skip_octets(*bound)?,
        Desc::Labels(names) => drop(read_ordinal(names.len(), input)?),
        _ => drop(read_primitive(desc, input)?),
    }
    Ok(())
}
