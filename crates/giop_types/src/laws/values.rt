//! Laws of values and descriptions, above the definitions of specs/Coding, specs/Values and
//! specs/Descriptions. Each function's contract is one of them. The bodies are empty but for the
//! last, which makes the calls that it is about. No program calls these.
ghost use Rattle.std.specs.Prelude.{◌≡◌, ◌+◌, ◌<◌, ◌≤◌, ◌↔◌, ◌^◌, ℕ, ℤ, List, length, true, false, None, IfOk, IsErrOf};
ghost use Rattle.std.specs.List.{AllByRecursion};
ghost use Rattle.giop_cdr.specs.declared.order.Order.{Order};
ghost use Rattle.giop_cdr.specs.Writing.Output.{Output};
ghost use Rattle.giop_cdr.specs.Reading.Exactness.{IsExact, Took, StandsAlone};
ghost use Rattle.giop_cdr.specs.RoundTrip.{IsReadBack};
ghost use Rattle.giop_types.specs.Descriptions.Checked.{desc_fault};
ghost use Rattle.giop_types.specs.Descriptions.CheckedShape.{checked_shape};
ghost use Rattle.giop_types.specs.Coding.Outcome.{GivesBack};
ghost use Rattle.giop_types.specs.Values.Views.{value_view};
ghost use Rattle.giop_types.specs.Coding.Decoding.{decode_at};
ghost use Rattle.giop_types.specs.Values.Fits.{are_octets, fits};
ghost use Rattle.giop_types.specs.Descriptions.Full.{is_full};
ghost use Rattle.giop_types.specs.Coding.Refusals.{RefusedShape};
ghost use Rattle.giop_types.specs.declared.value.Value.{Value};
ghost use Rattle.giop_types.specs.Values.Same.{same_value, same_list};
ghost use Rattle.giop_types.specs.Descriptions.Shape.{Shape};
ghost use Rattle.giop_types.specs.Values.Leaves.{leaves, leaves_of};
ghost use Rattle.giop_types.specs.Descriptions.Nodes.{nodes, first_fault, IsSound};
ghost use Rattle.giop_types.specs.Coding.Spells.{Spells};
ghost use Rattle.giop_types.specs.Values.Tree.{Tree, Trees, tree, text_of, octets_of, choice_of, items_of, members_of, row_of};
ghost use Rattle.giop_types.specs.Coding.Written.{value_out};

use crate::codec::decoder::decode;
use crate::codec::encoder::encode;
use crate::description::checked_desc::CheckedDesc;
use crate::value::Value;
use giop_cdr::{CdrFault, CdrIn, CdrOut, EncodeFault, Order, SliceOctets};
use std::alloc::Global;

/// Values of every description that can be checked (9.3.2). What is read is what is spelled, and
/// where nothing is spelled the first refused field is reported. No spelling of a value begins
/// another.
pub fn values_are_spelled()
    ensures exact { (shape : Shape) → is_full shape ≡ true
        → IsExact (Took (Spells shape)) (RefusedShape shape) (decode_at shape) }
    ensures alone { (shape : Shape) → is_full shape ≡ true → StandsAlone (Spells shape) }
{}

/// No value has more leaves than octets spell it. So no count makes a small message a large value.
pub fn values_are_bounded()
    ensures { (shape : Shape) → is_full shape ≡ true
        → (order : Order) (at : ℕ) (tree : Tree) (octets : List ℕ)
        → Spells shape order at tree octets → leaves tree ≤ length octets }
{}

/// What is written of a fitting value spells it. Reading returns the value and leaves what follows
/// it, in both byte orders and at every offset.
pub fn written_values_are_read_back()
    ensures { (shape : Shape) → is_full shape ≡ true → (tree : Tree) → fits shape tree ≡ true
        → (out : Output) → IsReadBack (Spells shape) (decode_at shape) tree out
        (value_out shape tree out) }
{}

/// What octets spell is a value that fits, and so can be written again. It holds of octets, which
/// are numbers below 256.
pub fn spelled_values_fit()
    ensures { (shape : Shape) (order : Order) (at : ℕ) (tree : Tree) (octets : List ℕ)
        → are_octets octets ≡ true → Spells shape order at tree octets → fits shape tree ≡ true }
{}

/// The fault that `CheckedDesc::check` returns is that of the first node in reading order that has
/// one. A description is checked exactly where every node of it is sound at its depth.
pub fn descriptions_are_checked_node_by_node()
    ensures first { (depth : ℕ) (shape : Shape)
        → desc_fault depth shape ≡ first_fault (nodes depth shape) }
    ensures sound { (shape : Shape)
        → (desc_fault 1 shape ≡ None) ↔ AllByRecursion IsSound (nodes 1 shape) }
{}

/// No part of a value is left out of its leaves. Each number, label and discriminant is one, each
/// octet of a text is one, and those of the parts add up.
pub fn leaves_count_every_part()
    ensures texts { (text : List ℕ)
        → (length text ≤ leaves (text_of text)) × (0 < leaves (text_of text)) }
    ensures octets { (octets : List ℕ)
        → (length octets ≤ leaves (octets_of octets)) × (0 < leaves (octets_of octets)) }
    ensures discriminants { (label : ℤ) (member : Trees)
        → leaves_of member < leaves (choice_of label member) }
    ensures lists { (values : Trees)
        → (leaves_of values ≤ leaves (items_of values)) × (0 < leaves (items_of values)) }
    ensures parts { (values : Trees)
        → (leaves_of values ≤ leaves (members_of values))
        × (leaves_of values ≤ leaves (row_of values)) }
    ensures sums { (first : Tree) (others : Trees)
        → leaves first + leaves_of others ≤ leaves_of (tree first others) }
    ensures some { (shape : Shape) (value : Tree)
        → is_full shape ≡ true → fits shape value ≡ true → 0 < leaves value }
{}

/// Two values are equal by `==` exactly where contracts see the same of both, and so are two lists
/// of values.
pub fn equal_values_are_the_same()
    ensures values { (one other : Value)
        → (same_value one other ≡ true) ↔ (value_view one ≡ value_view other) }
    ensures lists { (one other : List Tree) → (same_list one other ≡ true) ↔ (one ≡ other) }
{}

/// Writes a value, in a byte order and from an offset on, and reads it again. Refused as Unfit
/// where it doesn't fit, or as NoMemory. `decode` returns the value for what `encode` wrote, or is
/// out of memory: it refuses nothing else.
pub fn encoded_and_decoded(
    alloc: Global,
    order: Order,
    start: usize,
    desc: &CheckedDesc,
    value: &Value,
) -> Result<Result<Value, CdrFault>, EncodeFault>
    requires { start ≤ 2 ^ 32 }
    ensures back { IfOk result (λ read. GivesBack (value_view value.now) read) }
    ensures err { IsErrOf result EncodeFault.Unfit
        ↔ (fits (checked_shape desc.now) (value_view value.now) ≡ false) }
{
    let mut out = CdrOut::new(alloc, order, start);
    encode(&mut out, desc, value)?;
    let octets = out.into_bytes();
    if octets.len() > 1 << 62 {
        return Err(EncodeFault::NoMemory);
    }
    let source = SliceOctets::new(&octets);
    let mut input = CdrIn::new(&source, order, start);
    Ok(decode(alloc, &mut input, desc))
}
