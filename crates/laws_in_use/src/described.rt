//! Values by their descriptions: read, written, counted, compared, as JSON, and in a reference's
//! text.
ghost use Rattle.std.specs.Prelude.{◌≡◌, ◌≤◌, ◌++◌, ◌∷◌, [], ℕ, ℤ, List, Ok, Some, None, IfOk, IsErrOf, true, false, codes};
ghost use Rattle.giop_cdr.specs.Layout.{AreOctets};
ghost use Rattle.giop_cdr.specs.declared.order.Order.TheVariants.{Big};
ghost use Rattle.giop_cdr.specs.Reading.Exactness.{Took};
ghost use Rattle.giop_types.specs.Coding.Decoding.{decode_at};
ghost use Rattle.giop_types.specs.Coding.Outcome.{GivesBack};
ghost use Rattle.giop_types.specs.Coding.Spells.{Spells};
ghost use Rattle.giop_types.specs.Coding.Written.{value_out};
ghost use Rattle.giop_types.specs.declared.description.desc_fault.DescFault.TheVariants.{Doubled};
ghost use Rattle.giop_types.specs.Descriptions.Checked.{desc_fault};
ghost use Rattle.giop_types.specs.Descriptions.CheckedShape.{checked_shape};
ghost use Rattle.giop_types.specs.Descriptions.Shape.{ushort};
ghost use Rattle.giop_ior_text.specs.IorText.{ior_text_of, IorText, prefixed, PrefixedText, text_written};
ghost use Rattle.giop_json.specs.FromJson.{from_data, ReadsBack};
ghost use Rattle.giop_json.specs.ToJson.{to_data};
ghost use Rattle.giop_json.specs.declared.number_form.NumberForm.{NumberForm};
ghost use Rattle.giop_json.specs.declared.number_form.NumberForm.TheVariants.{Quoted};
ghost use Rattle.giop_types.specs.Values.Fits.{fits};
ghost use Rattle.giop_types.specs.Values.Leaves.{leaves, leaves_of};
ghost use Rattle.giop_types.specs.Values.Same.{same_list, same_value};
ghost use Rattle.giop_types.specs.Values.Tree.{boolean_of, choice_of, items_of, octets_of, Tree, Trees, ushort_of};
ghost use Rattle.giop_types.specs.Values.Views.{value_view};
ghost use Rattle.giop_json.specs.declared.form_fault.FormFault.TheVariants.{Unfit};
ghost use Rattle.giop_types.specs.declared.value.Value.{Value as Seen};
ghost use Rattle.laws_in_use.specs.Described.{doubled, many, pair, value, value_octets};

use giop_cdr::{CdrFault, EncodeFault, Order};
use giop_json::laws::{
    ior_texts_are_read, json_gives_values_back, what_is_read_as_json_is_written_so,
    written_and_read_as_json, written_ior_texts_are_read_back,
};
use giop_json::{FormFault, NumberForm};
use giop_types::laws::{
    descriptions_are_checked_node_by_node, encoded_and_decoded, equal_values_are_the_same,
    leaves_count_every_part, spelled_values_fit, values_are_bounded, values_are_spelled,
    written_values_are_read_back,
};
use giop_types::{CheckedDesc, Value};
use std::alloc::Global;

/// A struct of a number and a text is written from the offset 1 on, read back with what stands
/// behind it, and no other value is spelled so. Whichever form of it
/// in JSON is read, what is read fits, and in either form it is written as the same value.
pub fn a_struct_at_one()
    ensures back { decode_at pair (record { order = Big; at = 1; rest = value_octets ++ 9 ∷ [] })
        ≡ Ok (value, record { order = Big; at = 11; rest = 9 ∷ [] }) }
    ensures spelled { Took (Spells pair)
        (record { order = Big; at = 1; rest = value_octets ++ 9 ∷ [] }) value
        (record { order = Big; at = 11; rest = 9 ∷ [] }) }
    ensures alone { (other : Tree) (octets rest : List ℕ) → Spells pair Big 1 other octets
        → octets ++ rest ≡ value_octets ++ 9 ∷ [] → other ≡ value }
    ensures json { (numbers : NumberForm) → from_data pair (to_data numbers pair value) ≡ Ok value }
    ensures quoted { from_data pair (to_data Quoted pair value) ≡ Ok value }
    ensures fits { fits pair value ≡ true }
    ensures written { (numbers : NumberForm) (tree : Tree)
        → from_data pair (to_data Quoted pair value) ≡ Ok tree
        → from_data pair (to_data numbers pair tree) ≡ Ok tree }
{
    written_values_are_read_back();
    values_are_spelled();
    json_gives_values_back();
    what_is_read_as_json_is_written_so();
}

/// Whatever sequence five octets spell has at most five leaves, and fits its description.
pub fn five_octets_of_any_sequence()
    ensures few { (tree : Tree) → Spells many Big 0 tree (0 ∷ 0 ∷ 0 ∷ 1 ∷ 7 ∷ [])
        → leaves tree ≤ 5 }
    ensures fits { (tree : Tree) → Spells many Big 0 tree (0 ∷ 0 ∷ 0 ∷ 1 ∷ 7 ∷ [])
        → fits many tree ≡ true }
{
    values_are_bounded();
    spelled_values_fit();
}

/// The fault of a struct of which two members have one name, and a description without one.
pub fn two_members_of_one_name()
    ensures doubled { desc_fault 1 doubled ≡ Some Doubled }
    ensures sound { desc_fault 1 many ≡ None }
{
    descriptions_are_checked_node_by_node();
}

/// The struct has three leaves at least, one for its number and one for each octet of its text; a
/// union has one more than its member, and no list has fewer than its values.
pub fn leaves_of_a_struct()
    ensures three { 3 ≤ leaves value }
    ensures octets { 4 ≤ leaves (octets_of (1 ∷ 2 ∷ 3 ∷ 4 ∷ [])) }
    ensures of_union { (label : ℤ) (member : Trees) → 4 ≤ leaves_of member
        → 5 ≤ leaves (choice_of label member) }
    ensures of_list { (values : Trees) → 4 ≤ leaves_of values → 4 ≤ leaves (items_of values) }
{
    leaves_count_every_part();
}

/// Each value is equal to itself, and true isn't false.
pub fn equal_and_unequal_values()
    ensures same { (one : Seen) → same_value one one ≡ true }
    ensures apart { same_list (boolean_of true ∷ []) (boolean_of false ∷ []) ≡ false }
{
    equal_values_are_the_same();
}

/// A number in the text of a reference, in digits of either case: its octets in an encapsulation.
/// What is written of it is such a text, and is read back.
pub fn a_number_in_a_text()
    ensures octets { AreOctets (0 ∷ 171 ∷ []) }
    ensures text { PrefixedText (0 ∷ 171 ∷ []) (prefixed (0 ∷ 171 ∷ [])) }
    ensures says { IorText (Spells ushort) (ushort_of 258) (codes "ior:00000102") }
    ensures read { ior_text_of (decode_at ushort) (codes "ior:00000102") ≡ Ok (ushort_of 258) }
    ensures alone { (tree : Tree) → IorText (Spells ushort) tree (codes "ior:00000102")
        → tree ≡ ushort_of 258 }
    ensures again { ior_text_of (decode_at ushort) (text_written (value_out ushort) (ushort_of 258))
        ≡ Ok (ushort_of 258) }
    ensures written { (tree : Tree)
        → IorText (Spells ushort) tree (text_written (value_out ushort) (ushort_of 258))
        → tree ≡ ushort_of 258 }
{
    written_ior_texts_are_read_back();
    ior_texts_are_read();
}

/// A value that fits is written little-endian from the offset 2 on, and read as that value: nothing
/// is refused but for memory.
pub fn a_value_there_and_back(
    alloc: Global,
    desc: &CheckedDesc,
    value: &Value,
) -> Result<Result<Value, CdrFault>, EncodeFault>
    requires { fits (checked_shape desc.now) (value_view value.now) ≡ true }
    ensures fit { IsErrOf result EncodeFault.Unfit → ⊥ }
    ensures back { IfOk result (λ read. GivesBack (value_view value.now) read) }
{
    encoded_and_decoded(alloc, Order::Little, 2, desc, value)
}

/// The same as JSON.
pub fn a_value_as_json_and_back(
    alloc: Global,
    numbers: NumberForm,
    desc: &CheckedDesc,
    value: &Value,
) -> Result<Result<Value, FormFault>, FormFault>
    requires { fits (checked_shape desc.now) (value_view value.now) ≡ true }
    ensures fit { IsErrOf result Unfit → ⊥ }
    ensures back { IfOk result (λ read. ReadsBack (value_view value.now) read) }
{
    written_and_read_as_json(alloc, numbers, desc, value)
}
