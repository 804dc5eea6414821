//! Laws of values as JSON, above the definitions of specs. All but the last are laws alone, and the
//! body of the last makes the calls that it is about. No program calls these.
ghost use Rattle.std.specs.Prelude.{◌≡◌, ◌↔◌, true, false, None, Ok, Some, IfOk, IsErrOf};
ghost use Rattle.serde_json.specs.Data.{Data};
ghost use Rattle.giop_json.specs.declared.form_fault.FormFault.TheVariants.{Unfit};
ghost use Rattle.giop_json.specs.declared.number_form.NumberForm.{NumberForm};
ghost use Rattle.giop_types.specs.Descriptions.Checked.{desc_fault};
ghost use Rattle.giop_types.specs.Descriptions.CheckedShape.{checked_shape};
ghost use Rattle.giop_json.specs.Plain.{is_plain};
ghost use Rattle.giop_types.specs.Values.Fits.{fits};
ghost use Rattle.giop_json.specs.DescFromJson.{desc_in, described};
ghost use Rattle.giop_json.specs.DescToJson.{desc_data, is_sayable};
ghost use Rattle.giop_json.specs.FromJson.{from_data, ReadsBack};
ghost use Rattle.giop_json.specs.InterfaceFromJson.{Offer, offer_in};
ghost use Rattle.giop_json.specs.InterfaceToJson.{offer_data, offer_sayable};
ghost use Rattle.giop_types.specs.Descriptions.Shape.{Shape};
ghost use Rattle.giop_json.specs.ToJson.{to_data};
ghost use Rattle.giop_types.specs.Values.Tree.{Tree};
ghost use Rattle.giop_types.specs.Values.Views.{value_view};

use crate::form_fault::FormFault;
use crate::number_form::NumberForm;
use crate::{value_from_json, value_to_json_in};
use giop_types::{CheckedDesc, Value};
use std::alloc::Global;

/// A fitting value that is written as JSON, its numbers in either form, is read as that value,
/// references included. That holds of every description without a fault in which each union has one
/// member by default at most, as in each `Desc`.
pub fn json_gives_values_back()
    ensures { (shape : Shape) → desc_fault 1 shape ≡ None → is_plain shape ≡ true
        → (tree : Tree) → fits shape tree ≡ true → (numbers : NumberForm)
        → from_data shape (to_data numbers shape tree) ≡ Ok tree }
{}

/// A JSON value that is read as a value is a form of it: the value fits its description, and what it is
/// written as, with its numbers in either form, is read as the same value. So among the forms that are
/// read as a value, the writer's is the one that stands for all.
pub fn what_is_read_as_json_is_written_so()
    ensures fits { (shape : Shape) (read : Data) (tree : Tree) → from_data shape read ≡ Ok tree
        → fits shape tree ≡ true }
    ensures written { (shape : Shape) → desc_fault 1 shape ≡ None → is_plain shape ≡ true
        → (read : Data) (tree : Tree) → from_data shape read ≡ Ok tree
        → (numbers : NumberForm) → from_data shape (to_data numbers shape tree) ≡ Ok tree }
{
    json_gives_values_back();
}

/// A description that is written as JSON is read as that description. That holds of every one without a
/// fault that JSON can say: its names are octets, its bounds and lengths unsigned longs, its labels those
/// of their discriminants, as in each `Desc`.
pub fn json_gives_descriptions_back()
    ensures { (shape : Shape) → desc_fault 1 shape ≡ None → is_plain shape ≡ true
        → is_sayable shape ≡ true → described (desc_in 128 (desc_data shape)) ≡ Ok shape }
{}

/// And so an interface, its operations and exceptions in any order: where JSON can say it, what it is
/// written as is a form of it and of no other.
pub fn json_gives_interfaces_back()
    ensures { (offer : Offer) → offer_sayable offer ≡ true → offer_in (offer_data offer) ≡ Some offer }
{}

/// Writes a value as JSON and reads that again. Refused as Unfit where the value isn't of the
/// description, or as NoMemory. `value_from_json` returns the value for what `value_to_json_in`
/// wrote, or is out of memory: it refuses nothing else.
pub fn written_and_read_as_json(
    alloc: Global,
    numbers: NumberForm,
    desc: &CheckedDesc,
    value: &Value,
) -> Result<Result<Value, FormFault>, FormFault>
    ensures back { IfOk result (λ read. ReadsBack (value_view value.now) read) }
    ensures err { IsErrOf result Unfit
        ↔ (fits (checked_shape desc.now) (value_view value.now) ≡ false) }
{
    let json = value_to_json_in(alloc, numbers, desc, value)?;
    Ok(value_from_json(alloc, desc, &json))
}
