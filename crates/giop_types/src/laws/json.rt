//! Laws of values as JSON, above the definitions of specs/JsonForms. The first two are laws alone, and
//! the body of the third makes the calls that it is about. No program calls these.
ghost use Rattle.std.specs.Prelude.{◌≡◌, ◌↔◌, true, false, None, Ok, IfOk, IsErrOf};
ghost use Rattle.serde_json.specs.Data.{Data};
ghost use Rattle.giop_types.specs.declared.json.form_fault.FormFault.TheVariants.{Unfit};
ghost use Rattle.giop_types.specs.declared.json.number_form.NumberForm.{NumberForm};
ghost use Rattle.giop_types.specs.Descriptions.Checked.{desc_fault};
ghost use Rattle.giop_types.specs.Descriptions.CheckedShape.{checked_shape};
ghost use Rattle.giop_types.specs.JsonForms.Plain.{is_plain};
ghost use Rattle.giop_types.specs.Values.Fits.{fits};
ghost use Rattle.giop_types.specs.JsonForms.FromJson.{from_data, ReadsBack};
ghost use Rattle.giop_types.specs.Descriptions.Shape.{Shape};
ghost use Rattle.giop_types.specs.JsonForms.ToJson.{to_data};
ghost use Rattle.giop_types.specs.Values.Tree.{Tree};
ghost use Rattle.giop_types.specs.Values.Views.{value_view};

use crate::description::checked_desc::CheckedDesc;
use crate::json::form_fault::FormFault;
use crate::json::number_form::NumberForm;
use crate::json::{value_from_json, value_to_json_in};
use crate::value::Value;
use std::alloc::Global;

/// A fitting value that is written as JSON, its numbers in either form, is read as that value,
/// references included. That holds of every description without a fault in which each union has one
/// member by default at most, as in each `Desc`.
pub fn json_gives_values_back()
    ensures { (shape : Shape) → desc_fault 1 shape ≡ None → is_plain shape ≡ true
        → (tree : Tree) → fits shape tree ≡ true → (numbers : NumberForm)
        → from_data shape (to_data numbers shape tree) ≡ Ok tree }
{}

/// A JSON value that is read as a value is a form of it: the value fits its description, and what it is
/// written as, with its numbers in either form, is read as the same value. So among the forms that are
/// read as a value, the writer's is the one that stands for all.
pub fn what_is_read_as_json_is_written_so()
    ensures fits { (shape : Shape) (read : Data) (tree : Tree) → from_data shape read ≡ Ok tree
        → fits shape tree ≡ true }
    ensures written { (shape : Shape) → desc_fault 1 shape ≡ None → is_plain shape ≡ true
        → (read : Data) (tree : Tree) → from_data shape read ≡ Ok tree
        → (numbers : NumberForm) → from_data shape (to_data numbers shape tree) ≡ Ok tree }
{
    json_gives_values_back();
}

/// Writes a value as JSON and reads that again. Refused as Unfit where the value isn't of the
/// description, or as NoMemory. `value_from_json` returns the value for what `value_to_json_in`
/// wrote, or is out of memory: it refuses nothing else.
pub fn written_and_read_as_json(
    alloc: Global,
    numbers: NumberForm,
    desc: &CheckedDesc,
    value: &Value,
) -> Result<Result<Value, FormFault>, FormFault>
    ensures back { IfOk result (λ read. ReadsBack (value_view value.now) read) }
    ensures err { IsErrOf result Unfit
        ↔ (fits (checked_shape desc.now) (value_view value.now) ≡ false) }
{
    let json = value_to_json_in(alloc, numbers, desc, value)?;
    Ok(value_from_json(alloc, desc, &json))
}
