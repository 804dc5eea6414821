//! Parts of an interface whose descriptions are still to be checked: the form of the whole JSON
//! text is judged before any description.
ghost use Rattle.std.specs.Prelude.{◌≡◌, map, true, false, length};
ghost use Rattle.giop_types.specs.Descriptions.Checked.{has_doubled, same_name, field_names};
ghost use Rattle.giop_types.specs.Values.Views.{named_view, fields_of};

use giop_types::NamedDesc;

/// Parameters whose descriptions are still to be checked, no two of the same name.
#[derive(Drop)]
pub struct ParametersForm {
    pub list: Vec<NamedDesc>,
    pub ghost distinct: { has_doubled same_name (field_names (fields_of (map named_view list.items)))
        ≡ false },
}

/// An operation whose descriptions are still to be checked.
#[derive(Drop)]
pub struct OperationForm {
    pub oneway: bool,
    pub ins: ParametersForm,
    pub outs: ParametersForm,
    pub ghost silent: { oneway ≡ true → length outs.list.items ≡ 0 },
}
