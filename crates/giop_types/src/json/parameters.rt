//! The parameters of an operation, or the members of an exception: checked descriptions with names,
//! of which no two are the same.
ghost use Rattle.std.specs.Prelude.{◌≡◌, map, true, false, IfSome, IfNone};
ghost use Rattle.std.specs.List.{list_any};
ghost use Rattle.giop_types.specs.Descriptions.Checked.{has_doubled, same_name};

use crate::description::checked_desc::CheckedDesc;
use giop_cdr::OctetList;

/// A parameter of an operation, its result, or a member of an exception.
#[derive(Debug, Drop)]
pub struct Parameter {
    /// Its name.
    pub name: OctetList,
    /// What it is.
    pub desc: CheckedDesc,
}

/// Parameters in their order, no two of the same name.
#[derive(Debug, Drop)]
pub struct Parameters {
    list: Vec<Parameter>,
    pub ghost distinct: { has_doubled same_name (map (λ p. p.name) list.items) ≡ false },
}

impl Parameters {
    /// These parameters, or None where two have the same name. It takes no memory. Its time grows
    /// with the square of their number.
    pub fn new(list: Vec<Parameter>) -> Option<Parameters>
        ensures some { IfSome result (λ parameters. parameters.list ≡ list) }
        ensures none { IfNone result (has_doubled same_name (map (λ p. p.name) list.items) ≡ true) }
    {
        if has_doubled_parameter(&list) {
            None
        } else {
            Some(Parameters { list })
        }
    }

    /// The parameters, in their order.
    pub fn as_slice(&self) -> &[Parameter]
        ensures same { result.now ≡ self.now.list.items }
        ensures distinct { has_doubled same_name (map (λ p. p.name) result.now) ≡ false }
    {
        self.list.as_slice()
    }
}

// Whether two parameters have the same name.
fn has_doubled_parameter(list: &[Parameter]) -> bool
    ensures { result ≡ has_doubled same_name (map (λ p. p.name) list.now) }
{
    for (i, parameter) in list.iter().enumerate() {
        if has_parameter(&list[i + 1..], &parameter.name) {
            return true;
        }
    }
    false
}

// Whether a parameter has this name.
fn has_parameter(list: &[Parameter], name: &OctetList) -> bool
    ensures { result ≡ list_any (λ other. same_name other name.now) (map (λ p. p.name) list.now) }
{
    for parameter in list {
        if parameter.name == *name {
            return true;
        }
    }
    false
}
