//! The parameters of an operation, or the members of an exception: checked descriptions with names,
//! of which no two are the same.
ghost use Rattle.std.specs.Prelude.{◌≡◌, map, true, false, IfSome, IfNone};
ghost use Rattle.giop_types.specs.Descriptions.Checked.{has_doubled, same_name};

use crate::description::checked_desc::CheckedDesc;
use crate::description::named::{Named, is_any_doubled};
use giop_cdr::OctetList;

/// A parameter of an operation, its result, or a member of an exception.
#[derive(Debug, Drop)]
pub struct Parameter {
    /// Its name.
    pub name: OctetList,
    /// What it is.
    pub desc: CheckedDesc,
}

impl Named for Parameter {
    ghost name_of = { λ parameter. parameter.name };

    fn name(&self) -> &OctetList {
        &self.name
    }
}

/// Parameters in their order, no two of the same name.
#[derive(Debug, Drop)]
pub struct Parameters {
    list: Vec<Parameter>,
    pub ghost distinct: { has_doubled same_name (map (λ p. p.name) list.items) ≡ false },
}

impl Parameters {
    /// These parameters, or None where two have the same name. The names are looked up in an order,
    /// which takes memory from where the list lies. Where it is refused the same is returned, and
    /// the time grows with the square of their number.
    pub fn new(list: Vec<Parameter>) -> Option<Parameters>
        ensures some { IfSome result (λ parameters. parameters.list ≡ list) }
        ensures none { IfNone result (has_doubled same_name (map (λ p. p.name) list.items) ≡ true) }
    {
        if is_any_doubled(*list.allocator(), &list) {
            None
        } else {
            Some(Parameters { list })
        }
    }

    /// The parameters, in their order.
    pub fn as_slice(&self) -> &[Parameter]
        ensures same { result.now ≡ self.now.list.items }
        ensures distinct { has_doubled same_name (map (λ p. p.name) result.now) ≡ false }
    {
        self.list.as_slice()
    }
}
