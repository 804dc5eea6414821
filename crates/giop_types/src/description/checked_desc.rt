//! Descriptions that were checked. Readers and writers take no others, so that each value of one
//! takes an octet or more.
ghost use Rattle.std.specs.Prelude.{◌≡◌, true, IfOk, IfErr, None};
ghost use Rattle.giop_types.specs.Descriptions.Checked.{desc_fault};
ghost use Rattle.giop_types.specs.Descriptions.Full.{is_full};
ghost use Rattle.giop_types.specs.Values.Views.{desc_view};

use crate::description::check::check_desc;
use crate::description::desc::Desc;
use crate::description::desc_fault::DescFault;
use crate::description::taken_apart::take_apart;

/// A description that was checked. Nothing of it is empty, and no name or label is there twice. The
/// labels of each union are values of its discriminant. It is nested no more than 32 deep. So each
/// of its values takes an octet or more.
#[derive(Debug, Drop)]
pub struct CheckedDesc {
    desc: Desc,
    pub ghost checked: { desc_fault 1 (desc_view desc) ≡ None },
}

impl CheckedDesc {
    ghost use Rattle.giop_types.specs.Descriptions.CheckedShape.{checked_shape};

    /// Checks a description. Refused, and dropped, with the fault of the first node in reading
    /// order that has one, the node itself before its parts: of a union the discriminant, then the
    /// cases in their order, then the default. Of one node the first of these faults is returned:
    /// TooDeep, Empty, BadDiscriminant, Doubled.
    ///
    /// It looks 33 nodes deep at most, and what is refused is dropped in a loop: the stack doesn't
    /// grow with the description. The names and the labels of one node are looked up in an order,
    /// which takes memory from where the description lies. Where it is refused the same is
    /// returned, and the time grows with the square of the names, or labels, of that node.
    pub fn check(desc: Desc) -> Result<CheckedDesc, DescFault>
        ensures ok { IfOk result (λ checked.
            (desc_fault 1 (desc_view desc) ≡ None) × (checked_shape checked ≡ desc_view desc)) }
        ensures err { IfErr result (λ fault. desc_fault 1 (desc_view desc) ≡ Some fault) }
    {
        match check_desc(&desc, 1) {
            Ok(()) => Ok(CheckedDesc { desc }),
            Err(fault) => {
                take_apart(desc);
                Err(fault)
            }
        }
    }

    /// The description that was checked.
    pub fn desc(&self) -> &Desc
        ensures same { desc_view result.now ≡ checked_shape self.now }
        ensures checked { desc_fault 1 (desc_view result.now) ≡ None }
        ensures full { is_full (desc_view result.now) ≡ true }
    {
        &self.desc
    }
}
