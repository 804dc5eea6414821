//! The values of a sequence or an array as they are read, one after another.
ghost use Rattle.std.specs.Prelude.{◌≡◌, ◌≤◌, ◌+◌, ◌*◌, ◌++◌, ◌∷◌, [], length, map, max, OnOk};
ghost use Rattle.std.specs.Vec.{vec_capacity};
ghost use Rattle.giop_types.specs.Values.Views.{value_view};

use crate::value::Value;
use std::alloc::AllocError;
use std::marker::Model;

/// Values that are read one after another, as `ValueMemory` begins them. Room for more is made as
/// they come, and in no other way: contracts see the values that have come, and for how many there
/// is room.
#[derive(Drop)]
pub struct ArrivingValues {
    values: Vec<Value>,
}

impl Model for ArrivingValues {
    ghost use Rattle.std.specs.Prelude.{map};
    ghost use Rattle.std.specs.Vec.{vec_capacity};
    ghost use Rattle.giop_types.specs.Values.Arriving.{Arriving, coded_arriving};

    ghost Value = { Arriving };

    ghost coded = { coded_arriving };

    ghost use Rattle.giop_types.specs.Values.Views.{value_view};

    ghost view = { λ a. record {
      come = map value_view a.values.items;
      room = vec_capacity a.values;
    } };
}

impl ArrivingValues {
    /// The values of `values`, and its room.
    pub(super) fn from_vec(values: Vec<Value>) -> ArrivingValues
        ensures come { result.come ≡ map value_view values.items }
        ensures room { result.room ≡ vec_capacity values }
    {
        ArrivingValues { values }
    }

    /// Appends a value that has come. Where there is no room, it is made for as many more values as
    /// have come, or for four.
    #[inline(always)]
    pub fn push(&mut self, value: Value) -> Result<(), AllocError>
        ensures come { OnOk result (self.new.come ≡ self.old.come ++ value_view value ∷ []) }
        ensures room { self.new.room ≤ max self.old.room (2 * length self.old.come + 4) }
    {
        let values = &mut self.values;
        let come = values.len();
        if come == values.capacity() {
            values.reserve_exact(come.max(4))?;
        }
        values.push_reserved(value);
        Ok(())
    }

    /// The values that have come, in their order, with the room that there is.
    pub fn into_vec(self) -> Vec<Value>
        ensures { map value_view result.items ≡ self.come }
    {
        self.values
    }
}
