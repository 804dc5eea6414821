//! The laws of an observer, and of the order in which `trace` tells what it hears, in use: one
//! connection, both directions, two ids whose messages stand between one another.
ghost use Rattle.std.specs.Prelude.{◌≡◌, List, None, Some, false};
ghost use Rattle.std.specs.FinMap as finite;
ghost use Rattle.std.specs.List.{flat_map};
ghost use Rattle.giop_ids.specs.ById.{ById};
ghost use Rattle.giop_tracing.specs.Trace.Order.{IsOrder};
ghost use Rattle.giop_tracing.specs.Trace.Text.{both_turn, heard_lines};
ghost use Rattle.giop_forms.specs.declared.line_form.LineForm.{LineForm};
ghost use Rattle.giop_trace.specs.Observing.{Brought, left_of_all, told_of_all};
ghost use Rattle.giop_trace.specs.declared.flow.Flow.{Flow};
ghost use Rattle.giop_types.specs.declared.interfaces.interface.Interface.{Interface};
ghost use Rattle.laws_in_use.specs.Observed.{answered, asked, before_the_last, in_part, in_turn, whole};

use giop_trace::laws::each_call_alone;
use giop_tracing::laws::one_order;

/// What is asked, cancelled and answered under 9 between the messages of 7 changes nothing of 7: its
/// request is joined, its answer is there in part, and behind the last Fragment nothing is left.
pub fn one_call_is_observed_among_another()
    ensures in_part { (flows : ById Flow) → finite.get flows 7 ≡ None
        → finite.get (left_of_all false flows before_the_last) 7 ≡ Some in_part }
    ensures over { (flows : ById Flow) → finite.get flows 7 ≡ None
        → finite.get (left_of_all false flows whole) 7 ≡ None }
{
    each_call_alone();
}

/// Where the answer to 9 comes first of what the server sent, it waits until `k` is asked for, and
/// the answer to 7 until its last piece is: in that order all of it is told, and in no other. Of 7
/// nothing is open then.
pub fn both_are_told_in_turn()
    ensures order { (flows : ById Flow) → finite.get flows 7 ≡ None → finite.get flows 9 ≡ None
        → IsOrder flows asked answered in_turn }
    ensures only { (flows : ById Flow) → finite.get flows 7 ≡ None → finite.get flows 9 ≡ None
        → (all : List Brought) × IsOrder flows asked answered all × (all ≡ in_turn) }
    ensures lines { (form : LineForm) (interface : Interface) (flows : ById Flow)
        → finite.get flows 7 ≡ None → finite.get flows 9 ≡ None
        → (both_turn form interface flows asked answered).lines
        ≡ flat_map (heard_lines form interface false) (told_of_all false flows in_turn) }
    ensures over { (form : LineForm) (interface : Interface) (flows : ById Flow)
        → finite.get flows 7 ≡ None → finite.get flows 9 ≡ None
        → finite.get (both_turn form interface flows asked answered).flows 7 ≡ None }
{
    each_call_alone();
    one_order();
}
