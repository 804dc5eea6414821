//! Whether two values are the same: what `==` of `Value` and `ValueList` returns. A new kind of
//! value takes a case here, and in specs/Values/Same.antt.
ghost use Rattle.std.specs.Prelude.{◌≡◌, map};
ghost use Rattle.giop_types.specs.Values.Same.{same_tree, same_trees};
ghost use Rattle.giop_types.specs.Values.Views.{value_view, member_view, trees_of};

use crate::value::Value;

/// Whether two values are of the same variant, with the same parts.
#[cycle(same)]
#[tactic(auto, unfolding(crate::specs::Values::Same::same_tree))]
pub fn is_same(one: &Value, other: &Value) -> bool
    ensures { result ≡ same_tree (value_view one.now) (value_view other.now) }
{
    match (one, other) {
        (Value::Boolean(one), Value::Boolean(other)) => one == other,
        (Value::Octet(one), Value::Octet(other)) => one == other,
        (Value::Char(one), Value::Char(other)) => one == other,
        (Value::Short(one), Value::Short(other)) => one == other,
        (Value::UShort(one), Value::UShort(other)) => one == other,
        (Value::Long(one), Value::Long(other)) => one == other,
        (Value::ULong(one), Value::ULong(other)) => one == other,
        (Value::LongLong(one), Value::LongLong(other)) => one == other,
        (Value::ULongLong(one), Value::ULongLong(other)) => one == other,
        (Value::Text(one), Value::Text(other)) => one == other,
        (Value::Octets(one), Value::Octets(other)) => one == other,
        (Value::Label(one), Value::Label(other)) => one == other,
        (Value::Members(one), Value::Members(other)) => are_same(one, other),
        (
            Value::Choice { disc, member },
            Value::Choice {
                disc: label,
                member: chosen,
            },
        ) => disc == label && is_same_member(member, chosen),
        (Value::Items(one), Value::Items(other)) => are_same(one, other),
        (Value::Row(one), Value::Row(other)) => are_same(one, other),
        _ => false,
    }
}

/// Whether two lists have as many values, each the same.
#[cycle(same)]
#[tactic(auto, unfolding(crate::specs::Values::Same::same_tree))]
pub fn are_same(one: &[Value], other: &[Value]) -> bool
    ensures { result ≡ same_trees (trees_of (map value_view one.now))
        (trees_of (map value_view other.now)) }
{
    if one.len() != other.len() {
        return false;
    }
    for i in 0..one.len() {
        if !is_same(&one[i], &other[i]) {
            return false;
        }
    }
    true
}

// Whether two unions have the same member, or none.
#[cycle(same)]
#[tactic(auto, unfolding(crate::specs::Values::Same::same_tree))]
fn is_same_member(one: &Option<Box<Value>>, other: &Option<Box<Value>>) -> bool
    ensures { result ≡ same_trees (trees_of (member_view one.now))
        (trees_of (member_view other.now)) }
{
    match (one, other) {
        (Some(one), Some(other)) => is_same(one, other),
        (None, None) => true,
        _ => false,
    }
}
