//! A value of an IDL type (CORBA 3.3 Part 2, 9.3), as a tree. Its variants are those of `Desc`
//! (description/desc.rt), so change them together.
use crate::same::is_same;
use giop_cdr::OctetList;

/// A value of a description (CORBA 3.3 Part 2, 9.3): a variant for each of `Desc`.
#[derive(Debug, Drop)]
#[cycle(value)]
pub enum Value {
    /// A boolean.
    Boolean(bool),
    /// An octet.
    Octet(u8),
    /// A char, as its octet.
    Char(u8),
    /// A short.
    Short(i16),
    /// An unsigned short.
    UShort(u16),
    /// A long.
    Long(i32),
    /// An unsigned long.
    ULong(u32),
    /// A long long.
    LongLong(i64),
    /// An unsigned long long.
    ULongLong(u64),
    /// A string, without its null.
    Text(OctetList),
    /// A sequence of octets.
    Octets(OctetList),
    /// The ordinal of an enum's name.
    Label(u32),
    /// The members of a struct in their order.
    Members(Vec<Value>),
    /// A union.
    Choice {
        /// The discriminant, as a number: of a boolean 0 or 1, of a char its octet, of an enum its
        /// ordinal.
        disc: i128,
        /// The member that it selects, where there is one.
        member: Option<Box<Value>>,
    },
    /// The values of a sequence.
    Items(Vec<Value>),
    /// The values of an array.
    Row(Vec<Value>),
}

/// Two values are equal where they are the same: of the same variants, with the same parts.
impl PartialEq for Value {
    ghost use Rattle.giop_types.specs.Values.Same.{same_value};
    ghost use Rattle.giop_types.specs.Values.SameLaws.{same_partial};

    ghost eq = { same_value };

    ghost laws = { same_partial };

    fn eq(&self, other: &Value) -> bool {
        is_same(self, other)
    }
}

impl Eq for Value {
    ghost use Rattle.giop_types.specs.Values.SameLaws.{same_equivalence};

    ghost laws = { same_equivalence };
}
