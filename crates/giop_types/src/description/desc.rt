//! The description of an IDL type (CORBA 3.3 Part 2, 9.3). A new variant takes one in value.rt, and
//! a case wherever check.rt, same.rt, codec/, the definitions of specs/ and giop_json go by
//! variants.
use giop_cdr::OctetList;

/// What a value looks like on the wire: a type of IDL, without its name (CORBA 3.3 Part 2, 9.3).
#[derive(Debug, Drop, PartialEq, Eq)]
#[cycle(desc)]
pub enum Desc {
    /// A boolean.
    Boolean,
    /// An octet, 0 to 255.
    Octet,
    /// A char, as its octet.
    Char,
    /// A short.
    Short,
    /// An unsigned short.
    UShort,
    /// A long.
    Long,
    /// An unsigned long.
    ULong,
    /// A long long.
    LongLong,
    /// An unsigned long long.
    ULongLong,
    /// A string of so many octets at most, or without a bound where it is 0.
    Text(u32),
    /// A sequence of so many octets at most, or without a bound where it is 0.
    Octets(u32),
    /// An enum, by the names of its ordinals from 0 on.
    Labels(Vec<OctetList>),
    /// A struct, by its members in their order.
    Members(Vec<NamedDesc>),
    /// A union.
    Choice {
        /// What the discriminant is.
        disc: Box<Desc>,
        /// The members that labels select.
        cases: Vec<CaseDesc>,
        /// The member that any other label selects, where there is one.
        fallback: Option<Box<NamedDesc>>,
    },
    /// A sequence of so many values at most, or without a bound where it is 0.
    Items(Box<Desc>, u32),
    /// An array of so many values.
    Row(Box<Desc>, u32),
}

/// A member of a struct, or of a union by default.
#[derive(Debug, Drop, PartialEq, Eq)]
#[cycle(desc)]
pub struct NamedDesc {
    /// Its name.
    pub name: OctetList,
    /// What it is.
    pub desc: Desc,
}

/// A member of a union that labels select.
#[derive(Debug, Drop, PartialEq, Eq)]
#[cycle(desc)]
pub struct CaseDesc {
    /// The labels: of a boolean 0 or 1, of a char its octet, of an enum its ordinal.
    pub labels: Vec<i128>,
    /// Its name.
    pub name: OctetList,
    /// What it is.
    pub desc: Desc,
}
