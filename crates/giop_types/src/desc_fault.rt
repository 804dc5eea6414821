/// Why a description describes no type of IDL.
#[derive(Clone, Copy, Debug, PartialEq, Eq)]
pub enum DescFault {
    /// A struct has no member, an enum no name, a union no case, a case no label, or an array no
    /// item.
    Empty = 1,
    /// Two names of an enum, two members of a struct or of a union, or two labels of a union are
    /// the same.
    Doubled = 2,
    /// A union's discriminant is of no type that a discriminant may have, or a label is no value of
    /// it.
    BadDiscriminant = 3,
    /// A description is nested more than 32 deep, where the outermost one is 1 deep.
    TooDeep = 4,
}
