//! What a part of a file is. A new role takes cases in parts.rt, alone.rt and judge.rt, and in
//! specs/Parts.antt and specs/Alone.antt.

/// What a part of a file is (docs/FORMATS.md).
#[derive(Clone, Copy, Debug, PartialEq, Eq)]
pub enum Role {
    /// A whole interface.
    Interface,
    /// The operations of an interface, by their names.
    Operations,
    /// An operation.
    Operation,
    /// A list of parameters, or of the members of an exception.
    Parameters,
    /// A parameter, or a member of an exception: its name and its description.
    Parameter,
    /// Whether an operation is oneway.
    Oneway,
    /// The exceptions of an interface, by their ids.
    Exceptions,
    /// What stands under a key that is none of the form's, or is an item too many.
    Unknown,
    /// A description.
    Description,
    /// The names of an enum.
    Names,
    /// A name.
    Name,
    /// A bound.
    Bound,
    /// The length of an array.
    Length,
    /// The members of a struct.
    Members,
    /// A member of a struct, or of a union by default: its name and its description.
    Member,
    /// The cases of a union.
    Cases,
    /// A case of a union: its labels, its name and its description.
    Case,
    /// The labels of a case.
    Labels,
    /// A label.
    Label,
    /// A value.
    Value,
    /// The values of parameters, in their order. They are judged one by one, and not by themselves.
    Arguments,
    /// The calls of a file. This and what follows is judged by others.
    Calls,
    /// A call.
    Call,
    /// The name of an operation of the interface.
    Offered,
    /// The answers of a file.
    Answers,
    /// An answer.
    Answer,
    /// The id of an exception of the interface.
    Raised,
    /// The completion of a system exception.
    Completion,
    /// Where an object is instead.
    Forward,
    /// A part of what is judged whole.
    Nothing,
}
