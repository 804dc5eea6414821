//! The completion that a system exception has (CORBA 3.3 Part 2, 9.4.3). Its numbers are in
//! specs/Messages/Reply.antt, reply_reading.rt and reply_body_writing.rt: change them together.
/// Whether an operation was completed when a system exception was raised (CORBA 3.3 Part 2, 9.4.3).
#[derive(Clone, Copy, Debug, PartialEq, Eq)]
pub enum Completion {
    /// It was completed: number 0.
    Yes,
    /// It was not completed: number 1.
    No,
    /// It is not known whether it was: number 2.
    Maybe,
}
