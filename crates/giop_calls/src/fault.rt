//! Why an event of a call is refused. The numbers and names are specs/Faults.antt too: change both.
ghost use Rattle.std.specs.Prelude.{◌≡◌};

use std::error::Error;
use std::fmt;

/// Why an event is refused. A refused event leaves the entry of its id as it was.
#[derive(Clone, Copy, Debug, PartialEq, Eq)]
pub enum CallFault {
    /// A call begins with an id whose former call isn't over.
    IdInUse,
    /// A Fragment comes with an id for which nothing is gathered.
    Stray,
    /// A Fragment has another byte order than the message that it continues.
    OrderDiffers,
    /// A Reply or a LocateReply comes with an id that waits for none.
    UnknownReply,
    /// A Request is answered as a LocateRequest, or the other way round; or a reply is of another
    /// version than its request.
    WrongKind,
    /// The call that is to be answered or cancelled isn't open.
    NotOpen,
    /// What is to be sent has no place in a message, or doesn't answer the call.
    Unfit,
    /// The interface has no such operation.
    UnknownOperation,
    /// No piece of a message is left to be sent.
    NothingToSend,
}

impl CallFault {
    ghost use Rattle.giop_calls.specs.Faults.{fault_number};

    /// The number of the fault, 1 to 9.
    pub fn number(self) -> u8
        ensures { result ≡ fault_number self }
    {
        match self {
            CallFault::IdInUse => 1,
            CallFault::Stray => 2,
            CallFault::OrderDiffers => 3,
            CallFault::UnknownReply => 4,
            CallFault::WrongKind => 5,
            CallFault::NotOpen => 6,
            CallFault::Unfit => 7,
            CallFault::UnknownOperation => 8,
            CallFault::NothingToSend => 9,
        }
    }
}

/// The name of the fault, as `IdInUse`.
impl fmt::Display for CallFault {
    ghost use Rattle.std.specs.Prelude.{Some};
    ghost use Rattle.giop_calls.specs.Faults.{fault_name};

    ghost output = { λ f. Some (fault_name f) };

    fn fmt<W: fmt::Write>(&self, f: &mut fmt::Formatter<W>) -> fmt::Result {
        f.write_str(match self {
            CallFault::IdInUse => "IdInUse",
            CallFault::Stray => "Stray",
            CallFault::OrderDiffers => "OrderDiffers",
            CallFault::UnknownReply => "UnknownReply",
            CallFault::WrongKind => "WrongKind",
            CallFault::NotOpen => "NotOpen",
            CallFault::Unfit => "Unfit",
            CallFault::UnknownOperation => "UnknownOperation",
            CallFault::NothingToSend => "NothingToSend",
        })
    }
}

impl Error for CallFault {}
