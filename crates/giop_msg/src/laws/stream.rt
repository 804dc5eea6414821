//! Laws of headers and of streams, above the definitions of specs/Header.antt, specs/Stream.antt
//! and specs/Cut.antt. Each function's contract is one of them; the bodies are empty, and no
//! program calls these.
ghost use Rattle.giop_msg.specs.Cut.{CutLaws};
ghost use Rattle.giop_msg.specs.Laws.{EverySplit, FaultsStand, HeaderRoundTrip, OneSplit, RequestIds, SplitOn};

/// The octets of a header are read as that header, and what is wrong with them is judged by its
/// fields. Octets in which nothing is wrong are those of the header that is read from them.
pub fn header_round_trip()
    ensures { HeaderRoundTrip }
{}

/// A request id is what the fields up to it spell, and else the first of these that is refused is
/// reported. Each message that is accepted and begins with its request id has one.
pub fn request_ids()
    ensures { RequestIds }
{}

/// Every stream of octets has a split into messages and a rest.
pub fn every_stream_splits()
    ensures { EverySplit }
{}

/// Two splits of one stream into messages are one.
pub fn one_split()
    ensures { OneSplit }
{}

/// The split of a stream, and then that of its rest with more octets after it, is the split of all
/// these octets.
pub fn split_on()
    ensures { SplitOn }
{}

/// A fault at the front of octets is there for good, however many octets follow.
pub fn faults_stand()
    ensures { FaultsStand }
{}

/// The messages that `cut` returns have the joined octets that were cut, and a framer reads back
/// these messages and nothing else.
pub fn cuts_are_undone()
    ensures { CutLaws }
{}
