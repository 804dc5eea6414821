//! What feeding an end comes to, in whatever reads its octets come. A function's contract is a
//! law; the body is empty, and no program calls it. Its words stand in specs/Pumping.antt of
//! giop_end.
ghost use Rattle.giop_end.specs.Hearing.Heard.{hears_in};
ghost use Rattle.giop_end.specs.Pumping.{AreOneRead, StaysRefused};

use crate::Hearing;

/// An end is fed with octets, and then with more; or, in one read, with both. Where it is never out
/// of memory, it is left the same:
///
/// - Where the first octets are not refused, both ways return the same, and leave the same calls,
///   the same unread octets and the same fault, if there is one.
/// - Where they are refused, the failed end refuses the further octets for the same fault, and
///   stays. Both at once are refused for that fault too. The calls and the fault are the same, and
///   of the octets that are unread the further ones are the last: a failed end doesn't keep them.
///
/// What is outgoing is the same in any case: `End::feed` changes none of it.
pub fn any_reads_leave_the_same<R: Hearing>(rule: &R)
    ensures ok { (interface s mid t u octets more second both : _)
        → AreOneRead (hears_in R.Hearing interface) s mid t u octets more second both }
    ensures refused { (interface s mid t u octets more why second both : _)
        → StaysRefused (hears_in R.Hearing interface) s mid t u octets more why second both }
{}
