//! LocateRequest, a whole message (9.4.5): read and written. Its layout is specs/Locate.antt, in
//! the order of the fields: change them together.
#![tactic(auto, unfolding(crate::specs::Locate::locate_request, crate::specs::Locate::located, giop_cdr::specs::Layout::field, giop_cdr::specs::Layout::number, giop_cdr::specs::Layout::gives))]

ghost use Rattle.std.specs.Prelude.{◌≡◌, ◌≤◌, ◌^◌, ◌⊎◌, length, true, Ok, Err, IfOk, IfErr, IsOk, OnOk};
ghost use Rattle.giop_cdr.specs.Ending.{ended};
ghost use Rattle.giop_cdr.specs.Reading.Outcome.{Exactly};
ghost use Rattle.giop_cdr.specs.Writing.Outcome.{Appends};
ghost use Rattle.giop_msg.specs.Heads.{WritesBy};
ghost use Rattle.giop_msg.specs.Joined.{AreWhole, no_memory, whole_of_joined};
ghost use Rattle.giop_msg.specs.Locate.{located, locate_request};
ghost use Rattle.giop_msg.specs.Messages.Outcome.{EncodesMessage, IsTold};

use crate::joined::{joined_output, no_memory};
use crate::laid_out;
use crate::laid_out::LaidOut;
use crate::target::{Target, TargetAt};
use crate::target_reading::{view_object_key, view_target};
use crate::target_writing::{append_key, append_target, is_writable_key, is_writable_target};
use crate::version::Version;
use giop_cdr::{CdrFault, CdrIn, CdrKind, CdrOut, EncodeFault, Octets, Order};
use std::alloc::{AllocError, Global};

/// A client asks where an object is (9.4.5): with its target on its own, or, as a
/// `LocateRequestAt`, where it lies. Contracts see both as one value.
#[derive(Debug, Drop)]
pub struct LocateRequest<T = Target> {
    /// The version in which the message is laid out.
    pub version: Version,
    /// The id by which the reply, a cancel and the fragments name this request.
    pub id: u32,
    /// The object that is asked for: before 1.2 a key.
    pub target: T,
}

/// A LocateRequest whose target lies where it was read. It takes no memory.
pub type LocateRequestAt<'a, S> = LocateRequest<TargetAt<'a, S>>;

impl LocateRequest {
    /// The LocateRequest that joined octets are, where it lies. It takes no memory.
    ///
    /// The joined octets are as for `RequestHead::view`. Refused as the first field that is
    /// refused, in reading order, each as its own reader says; then as Trailing at the first octet
    /// that is left behind the target.
    pub fn view<'a, S: Octets>(
        octets: &'a S,
        version: Version,
        order: Order,
    ) -> Result<LocateRequestAt<'a, S>, CdrFault>
        requires { length (S.octets octets.now) ≤ 2 ^ 62 }
        // What is returned is what the octets are, and what they are is returned.
        ensures found { IfOk result (AreWhole (locate_request version) order
            (S.octets octets.now)) }
        ensures only { (request : _)
            → AreWhole (locate_request version) order (S.octets octets.now) request
            → result ≡ Ok request }

        // Which refusal it is.
        ensures exact { result
            ≡ whole_of_joined (locate_request version) order (S.octets octets.now) }
    {
        let mut input = CdrIn::new(octets, order, 12);
        let request = view_request(version, &mut input)?;
        if input.remaining() > 0 {
            return Err(CdrFault {
                at: input.position(),
                kind: CdrKind::Trailing,
            });
        }
        Ok(request)
    }

    /// The LocateRequest that joined octets are, on its own. Refused as `view` refuses. It is
    /// NoMemory at 12 when out of memory, and only for octets that are a LocateRequest.
    pub fn decode<S: Octets>(
        alloc: Global,
        octets: &S,
        version: Version,
        order: Order,
    ) -> Result<LocateRequest, CdrFault>
        requires { length (S.octets octets.now) ≤ 2 ^ 62 }
        // What is returned is what the octets are, and what they are is returned.
        ensures found { IfOk result (AreWhole (locate_request version) order
            (S.octets octets.now)) }
        ensures only { (request : _)
            → AreWhole (locate_request version) order (S.octets octets.now) request
            → IsTold result request }

        // Which refusal it is.
        ensures exact { IfOk result (λ request.
            whole_of_joined (locate_request version) order (S.octets octets.now) ≡ Ok request) }
        ensures err { IfErr result (λ e.
            (whole_of_joined (locate_request version) order (S.octets octets.now) ≡ Err e)
            ⊎ ((e ≡ no_memory)
            × IsOk (whole_of_joined (locate_request version) order (S.octets octets.now)))) }
    {
        let request = LocateRequest::view(octets, version, order)?;
        let Ok(request) = request.to_owned(alloc) else {
            return Err(no_memory());
        };
        Ok(request)
    }

    /// Whether octets spell the LocateRequest in its version. Each text and list of the target is
    /// short enough for its count, and no null is in a text; before 1.2 the target is a key. It
    /// takes no memory.
    pub fn is_writable(&self) -> bool
        ensures { result ≡ (locate_request self.now.version).fits self.now }
    {
        self.fits()
    }

    /// Writes the LocateRequest: the fields in their order.
    ///
    /// Refused as Unfit where `is_writable` is false, and then no octets spell it; else as NoMemory
    /// when out of memory. The output is then as it was.
    pub fn write(&self, out: &mut CdrOut) -> Result<(), EncodeFault>
        ensures { WritesBy (locate_request self.now.version) self.now out.old result out.new }
    {
        laid_out::write(self, out)
    }

    /// The joined octets of the LocateRequest, in a byte order: the fields in their order.
    ///
    /// Refused as Unfit where `is_writable` is false, and then no octets spell it; else as NoMemory
    /// when out of memory.
    #[tactic(auto, unfolding(giop_cdr::specs::Ending::ended), using(crate::proofs::LocateLemmas::request_unspelled))]
    pub fn encode(&self, alloc: Global, order: Order) -> Result<Vec<u8>, EncodeFault>
        ensures encoded { EncodesMessage (ended (locate_request self.now.version)) self.now order
            result }

        // What was written is read as the LocateRequest again.
        ensures back { IfOk result (λ octets.
            whole_of_joined (locate_request self.now.version) order octets.items ≡ Ok self.now) }
    {
        if !self.is_writable() {
            return Err(EncodeFault::Unfit);
        }
        let Ok(mut out) = joined_output(alloc, order) else {
            return Err(EncodeFault::NoMemory);
        };
        if self.append(&mut out).is_err() {
            return Err(EncodeFault::NoMemory);
        }
        Ok(out.into_bytes())
    }
}

impl<'a, S: Octets> LocateRequestAt<'a, S> {
    /// A copy of the LocateRequest on its own. It takes memory for its target.
    pub fn to_owned(&self, alloc: Global) -> Result<LocateRequest, AllocError>
        ensures { IfOk result (λ request. request ≡ self.now) }
    {
        Ok(LocateRequest {
            version: self.version,
            id: self.id,
            target: self.target.to_owned(alloc)?,
        })
    }
}

fn view_located<'a, S: Octets>(
    version: Version,
    input: &mut CdrIn<'a, S>,
) -> Result<TargetAt<'a, S>, CdrFault>
    ensures { Exactly result input.new ((located version).read input.old) }
{
    match version {
        Version::V10 | Version::V11 => view_object_key(input),
        Version::V12 => view_target(input),
    }
}

// Reads the fields in their order.
fn view_request<'a, S: Octets>(
    version: Version,
    input: &mut CdrIn<'a, S>,
) -> Result<LocateRequestAt<'a, S>, CdrFault>
    ensures { Exactly result input.new ((locate_request version).read input.old) }
{
    let id = input.read_ulong()?;
    let target = view_located(version, input)?;
    Ok(LocateRequest {
        version,
        id,
        target,
    })
}

#[tactic(auto, unfolding(crate::specs::Locate::located), using(giop_cdr::proofs::Writing::WriterLemmas::grows_then, giop_cdr::proofs::Writing::WriterLemmas::grows_not))]
fn append_located(version: Version, target: &Target, out: &mut CdrOut) -> Result<(), AllocError>
    requires { (located version).fits target.now ≡ true }
    ensures written { Appends out.old result out.new
        ((located version).written target.now out.old) }
    ensures held { OnOk result ((located version).holds target.now) }
{
    match version {
        Version::V10 | Version::V11 => append_key(target, out)?,
        Version::V12 => append_target(target, out)?,
    }
    Ok(())
}

impl LaidOut for LocateRequest {
    ghost use Rattle.giop_msg.specs.Locate.{locate_request};

    ghost layout = { λ request. locate_request request.version };

    fn fits(&self) -> bool {
        match self.version {
            Version::V10 | Version::V11 => is_writable_key(&self.target),
            Version::V12 => is_writable_target(&self.target),
        }
    }

    #[tactic(auto, unfolding(crate::specs::Locate::locate_request, giop_cdr::specs::Layout::field, giop_cdr::specs::Layout::number, giop_cdr::specs::Layout::gives), using(giop_cdr::proofs::Writing::WriterLemmas::grows_then, giop_cdr::proofs::Writing::WriterLemmas::grows_not))]
    fn append(&self, out: &mut CdrOut) -> Result<(), AllocError> {
        out.write_ulong(self.id)?;
        append_located(self.version, &self.target, out)?;
        Ok(())
    }
}
