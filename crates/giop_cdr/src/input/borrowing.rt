//! Strings and sequences of octets read as parts of the message's slice, without memory. Only a
//! reader over one slice can do so: a store in several parts may hold a value in two of them.
ghost use Rattle.giop_cdr.specs.Reading.Values.{octets_at, string_at};
ghost use Rattle.giop_cdr.specs.Reading.Outcome.{ReadsAs};

use crate::fault::CdrFault;
use crate::input::reader::CdrIn;
use crate::octets::SliceOctets;

impl<'a> CdrIn<'a, SliceOctets<'a>> {
    /// A sequence of octets (9.3.2.5), returned as a part of the reader's slice, so without memory.
    ///
    /// Refused as `read_octets` refuses it, but never as NoMemory. The reader then stays where it
    /// was.
    #[tactic(auto, using(crate::proofs::Reading::CountSteps::octets_counted, crate::proofs::Reading::CountSteps::octets_uncounted))]
    pub fn octets_slice(&mut self, bound: u32) -> Result<&'a [u8], CdrFault>
        ensures { ReadsAs (λ octets. octets.now) self.old result self.new
            (octets_at bound self.old) }
    {
        let mut ahead = self.fork();
        let count = ahead.read_bounded_count(bound)?;
        let octets = ahead.lent(count);
        ahead.advance(count);
        *self = ahead;
        Ok(octets)
    }

    /// The octets of a string (9.3.2.7) without its null, returned as a part of the reader's slice,
    /// so without memory.
    ///
    /// Refused as `read_string` refuses it, but never as NoMemory. The reader then stays where it
    /// was.
    #[tactic(auto, using(crate::proofs::Reading::CountSteps::text_counted, crate::proofs::Reading::CountSteps::text_uncounted))]
    pub fn string_slice(&mut self, bound: u32) -> Result<&'a [u8], CdrFault>
        ensures { ReadsAs (λ text. text.now) self.old result self.new (string_at bound self.old) }
    {
        let mut ahead = self.fork();
        let length = ahead.text_count(bound)?;
        let text = ahead.lent(length.saturating_sub(1));
        ahead.advance(length);
        *self = ahead;
        Ok(text)
    }
}
