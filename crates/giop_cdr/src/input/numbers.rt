//! Booleans, octets, chars and integers, read (CORBA 3.3 Part 2, 9.3.1). Each is aligned to its
//! size. What a read returns is defined in `specs/Reading/Values.antt`.
ghost use Rattle.std.specs.Prelude.{◌≡◌, IfErr};
ghost use Rattle.std.specs.Int.{w8, w16, w32, w64};
ghost use Rattle.giop_cdr.specs.Reading.Cursor.{place};
ghost use Rattle.giop_cdr.specs.Reading.Values.{number_at, signed_at, boolean_at};
ghost use Rattle.giop_cdr.specs.Reading.Outcome.{Reads};

use crate::fault::{CdrFault, CdrKind};
use crate::input::reader::CdrIn;
use crate::octets::Octets;
use crate::order::Order;

#[tactic(auto, unfolding(crate::specs::Reading::Values::number_at, crate::specs::Reading::Values::signed_at, crate::specs::Reading::Values::boolean_at))]
impl<'a, S: Octets> CdrIn<'a, S> {
    /// A boolean, as an octet (9.3.1.5): 0 is false, 1 is true.
    ///
    /// Refused as Short where the octets end, and as BadBoolean where the octet is another one.
    #[inline(always)]
    pub fn read_boolean(&mut self) -> Result<bool, CdrFault>
        ensures { Reads self.old result self.new (boolean_at self.old) }
    {
        let mut ahead = self.fork();
        let octet = ahead.read_octet()?;
        if 1 < octet {
            return Err(CdrFault {
                at: self.position(),
                kind: CdrKind::BadBoolean,
            });
        }
        *self = ahead;
        Ok(octet == 1)
    }

    /// An octet (9.3.1.4), which has no byte order.
    ///
    /// Refused as Short at its place where no octet is left.
    #[inline(always)]
    pub fn read_octet(&mut self) -> Result<u8, CdrFault>
        ensures { Reads self.old result self.new (number_at w8 self.old) }
    {
        let pad = self.pad_of_field::<1>()?;
        let octets = self.take_field(pad);
        Ok(match self.order() {
            Order::Big => u8::from_be_bytes(octets),
            Order::Little => u8::from_le_bytes(octets),
        })
    }

    /// A char (9.3.1.6) as its octet, which isn't translated.
    ///
    /// Refused as Short at its place where no octet is left.
    #[inline(always)]
    pub fn read_char(&mut self) -> Result<u8, CdrFault>
        ensures { Reads self.old result self.new (number_at w8 self.old) }
    {
        self.read_octet()
    }

    /// A short, two octets aligned to 2 (9.3.1.2), in two's complement.
    ///
    /// Refused as Short at its place where the octets end before it does.
    #[inline(always)]
    pub fn read_short(&mut self) -> Result<i16, CdrFault>
        ensures { Reads self.old result self.new (signed_at w16 self.old) }
    {
        let pad = self.pad_of_field::<2>()?;
        let octets = self.take_field(pad);
        Ok(match self.order() {
            Order::Big => i16::from_be_bytes(octets),
            Order::Little => i16::from_le_bytes(octets),
        })
    }

    /// An unsigned short, two octets aligned to 2 (9.3.1.2).
    ///
    /// Refused as Short at its place where the octets end before it does.
    #[inline(always)]
    pub fn read_ushort(&mut self) -> Result<u16, CdrFault>
        ensures { Reads self.old result self.new (number_at w16 self.old) }
    {
        let pad = self.pad_of_field::<2>()?;
        let octets = self.take_field(pad);
        Ok(match self.order() {
            Order::Big => u16::from_be_bytes(octets),
            Order::Little => u16::from_le_bytes(octets),
        })
    }

    /// A long, four octets aligned to 4 (9.3.1.2), in two's complement.
    ///
    /// Refused as Short at its place where the octets end before it does.
    #[inline(always)]
    pub fn read_long(&mut self) -> Result<i32, CdrFault>
        ensures { Reads self.old result self.new (signed_at w32 self.old) }
    {
        let pad = self.pad_of_field::<4>()?;
        let octets = self.take_field(pad);
        Ok(match self.order() {
            Order::Big => i32::from_be_bytes(octets),
            Order::Little => i32::from_le_bytes(octets),
        })
    }

    /// An unsigned long, four octets aligned to 4 (9.3.1.2).
    ///
    /// Refused as Short at its place where the octets end before it does.
    #[inline(always)]
    pub fn read_ulong(&mut self) -> Result<u32, CdrFault>
        ensures value { Reads self.old result self.new (number_at w32 self.old) }
        ensures place { IfErr result (λ e. e.at ≡ place 4 self.old) }
    {
        let pad = self.pad_of_field::<4>()?;
        let octets = self.take_field(pad);
        Ok(match self.order() {
            Order::Big => u32::from_be_bytes(octets),
            Order::Little => u32::from_le_bytes(octets),
        })
    }

    /// A long long, eight octets aligned to 8 (9.3.1.2), in two's complement.
    ///
    /// Refused as Short at its place where the octets end before it does.
    #[inline(always)]
    pub fn read_longlong(&mut self) -> Result<i64, CdrFault>
        ensures { Reads self.old result self.new (signed_at w64 self.old) }
    {
        let pad = self.pad_of_field::<8>()?;
        let octets = self.take_field(pad);
        Ok(match self.order() {
            Order::Big => i64::from_be_bytes(octets),
            Order::Little => i64::from_le_bytes(octets),
        })
    }

    /// An unsigned long long, eight octets aligned to 8 (9.3.1.2).
    ///
    /// Refused as Short at its place where the octets end before it does.
    #[inline(always)]
    pub fn read_ulonglong(&mut self) -> Result<u64, CdrFault>
        ensures { Reads self.old result self.new (number_at w64 self.old) }
    {
        let pad = self.pad_of_field::<8>()?;
        let octets = self.take_field(pad);
        Ok(match self.order() {
            Order::Big => u64::from_be_bytes(octets),
            Order::Little => u64::from_le_bytes(octets),
        })
    }
}
