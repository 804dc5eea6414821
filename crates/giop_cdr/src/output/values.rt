//! Booleans, octets, chars and integers (CORBA 3.3 Part 2, 9.3.1), sequences of octets and strings
//! (9.3.2), written. What a write appends is defined in `specs/Writing/Output.antt`. `held`
//! hands on the range of a number, which its type says, to who speaks of the value alone.
ghost use Rattle.std.specs.Prelude.{◌≡◌, ◌<◌, ◌^◌, ◌+◌, length, false, if◌then◌else◌, FitsSigned};
ghost use Rattle.std.specs.Int.{w8, w16, w32, w64};
ghost use Rattle.giop_cdr.specs.Writing.Output.{number_out, signed_out, octets_out, string_out};
ghost use Rattle.giop_cdr.specs.Reading.Values.{has_null};
ghost use Rattle.giop_cdr.specs.Writing.Outcome.{Writes};

use crate::order::Order;
use crate::output::writer::CdrOut;
use std::alloc::AllocError;

#[tactic(auto, unfolding(crate::specs::Writing::Output::number_out, crate::specs::Writing::Output::signed_out))]
impl CdrOut {
    /// A boolean, as an octet (9.3.1.5): 1 for true, 0 for false.
    #[inline(always)]
    pub fn write_boolean(&mut self, value: bool) -> Result<(), AllocError>
        ensures { Writes self.old result self.new
            (number_out w8 (if value then 1 else 0) self.old) }
    {
        self.write_octet(u8::from(value))
    }

    /// An octet (9.3.1.4), which has no byte order.
    #[inline(always)]
    pub fn write_octet(&mut self, value: u8) -> Result<(), AllocError>
        ensures written { Writes self.old result self.new (number_out w8 value self.old) }
        ensures held { value < 2 ^ 8 }
    {
        match self.order() {
            Order::Big => self.append_field(u8::to_be_bytes(value)),
            Order::Little => self.append_field(u8::to_le_bytes(value)),
        }
    }

    /// A char (9.3.1.6), by its octet, which isn't translated.
    #[inline(always)]
    pub fn write_char(&mut self, value: u8) -> Result<(), AllocError>
        ensures written { Writes self.old result self.new (number_out w8 value self.old) }
        ensures held { value < 2 ^ 8 }
    {
        self.write_octet(value)
    }

    /// A short, two octets aligned to 2 (9.3.1.2), in two's complement.
    #[inline(always)]
    pub fn write_short(&mut self, value: i16) -> Result<(), AllocError>
        ensures written { Writes self.old result self.new (signed_out w16 value self.old) }
        ensures held { FitsSigned w16 value }
    {
        match self.order() {
            Order::Big => self.append_field(i16::to_be_bytes(value)),
            Order::Little => self.append_field(i16::to_le_bytes(value)),
        }
    }

    /// An unsigned short, two octets aligned to 2 (9.3.1.2).
    #[inline(always)]
    pub fn write_ushort(&mut self, value: u16) -> Result<(), AllocError>
        ensures written { Writes self.old result self.new (number_out w16 value self.old) }
        ensures held { value < 2 ^ 16 }
    {
        match self.order() {
            Order::Big => self.append_field(u16::to_be_bytes(value)),
            Order::Little => self.append_field(u16::to_le_bytes(value)),
        }
    }

    /// A long, four octets aligned to 4 (9.3.1.2), in two's complement.
    #[inline(always)]
    pub fn write_long(&mut self, value: i32) -> Result<(), AllocError>
        ensures written { Writes self.old result self.new (signed_out w32 value self.old) }
        ensures held { FitsSigned w32 value }
    {
        match self.order() {
            Order::Big => self.append_field(i32::to_be_bytes(value)),
            Order::Little => self.append_field(i32::to_le_bytes(value)),
        }
    }

    /// An unsigned long, four octets aligned to 4 (9.3.1.2).
    #[inline(always)]
    pub fn write_ulong(&mut self, value: u32) -> Result<(), AllocError>
        ensures written { Writes self.old result self.new (number_out w32 value self.old) }
        ensures held { value < 2 ^ 32 }
    {
        match self.order() {
            Order::Big => self.append_field(u32::to_be_bytes(value)),
            Order::Little => self.append_field(u32::to_le_bytes(value)),
        }
    }

    /// A long long, eight octets aligned to 8 (9.3.1.2), in two's complement.
    #[inline(always)]
    pub fn write_longlong(&mut self, value: i64) -> Result<(), AllocError>
        ensures written { Writes self.old result self.new (signed_out w64 value self.old) }
        ensures held { FitsSigned w64 value }
    {
        match self.order() {
            Order::Big => self.append_field(i64::to_be_bytes(value)),
            Order::Little => self.append_field(i64::to_le_bytes(value)),
        }
    }

    /// An unsigned long long, eight octets aligned to 8 (9.3.1.2).
    #[inline(always)]
    pub fn write_ulonglong(&mut self, value: u64) -> Result<(), AllocError>
        ensures written { Writes self.old result self.new (number_out w64 value self.old) }
        ensures held { value < 2 ^ 64 }
    {
        match self.order() {
            Order::Big => self.append_field(u64::to_be_bytes(value)),
            Order::Little => self.append_field(u64::to_le_bytes(value)),
        }
    }

    /// A sequence of octets (9.3.2.5): an unsigned long length, aligned to 4, and the octets.
    #[tactic(auto, unfolding(crate::specs::Writing::Output::octets_out, crate::specs::Writing::Output::number_out))]
    #[inline(always)]
    pub fn write_octets(&mut self, octets: &[u8]) -> Result<(), AllocError>
        requires { length octets.now < 2 ^ 32 }
        ensures { Writes self.old result self.new (octets_out octets.now self.old) }
    {
        let length = octets.len() as u32;
        self.append_counted(self.order().ulong_octets(length), octets, &[])
    }

    /// A string (9.3.2.7): an unsigned long length, aligned to 4, that counts the null, the octets,
    /// the null. So the empty string is its length 1 and a null. The contract requires that `text`
    /// has no null, and is short enough for its length.
    #[tactic(auto, unfolding(crate::specs::Writing::Output::string_out, crate::specs::Writing::Output::number_out))]
    #[inline(always)]
    pub fn write_string(&mut self, text: &[u8]) -> Result<(), AllocError>
        requires text { has_null text.now ≡ false }
        requires short { length text.now + 1 < 2 ^ 32 }
        ensures { Writes self.old result self.new (string_out text.now self.old) }
    {
        let length = text.len() as u32 + 1;
        self.append_counted(self.order().ulong_octets(length), text, &[0])
    }
}
