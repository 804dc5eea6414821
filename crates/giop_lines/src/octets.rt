//! Octets in a line: as hexadecimal digits, or as text in which some are escaped.
use percent_encoding::{AsciiSet, CONTROLS, ascii_set, ascii_str, percent_encode};
use std::fmt;

// The ASCII octets that are escaped: all but those from 0x21 to 0x7E, and `%`.
const ESCAPED: AsciiSet = ascii_set!(CONTROLS.add(b' ').add(b'%'));

/// Octets in lower-case hexadecimal, `-` where there are none.
#[derive(Clone, Copy)]
pub struct HexText<'a>(pub &'a [u8]);

impl fmt::Display for HexText<'_> {
    ghost use Rattle.std.specs.Prelude.{Some};
    ghost use Rattle.giop_lines.specs.Octets.{hex_text};

    ghost output = { λ h. Some (hex_text h.0.now) };

    fn fmt<W: fmt::Write>(&self, f: &mut fmt::Formatter<W>) -> fmt::Result {
        if self.0.is_empty() {
            return f.write_str("-");
        }
        for octet in self.0 {
            let mut digits = [0; 2];
            hex::encode_to_slice([*octet], &mut digits).unwrap();
            f.write_str(ascii_str(&digits))?;
        }
        Ok(())
    }
}

/// Octets as text, `-` where there are none. The octets 0x21 to 0x7E but for `%` stand for
/// themselves, each other one is `%` and two upper-case hexadecimal digits.
#[derive(Clone, Copy)]
pub struct EscapedText<'a>(pub &'a [u8]);

impl fmt::Display for EscapedText<'_> {
    ghost use Rattle.std.specs.Prelude.{Some};
    ghost use Rattle.giop_lines.specs.Octets.{escaped_text};

    ghost output = { λ e. Some (escaped_text e.0.now) };

    fn fmt<W: fmt::Write>(&self, f: &mut fmt::Formatter<W>) -> fmt::Result {
        if self.0.is_empty() {
            return f.write_str("-");
        }
        write!(f, "{}", percent_encode(self.0, ESCAPED))
    }
}
