//! The lines of a reference: its type id (CORBA 3.3 Part 2, 7.6.2) and its profiles (9.7.2 for
//! those of IIOP).
use crate::{EscapedText, HexText};
use giop_ior::{IiopProfile, TaggedProfile};
use std::fmt;

/// The type id of a reference, in one line: `type TYPE`.
#[derive(Clone, Copy)]
pub struct TypeLine<'a>(pub &'a [u8]);

impl fmt::Display for TypeLine<'_> {
    ghost use Rattle.std.specs.Prelude.{Some};
    ghost use Rattle.giop_lines.specs.ConvertLines.{type_line};

    ghost output = { λ l. Some (type_line l.0.now) };

    fn fmt<W: fmt::Write>(&self, f: &mut fmt::Formatter<W>) -> fmt::Result {
        write!(f, "type {}", EscapedText(self.0))
    }
}

/// An IIOP profile, in one line: `iiop MAJOR.MINOR HOST PORT KEY components COMPONENTS`.
#[derive(Clone, Copy)]
pub struct IiopLine<'a>(pub &'a IiopProfile);

impl fmt::Display for IiopLine<'_> {
    ghost use Rattle.std.specs.Prelude.{Some};
    ghost use Rattle.giop_lines.specs.ConvertLines.{iiop_line};

    ghost output = { λ l. Some (iiop_line l.0.now) };

    fn fmt<W: fmt::Write>(&self, f: &mut fmt::Formatter<W>) -> fmt::Result {
        let profile = self.0;
        let version = VersionText(profile.major, profile.minor);
        let host = EscapedText(profile.host.as_slice());
        let port = profile.port;
        let key = HexText(profile.key.as_slice());
        let components = profile.components.len();
        write!(
            f,
            "iiop {version} {host} {port} {key} components {components}"
        )
    }
}

/// A version of IIOP: `MAJOR.MINOR`.
#[derive(Clone, Copy)]
pub struct VersionText(pub u8, pub u8);

impl fmt::Display for VersionText {
    ghost use Rattle.std.specs.Prelude.{Some};
    ghost use Rattle.giop_lines.specs.ConvertLines.{version_text};

    ghost output = { λ v. Some (version_text v.0 v.1) };

    fn fmt<W: fmt::Write>(&self, f: &mut fmt::Formatter<W>) -> fmt::Result {
        write!(f, "{}.{}", self.0, self.1)
    }
}

/// A profile that isn't read as one of IIOP, in one line: `profile TAG OCTETS`.
#[derive(Clone, Copy)]
pub struct ProfileLine<'a>(pub &'a TaggedProfile);

impl fmt::Display for ProfileLine<'_> {
    ghost use Rattle.std.specs.Prelude.{Some};
    ghost use Rattle.giop_lines.specs.ConvertLines.{profile_line};

    ghost output = { λ l. Some (profile_line l.0.now) };

    fn fmt<W: fmt::Write>(&self, f: &mut fmt::Formatter<W>) -> fmt::Result {
        let profile = self.0;
        write!(
            f,
            "profile {} {}",
            profile.tag,
            HexText(profile.octets.as_slice())
        )
    }
}
