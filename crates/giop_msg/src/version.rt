//! The versions of GIOP (9.4.1), and what a header may say in each. The meaning is
//! specs/Version.antt.
ghost use Rattle.std.specs.Prelude.{◌≡◌};

/// The version of GIOP in which a message is laid out (9.4.1, GIOP_version): its major number is 1.
#[derive(Clone, Copy, Debug, PartialEq, Eq)]
pub enum Version {
    /// GIOP 1.0: octet 6 of the header is the byte order and nothing else.
    V10,
    /// GIOP 1.1: octet 6 of the header is the flags. Messages with more fragments to come are
    /// refused in this version.
    V11,
    /// GIOP 1.2: a message names its target in one of three ways, and Fragments may continue it.
    V12,
}

impl Version {
    ghost use Rattle.giop_msg.specs.Version.{flag_values, has_fragments, kind_count, minor_of, version_of};

    /// The minor number of the version: 0, 1 or 2.
    pub fn minor(self) -> u8
        ensures { result ≡ minor_of self }
    {
        match self {
            Version::V10 => 0,
            Version::V11 => 1,
            Version::V12 => 2,
        }
    }

    // The version of a minor number. Each above 1 is taken for 1.2; whether there is such a version
    // is judged apart.
    pub(crate) fn from_minor(minor: u8) -> Version
        ensures { result ≡ version_of minor }
    {
        match minor {
            0 => Version::V10,
            1 => Version::V11,
            _ => Version::V12,
        }
    }

    // How many values octet 6 of a header may have, from 0 on.
    pub(crate) fn flag_values(self) -> u8
        ensures { result ≡ flag_values self }
    {
        match self {
            Version::V10 => 2,
            Version::V11 | Version::V12 => 4,
        }
    }

    // How many message types there are, from 0 on.
    pub(crate) fn kind_count(self) -> u8
        ensures { result ≡ kind_count self }
    {
        match self {
            Version::V10 | Version::V11 => 7,
            Version::V12 => 8,
        }
    }

    /// Whether Fragments may continue messages of the version: in 1.2 alone.
    pub fn has_fragments(self) -> bool
        ensures { result ≡ has_fragments self }
    {
        matches!(self, Version::V12)
    }
}
