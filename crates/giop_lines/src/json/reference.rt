//! The JSON line of a reference: its type id (CORBA 3.3 Part 2, 7.6.2) and its profiles (9.7.2 for
//! those of IIOP); and that of a corbaloc. Their texts are specs/ConvertJson.antt.
use crate::json::target::KeyJson;
use crate::reference::VersionText;
use crate::{HexJson, TextJson};
use giop_ior::{IiopProfile, TaggedProfile};
use std::fmt;

/// The type id of a reference, as the first member of an object, which is left open in a list:
/// `{"type_id":TYPE,"profiles":[`.
#[derive(Clone, Copy)]
pub struct TypeJson<'a>(pub &'a [u8]);

impl fmt::Display for TypeJson<'_> {
    ghost use Rattle.std.specs.Prelude.{Some};
    ghost use Rattle.giop_lines.specs.ConvertJson.{type_json};

    ghost output = { λ l. Some (type_json l.0.now) };

    #[tactic(auto, unfolding(crate::specs::ConvertJson::type_json))]
    fn fmt<W: fmt::Write>(&self, f: &mut fmt::Formatter<W>) -> fmt::Result {
        write!(f, "{{\"type_id\":{},\"profiles\":[", TextJson(self.0))
    }
}

/// An IIOP profile: `{"tag":0,"version":"MAJOR.MINOR","host":HOST,"port":PORT,KEY,"components":N}`,
/// with KEY as `KeyJson` has it.
#[derive(Clone, Copy)]
pub struct IiopJson<'a>(pub &'a IiopProfile);

impl fmt::Display for IiopJson<'_> {
    ghost use Rattle.std.specs.Prelude.{Some};
    ghost use Rattle.giop_lines.specs.ConvertJson.{iiop_json};

    ghost output = { λ l. Some (iiop_json l.0.now) };

    #[tactic(auto, unfolding(crate::specs::ConvertJson::iiop_json))]
    fn fmt<W: fmt::Write>(&self, f: &mut fmt::Formatter<W>) -> fmt::Result {
        let profile = self.0;
        let address = AddressJson(profile);
        let key = KeyJson(profile.key.as_slice());
        let components = profile.components.len();
        write!(
            f,
            "{{\"tag\":0,{address},{key},\"components\":{components}}}"
        )
    }
}

// Where an IIOP profile's object is called.
#[derive(Clone, Copy)]
struct AddressJson<'a>(&'a IiopProfile);

impl fmt::Display for AddressJson<'_> {
    ghost use Rattle.std.specs.Prelude.{Some};
    ghost use Rattle.giop_lines.specs.ConvertJson.{address_json};

    ghost output = { λ a. Some (address_json a.0.now) };

    #[tactic(auto, unfolding(crate::specs::ConvertJson::address_json))]
    fn fmt<W: fmt::Write>(&self, f: &mut fmt::Formatter<W>) -> fmt::Result {
        let version = VersionText(self.0.major, self.0.minor);
        let host = TextJson(self.0.host.as_slice());
        let port = self.0.port;
        write!(
            f,
            "\"version\":\"{version}\",\"host\":{host},\"port\":{port}"
        )
    }
}

/// A profile that isn't read as one of IIOP: `{"tag":TAG,"octets":OCTETS}`.
#[derive(Clone, Copy)]
pub struct ProfileJson<'a>(pub &'a TaggedProfile);

impl fmt::Display for ProfileJson<'_> {
    ghost use Rattle.std.specs.Prelude.{Some};
    ghost use Rattle.giop_lines.specs.ConvertJson.{profile_json};

    ghost output = { λ l. Some (profile_json l.0.now) };

    #[tactic(auto, unfolding(crate::specs::ConvertJson::profile_json))]
    fn fmt<W: fmt::Write>(&self, f: &mut fmt::Formatter<W>) -> fmt::Result {
        let (tag, octets) = (self.0.tag, HexJson(self.0.octets.as_slice()));
        write!(f, "{{\"tag\":{tag},\"octets\":{octets}}}")
    }
}

/// The text of a reference, as the last member behind the list of its profiles: `],"ior":TEXT}`.
#[derive(Clone, Copy)]
pub struct IorJson<'a>(pub &'a [u8]);

impl fmt::Display for IorJson<'_> {
    ghost use Rattle.std.specs.Prelude.{Some};
    ghost use Rattle.giop_lines.specs.ConvertJson.{ior_json};

    ghost output = { λ l. Some (ior_json l.0.now) };

    #[tactic(auto, unfolding(crate::specs::ConvertJson::ior_json))]
    fn fmt<W: fmt::Write>(&self, f: &mut fmt::Formatter<W>) -> fmt::Result {
        write!(f, "],\"ior\":{}}}", TextJson(self.0))
    }
}

/// A corbaloc in full, and the text of its reference: `{"corbaloc":TEXT,"ior":TEXT}`.
#[derive(Clone, Copy)]
pub struct CorbalocJson<'a> {
    /// The text of the corbaloc.
    pub corbaloc: &'a [u8],
    /// The text of the reference.
    pub ior: &'a [u8],
}

impl fmt::Display for CorbalocJson<'_> {
    ghost use Rattle.std.specs.Prelude.{Some};
    ghost use Rattle.giop_lines.specs.ConvertJson.{corbaloc_json};

    ghost output = { λ l. Some (corbaloc_json l.corbaloc.now l.ior.now) };

    #[tactic(auto, unfolding(crate::specs::ConvertJson::corbaloc_json))]
    fn fmt<W: fmt::Write>(&self, f: &mut fmt::Formatter<W>) -> fmt::Result {
        let (corbaloc, ior) = (TextJson(self.corbaloc), TextJson(self.ior));
        write!(f, "{{\"corbaloc\":{corbaloc},\"ior\":{ior}}}")
    }
}
