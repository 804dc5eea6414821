//! The text of an interface's file: as it was given, and in the plain form, in which no type has a
//! name. `interface_from_json` reads the latter.
ghost use Rattle.std.specs.Prelude.{◌≡◌, IfOk};
ghost use Rattle.giop_files.specs.InterfaceText.{given_text, plain_text};

use giop_json::FormFault;
use giop_names::plain_interface;
use giop_show::failure::Failure;
use std::alloc::Global;

/// The text of a file that is to be an interface.
#[derive(Drop)]
pub struct InterfaceText {
    given: Vec<u8>,
    plain: Option<String>,
}

impl InterfaceText {
    /// The text that a file has.
    pub(crate) fn new(alloc: Global, given: Vec<u8>) -> Result<InterfaceText, Failure>
        ensures { IfOk result (λ text. given_text text ≡ given.items) }
    {
        let plain = match plain_interface(alloc, given.as_slice()) {
            Ok(plain) => Some(plain),
            Err(FormFault::NoMemory) => return Err(Failure::Memory),
            Err(_) => None,
        };
        Ok(InterfaceText { given, plain })
    }

    /// The text in the plain form; as it was given where it has none, and is refused by that.
    pub fn as_slice(&self) -> &[u8]
        ensures { result.now ≡ plain_text self.now }
    {
        match &self.plain {
            Some(plain) => plain.as_bytes(),
            None => self.given.as_slice(),
        }
    }

    /// The text as it was given.
    pub fn given(&self) -> &[u8]
        ensures { result.now ≡ given_text self.now }
    {
        self.given.as_slice()
    }

    /// Whether it has a plain form.
    pub(crate) fn is_plain(&self) -> bool {
        self.plain.is_some()
    }
}
