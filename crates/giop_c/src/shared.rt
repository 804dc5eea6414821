//! What a handle of an interface holds: the interface, which ends that were opened by it share.
ghost use Rattle.giop_json.specs.DescFromJson.{json_in};
ghost use Rattle.giop_json.specs.FromJson.{Reads};
ghost use Rattle.giop_c.specs.InterfaceFiles.{interface_said};
ghost use Rattle.giop_c.specs.Interfaces.{shared_view};

use giop_json::{FormFault, interface_from_json};
use giop_names::plain_interface;
use giop_types::Interface;
use std::alloc::Global;
use std::sync::Arc;

/// An interface that several ends use. It is freed when the last of its holders is.
#[derive(Drop)]
pub struct Shared {
    pub interface: Arc<Interface>,
}

impl Shared {
    /// The interface that a JSON text says, in which types may have names. Refused as
    /// `plain_interface` refuses it, or else as `interface_from_json` refuses its plain form.
    pub fn of_json(alloc: Global, text: &[u8]) -> Result<Shared, FormFault>
        ensures { Reads shared_view result (interface_said (json_in text.now)) }
    {
        let plain = plain_interface(alloc, text)?;
        let interface = interface_from_json(alloc, plain.as_bytes())?;
        match Arc::new(alloc, interface) {
            Ok(interface) => Ok(Shared { interface }),
            Err(_) => Err(FormFault::NoMemory),
        }
    }
}
