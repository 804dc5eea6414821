//! The room for what names stand for.
ghost use Rattle.std.specs.Prelude.{◌≡◌, Ok, OnOk};
ghost use Rattle.giop_names.specs.Plain.{Refuses, spent};

use crate::scope::Scope;
use giop_json::FormFault;

/// Takes one, and as much as a text has octets, of the room: where a name stands for what this is a
/// part of. Refused as Unfit where the room is less.
pub fn spend(scope: Scope, text: &str, room: &mut usize) -> Result<(), FormFault>
    ensures ok { OnOk result (spent scope text.now room.old ≡ Ok room.new) }
    ensures err { Refuses result (spent scope text.now room.old) }
{
    match scope {
        Scope::Named => {
            let length = text.len();
            if length >= *room {
                return Err(FormFault::Unfit);
            }
            *room = *room - length - 1;
            Ok(())
        }
        _ => Ok(()),
    }
}
