//! What `check` tells of a file, in use: one text and one status; and the fault of a text that is no
//! interface.
ghost use Rattle.std.specs.Prelude.{◌≡◌, [], false, Err, Some};
ghost use Rattle.giop_json.specs.DescFromJson.{json_in};
ghost use Rattle.giop_json.specs.InterfaceFromJson.{interface_told, interface_view};
ghost use Rattle.giop_json.specs.declared.form_fault.FormFault.TheVariants.{BadJson};
ghost use Rattle.giop_types.specs.declared.interfaces.interface.Interface.{Interface};
ghost use Rattle.giop_show.specs.declared.status.Status.TheVariants.{Done, Refused};
ghost use Rattle.giop_commands.specs.Check.{ChecksKnown, ChecksText, IsChecked, default_limits};
ghost use Rattle.laws_in_use.specs.Checked.{as_text, no_json, not_utf8, nothing_left};
ghost use Rattle.laws_in_use.specs.InJson.{adding, adding_told};

use giop_calls::ServerRule;
use giop_commands::laws::texts_are_interfaces_or_refused;
use giop_json::laws::json_gives_interfaces_back;
use giop_session::laws::any_reads_leave_the_same;

/// Two checks of the same octets write one text and end with one status. Of a file without octets
/// that is one line, and done.
pub fn a_file_is_told_in_one_way(rule: &ServerRule)
    ensures same { (interface limits strict form octets one other status status' : _)
        → IsChecked interface limits strict form octets (Some []) (Some one) status
        → IsChecked interface limits strict form octets (Some []) (Some other) status'
        → (one ≡ other) × (status ≡ status') }
    ensures there { (interface : Interface) → IsChecked interface default_limits false as_text []
        (Some []) (Some nothing_left) Done }
    ensures only { (interface : Interface) (new status : _)
        → IsChecked interface default_limits false as_text [] (Some []) (Some new) status
        → (new ≡ nothing_left) × (status ≡ Done) }
{
    any_reads_leave_the_same(rule);
}

/// A text that isn't UTF-8 is no interface: whatever the file holds, its fault alone is told. The
/// text of an interface of two operations is one, and the check is by these.
pub fn a_text_is_an_interface_or_none()
    ensures none { interface_told (json_in not_utf8) ≡ Err BadJson }
    ensures told { (octets : _) → ChecksText not_utf8 default_limits false as_text octets (Some [])
        (Some no_json) Refused }
    ensures only { (octets new status : _)
        → ChecksText not_utf8 default_limits false as_text octets (Some []) (Some new) status
        → (status ≡ Refused) × (new ≡ no_json) }
    ensures by { (text octets new status : _) → json_in text ≡ Some adding_told
        → ChecksText text default_limits false as_text octets (Some []) (Some new) status
        → (interface : _) × (interface_view interface ≡ adding)
        × (interface.objects.entries ≡ [])
        × ChecksKnown interface default_limits false as_text octets (Some []) (Some new) status }
{
    texts_are_interfaces_or_refused();
    json_gives_interfaces_back();
}
