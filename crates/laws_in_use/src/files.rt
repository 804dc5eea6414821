//! A file of an interface that is named as refused, in use: one whose text is no interface, and not
//! one whose text is.
ghost use Rattle.std.specs.Prelude.{◌≡◌, ◌≢◌, Some};
ghost use Rattle.giop_json.specs.DescFromJson.{json_in};
ghost use Rattle.giop_files.specs.Files.{IsJoined};
ghost use Rattle.giop_files.specs.InterfaceText.{plain_text};
ghost use Rattle.giop_files.specs.declared.files.interfaces.Joined.TheVariants.{Refused, Whole};
ghost use Rattle.laws_in_use.specs.Checked.{not_utf8};
ghost use Rattle.laws_in_use.specs.InJson.{adding_told};

use giop_files::laws::refused_files_are_no_interfaces;
use giop_json::laws::json_gives_interfaces_back;

/// A text that isn't UTF-8 is that of a refused file. A file whose text is an interface of two
/// operations isn't the one that is refused.
pub fn a_file_is_refused_or_an_interface()
    ensures refused { (file : _) → plain_text file.now.text ≡ not_utf8 → IsJoined (Refused file) }
    ensures other { (joined file : _) → IsJoined joined
        → json_in (plain_text file.now.text) ≡ Some adding_told → joined ≢ Refused file }
    ensures whole { (interface : _) → IsJoined (Whole interface) }
{
    refused_files_are_no_interfaces();
    json_gives_interfaces_back();
}
