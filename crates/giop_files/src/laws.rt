//! The law of files of interfaces of which one is refused. The function's contract is the law; its
//! body is empty, and no program calls it.
ghost use Rattle.std.specs.Prelude.{IsErr};
ghost use Rattle.giop_json.specs.DescFromJson.{json_in};
ghost use Rattle.giop_json.specs.InterfaceFromJson.{interface_told};
ghost use Rattle.giop_files.specs.Files.{IsJoined};
ghost use Rattle.giop_files.specs.InterfaceText.{plain_text};
ghost use Rattle.giop_files.specs.declared.files.interfaces.Joined.TheVariants.{Refused};

/// The file that is named where some are refused is no interface.
pub fn refused_files_are_no_interfaces()
    ensures { (file : _) → IsJoined (Refused file)
        → IsErr (interface_told (json_in (plain_text file.now.text))) }
{}
