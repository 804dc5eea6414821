//! Files of interfaces without names of types, in use: they are their own plain form, and so are
//! their parts.
ghost use Rattle.std.specs.Prelude.{◌≡◌, ◌<◌, ℕ, true, false, Some, Ok};
ghost use Rattle.serde_json.specs.Data.{Data, depth};
ghost use Rattle.giop_where.specs.Shallow.{shallow};
ghost use Rattle.giop_names.specs.Beside.{is_lawful};
ghost use Rattle.giop_names.specs.Interface.{plain_told};
ghost use Rattle.giop_names.specs.Old.{is_old};
ghost use Rattle.giop_names.specs.Plain.{plain_at};
ghost use Rattle.giop_names.specs.declared.scope.Scope.TheVariants.{Elsewhere, Interface};
ghost use Rattle.laws_in_use.specs.InJson.{adding_told, coin_told};
ghost use Rattle.laws_in_use.specs.Named.{coin_named, tossing_told};

use giop_names::laws::old_files_stay;

/// The file of an interface of two operations has no name in it, and is its own plain form. One
/// that names a type isn't as such files are.
pub fn a_file_without_names()
    ensures lawful { is_lawful adding_told ≡ true }
    ensures old { is_old Interface adding_told ≡ true }
    ensures shallow { shallow 127 adding_told ≡ true }
    ensures stays { plain_told (Some adding_told) ≡ Ok adding_told }
    ensures other { is_old Interface tossing_told ≡ false }
{
    old_files_stay();
}

/// The description of a union has no name in it: it stays, without any room for what names stand
/// for, whatever the types of the file are. The name `Coin` isn't as such parts are.
pub fn a_description_without_names()
    ensures old { is_old Elsewhere coin_told ≡ true }
    ensures nested { depth coin_told < 6 }
    ensures stays { (types : Data) (room : ℕ) → plain_at 6 types Elsewhere coin_told room
        ≡ Ok (coin_told, room) }
    ensures other { is_old Elsewhere coin_named ≡ false }
{
    old_files_stay();
}
