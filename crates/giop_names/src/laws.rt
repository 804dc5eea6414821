//! A law of the definitions that contracts cite. Its body is empty, and no program calls it.
ghost use Rattle.std.specs.Prelude.{◌≡◌, ◌<◌, ℕ, true, false, Some, Ok};
ghost use Rattle.serde_json.specs.Data.{Data, depth};
ghost use Rattle.giop_where.specs.Shallow.{shallow};
ghost use Rattle.giop_names.specs.Beside.{is_lawful};
ghost use Rattle.giop_names.specs.Interface.{plain_told};
ghost use Rattle.giop_names.specs.Old.{is_named, is_old};
ghost use Rattle.giop_names.specs.Plain.{plain_at};
ghost use Rattle.giop_names.specs.declared.scope.Scope.{Scope};
ghost use Rattle.giop_names.specs.declared.scope.Scope.TheVariants.{Interface};

/// A part without names, of which nothing is left out, stays as it is and takes no room; so a file
/// as it was before types had names is its own plain form, however large it is.
pub fn old_files_stay()
    ensures part { (levels : ℕ) (types : Data) (room : ℕ) (scope : Scope) (part : Data)
        → is_named scope ≡ false → is_old scope part ≡ true → depth part < levels
        → plain_at levels types scope part room ≡ Ok (part, room) }
    ensures file { (file : Data) → is_lawful file ≡ true → is_old Interface file ≡ true
        → shallow 127 file ≡ true → plain_told (Some file) ≡ Ok file }
{}
