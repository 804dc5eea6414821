// Laws of values as JSON. The bodies are empty, and no program calls these.
ghost use Rattle.std.specs.Prelude.{◌≡◌, true, None, Ok};
ghost use Rattle.giop_types.specs.Checked.{desc_fault};
ghost use Rattle.giop_types.specs.Plain.{is_plain};
ghost use Rattle.giop_types.specs.Fits.{fits};
ghost use Rattle.giop_types.specs.FromJson.{from_data};
ghost use Rattle.giop_types.specs.Shape.{Shape};
ghost use Rattle.giop_types.specs.ToJson.{to_data};
ghost use Rattle.giop_types.specs.Tree.{Tree};

/// The JSON value that a fitting value is written as is read as that value: of every description
/// without a fault, of which each union has one member by default at most and no struct is an IOR
/// (a reference's text is read back too, which tests show).
pub fn json_gives_values_back()
    ensures { (shape : Shape) → desc_fault 1 shape ≡ None → is_plain shape ≡ true
        → (tree : Tree) → fits shape tree ≡ true → from_data shape (to_data shape tree) ≡ Ok tree }
{}
