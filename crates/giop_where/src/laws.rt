//! Laws of where a file is at fault. Each function's contract is a law; the bodies are empty, and no
//! program calls them.
ghost use Rattle.std.specs.Prelude.{◌≡◌, ◌≢◌, ◌<◌, ℕ, List, Some, None, codes, map};
ghost use Rattle.serde_json.specs.Data.{Data};
ghost use Rattle.giop_where.specs.Alone.{alone};
ghost use Rattle.giop_where.specs.First.{IsFirst, IsPlace, disc_of, first_part};
ghost use Rattle.giop_where.specs.Parts.{Portion, Way, index, key, part_under, step_view};
ghost use Rattle.giop_where.specs.Steps.{IsStep};
ghost use Rattle.giop_where.specs.declared.place.Place.{Place};

/// The first of a part's own parts that is at fault, with this number when it stands alone. It is
/// one of them, behind the step that leads there; no item before it is at fault so; and a
/// discriminant that is at fault so is the first of its union. Where there is none, none of them is
/// at fault so.
pub fn first_faults_are_found()
    ensures found { (number : ℕ) (p q : Portion) (step : Way) → first_part number p ≡ Some (step, q)
        → IsStep p step q × (alone q ≡ number) }
    ensures none { (number : ℕ) (p q : Portion) (step : Way) → first_part number p ≡ None
        → IsStep p step q → alone q ≢ number }
    ensures earlier { (number i j : ℕ) (p q r : Portion) → first_part number p ≡ Some (index i, q)
        → j < i → IsStep p (index j) r → alone r ≢ number }
    ensures discriminant { (number : ℕ) (p : Portion) (d : Data) → disc_of p ≡ Some d
        → alone (part_under p (codes "union") d) ≡ number
        → first_part number p ≡ Some (key (codes "union"), part_under p (codes "union") d) }
{}

/// A file has one place of a fault at most: one path leads to it, and it tells what stands there.
/// Where the whole file is at fault with a number, the part at that place is so too when it stands
/// alone.
pub fn places_are_unique()
    ensures path { (number : ℕ) (p q r : Portion) (one other : List Way) → IsFirst number p one q
        → IsFirst number p other r → (one ≡ other) × (q ≡ r) }
    ensures place { (number : ℕ) (p : Portion) (one other : Place) → IsPlace number p one
        → IsPlace number p other
        → (map step_view one.path.items ≡ map step_view other.path.items)
        × (one.role ≡ other.role) }
    ensures at_fault { (number : ℕ) (p q : Portion) (path : List Way) → IsFirst number p path q
        → alone p ≡ number → alone q ≡ number }
{}
