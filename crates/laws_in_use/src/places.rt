//! Where files are at fault, in use: a parameter of no type that there is, a union whose
//! discriminant is no description, and a description at which nothing is wrong.
ghost use Rattle.std.specs.Prelude.{◌≡◌, ◌≢◌, List, None, Some, codes, map};
ghost use Rattle.giop_where.specs.Alone.{alone};
ghost use Rattle.giop_where.specs.First.{IsFirst, IsPlace, first_part};
ghost use Rattle.giop_where.specs.Parts.{Portion, Way, index, key, step_view};
ghost use Rattle.giop_where.specs.Steps.{IsStep};
ghost use Rattle.giop_where.specs.declared.place.Place.{Place};
ghost use Rattle.giop_where.specs.declared.role.Role.TheVariants.{Description};
ghost use Rattle.laws_in_use.specs.Places.{bound, bounded, cases, discriminant, file, name, no_type, parameter, path, union};

use giop_where::laws::{first_faults_are_found, places_are_unique};

/// Of a parameter of no type that there is the description is at fault, as a form that is wrong: it
/// is the second item, and the name before it isn't at fault so.
pub fn a_parameter_of_no_type()
    ensures first { first_part 2 parameter ≡ Some (index 1, no_type) }
    ensures step { IsStep parameter (index 1) no_type }
    ensures fault { alone no_type ≡ 2 }
    ensures named { IsStep parameter (index 0) name }
    ensures name { alone name ≢ 2 }
{
    first_faults_are_found();
}

/// A union's discriminant is told before its cases, which are at fault too and whose key comes
/// first. Of a string with its bound no part is at fault.
pub fn a_discriminant_before_its_cases()
    ensures cases { IsStep union (key (codes "cases")) cases }
    ensures fault { alone cases ≡ 2 }
    ensures first { first_part 2 union ≡ Some (key (codes "union"), discriminant) }
    ensures none { first_part 2 bounded ≡ None }
    ensures bound { IsStep bounded (key (codes "string")) bound }
    ensures sound { alone bound ≢ 2 }
{
    first_faults_are_found();
}

/// In the file of an interface the path to that parameter's description is the only one, and each
/// place that is told of it has this path. The file is at fault so as a whole, and there too.
pub fn one_place_of_a_fault()
    ensures leads { IsFirst 2 file path no_type }
    ensures only { (other : List Way) (q : Portion) → IsFirst 2 file other q
        → (other ≡ path) × (q ≡ no_type) }
    ensures place { (place : Place) → map step_view place.path.items ≡ path
        → place.role ≡ Description → IsPlace 2 file place }
    ensures told { (place other : Place) → map step_view place.path.items ≡ path
        → place.role ≡ Description → IsPlace 2 file other
        → (map step_view other.path.items ≡ path) × (other.role ≡ Description) }
    ensures whole { alone file ≡ 2 }
    ensures at_fault { alone no_type ≡ 2 }
{
    places_are_unique();
}
