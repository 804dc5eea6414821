//! Descriptions and interfaces as JSON: written, and read as what was written.
ghost use Rattle.std.specs.Prelude.{◌≡◌, None, Ok, Some, true};
ghost use Rattle.giop_types.specs.Descriptions.Checked.{desc_fault};
ghost use Rattle.giop_json.specs.DescFromJson.{desc_in, described};
ghost use Rattle.giop_json.specs.DescToJson.{desc_data, is_sayable};
ghost use Rattle.giop_json.specs.InterfaceFromJson.{offer_in};
ghost use Rattle.giop_json.specs.InterfaceToJson.{offer_data, offer_sayable};
ghost use Rattle.giop_json.specs.Plain.{is_plain};
ghost use Rattle.laws_in_use.specs.InJson.{adding, adding_told, coin, coin_told};

use giop_json::laws::{json_gives_descriptions_back, json_gives_interfaces_back};

/// A union by an enum, with a member by default: JSON can say it, it is written so, and what is written
/// describes it.
pub fn a_union_in_json()
    ensures sound { desc_fault 1 coin ≡ None }
    ensures plain { is_plain coin ≡ true }
    ensures sayable { is_sayable coin ≡ true }
    ensures written { desc_data coin ≡ coin_told }
    ensures described { described (desc_in 128 coin_told) ≡ Ok coin }
{
    json_gives_descriptions_back();
}

/// An interface of a call and a oneway one, and an exception.
pub fn an_interface_in_json()
    ensures sayable { offer_sayable adding ≡ true }
    ensures written { offer_data adding ≡ adding_told }
    ensures offered { offer_in adding_told ≡ Some adding }
{
    json_gives_interfaces_back();
}
