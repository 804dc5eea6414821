//! Lists of an enum's names. Where names and values are many, the names are put in order once, and
//! each value is found there.
ghost use Rattle.std.specs.Prelude.{◌≡◌, ◌&&◌, nat_lt, map, length, IfOk, IfErr, List, ℕ, option_map, unwrap_or};
ghost use Rattle.giop_json.specs.declared.form_fault.FormFault.TheVariants.{NoMemory};
ghost use Rattle.giop_json.specs.FromJson.{Shows, ordinal_shown, ordinal_tree, items_shown};
ghost use Rattle.giop_json.specs.Ordinals.{ordinal_from, HasOrdinals};
ghost use Rattle.giop_types.specs.Values.Views.{value_view};
ghost use Rattle.serde_json.specs.View.{view, items_view};

use crate::form_fault::FormFault;
use crate::read_leaves::{ordinal_of, ordinal_value};
use crate::texts::octets_in;
use giop_cdr::OctetList;
use giop_types::Value;
use serde_json::Value as Json;
use std::alloc::Global;
use std::collections::BTreeMap;
use std::marker::Model;

/// The names of an enum, in an order by which an ordinal is found in a logarithm of their number.
#[derive(Drop)]
pub struct Ordinals<'a> {
    names: &'a [OctetList],
    // The first ordinal of each name.
    ordered: BTreeMap<&'a [u8], usize>,
}

/// Contracts see the names.
impl<'a> Model for Ordinals<'a> {
    ghost Value = { List (List ℕ) };

    ghost view = { λ o. o.names.now };

    ghost invariant = { λ o. HasOrdinals 0 o.ordered o.names.now };
}

impl<'a> Ordinals<'a> {
    /// Puts the names in order, with memory for each.
    pub fn new(alloc: Global, names: &'a [OctetList]) -> Result<Ordinals<'a>, FormFault>
        ensures ok { IfOk result (λ ordinals. ordinals ≡ names.now) }
        ensures err { IfErr result (λ e. e ≡ NoMemory) }
    {
        let ordered = in_order(alloc, names)?;
        Ok(Ordinals { names, ordered })
    }

    /// The ordinal of a name, or the number of names where the text is none of them. A text with a
    /// character above U+00FF is BadShape.
    pub fn ordinal_of(&self, alloc: Global, json: &Json) -> Result<usize, FormFault>
        ensures { Shows (λ ordinal. ordinal) result (ordinal_shown self.now (view json.now)) }
    {
        let Some(text) = json.as_str() else {
            return Err(FormFault::BadShape);
        };
        match octets_in(alloc, text)? {
            Some(octets) => Ok(self.ordinal_at(octets.as_slice())),
            // No name has such a character: this is refused, and the list with it.
            None => ordinal_of(alloc, self.names, json),
        }
    }

    // The ordinal of the first name that is these octets, or the number of names where none is.
    fn ordinal_at(&self, octets: &[u8]) -> usize
        ensures { result ≡ unwrap_or (ordinal_from 0 octets.now self.now) (length self.now) }
    {
        match self.ordered.get(octets) {
            Some(ordinal) => *ordinal,
            None => self.names.len(),
        }
    }
}

// The first ordinal of each name, by the names in their order.
fn in_order<'a>(
    alloc: Global,
    names: &'a [OctetList],
) -> Result<BTreeMap<&'a [u8], usize>, FormFault>
    ensures ok { IfOk result (λ ordered. HasOrdinals 0 ordered names.now) }
    ensures err { IfErr result (λ e. e ≡ NoMemory) }
{
    let mut ordered = BTreeMap::new(alloc);
    let mut ordinal = names.len();
    while ordinal > 0 {
        ordinal -= 1;
        // A name that stands twice has the ordinal that is put in last.
        ordered.insert(names[ordinal].as_slice(), ordinal)?;
    }
    Ok(ordered)
}

/// Whether names and values are so many that putting the names in order saves time.
pub fn are_many(names: &[OctetList], list: &[Json]) -> bool
    ensures { result ≡ (nat_lt 32 (length names.now) && nat_lt 32 (length list.now)) }
{
    names.len() > 32 && list.len() > 32
}

/// The values of a list of names, one after the other.
pub fn named_values(
    alloc: Global,
    names: &[OctetList],
    list: &[Json],
) -> Result<Vec<Value>, FormFault>
    ensures { Shows (λ values. map value_view values.items) result (items_shown
        (λ d. option_map ordinal_tree (ordinal_shown names.now d)) (items_view list.now)) }
{
    let ordinals = Ordinals::new(alloc, names)?;
    let mut values = Vec::with_capacity(alloc, list.len())?;
    for json in list {
        let ordinal = ordinals.ordinal_of(alloc, json)?;
        values.push(ordinal_value(ordinal))?;
    }
    Ok(values)
}
