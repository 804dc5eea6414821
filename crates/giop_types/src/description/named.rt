//! Items that have a name, and whether two of them have the same.
ghost use Rattle.std.specs.Prelude.{◌≡◌, ◌≢◌, ◌↔◌, List, ℕ, map, false, IfSome};
ghost use Rattle.std.specs.List.{list_any, AllPairs};
ghost use Rattle.giop_types.specs.Descriptions.Checked.{has_doubled, same_name};

use giop_cdr::OctetList;
use std::alloc::Global;
use std::collections::BTreeSet;

/// An item that has a name.
pub trait Named {
    // The octets of the name.
    ghost name_of: { Self → List ℕ };

    /// The name.
    fn name(&self) -> &OctetList
        ensures { result.now ≡ name_of self.now };
}

impl Named for OctetList {
    ghost name_of = { λ name. name };

    fn name(&self) -> &OctetList {
        self
    }
}

/// Whether two of the items have the same name. It takes memory for the names, and then as much
/// time as there are octets in them, but for a logarithm. Where memory is refused it returns the
/// same, but its time grows with the square of the number of items.
pub fn is_any_doubled<T: Named>(alloc: Global, items: &[T]) -> bool
    ensures { result ≡ has_doubled same_name (map T.name_of items.now) }
{
    match has_doubled_in_order(alloc, items) {
        Some(doubled) => doubled,
        None => has_doubled_in_pairs(items),
    }
}

// The same, by the names so far in their order. None where memory is refused.
fn has_doubled_in_order<T: Named>(alloc: Global, items: &[T]) -> Option<bool>
    ensures { IfSome result (λ doubled. doubled ≡ has_doubled same_name (map T.name_of items.now)) }
{
    let mut seen = BTreeSet::new(alloc);
    for item in items {
        match seen.insert(item.name().as_slice()) {
            Ok(true) => {}
            Ok(false) => return Some(true),
            Err(_) => return None,
        }
    }
    Some(false)
}

// The same, by all pairs. It takes no memory.
fn has_doubled_in_pairs<T: Named>(items: &[T]) -> bool
    ensures { result ≡ has_doubled same_name (map T.name_of items.now) }
{
    for (i, item) in items.iter().enumerate() {
        if has_name(&items[i + 1..], item.name()) {
            return true;
        }
    }
    false
}

/// Whether an item has this name. It takes no memory.
pub fn has_name<T: Named>(items: &[T], name: &OctetList) -> bool
    ensures { result ≡ list_any (λ other. same_name other name.now) (map T.name_of items.now) }
{
    for item in items {
        if *item.name() == *name {
            return true;
        }
    }
    false
}
