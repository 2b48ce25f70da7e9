//! An index of the names of units: the slot of each.

ghost use Rattle.std.specs.Prelude.{◌≡◌, ◌<◌, ◌≤◌, ◌+◌, ℕ, List, Some, None, is_some, length, if◌then◌else◌};
ghost use Rattle.std.specs.Map.{lookup};
ghost use Rattle.std.specs.Str.{bytes_eq};
ghost use Rattle.indexmap.specs.IndexMap.{spare};

use desk_types::{HashSeed, UnitName};
use indexmap::IndexMap;

/// The slot of a name.
pub(crate) fn slot_of(names: &IndexMap<UnitName, usize, HashSeed>, name: &UnitName) -> Option<usize>
    ensures { result ≡ lookup (bytes_eq name.now) names.now.entries }
{
    names.get(name).copied()
}

/// Puts the slot of a new name, for which there is room.
pub(crate) fn put_name(names: &mut IndexMap<UnitName, usize, HashSeed>, name: UnitName, slot: usize)
    requires room { 0 < spare names.old }
    requires new { lookup (bytes_eq name) names.old.entries ≡ None }
    ensures put { (q : List ℕ) → lookup (bytes_eq q) names.new.entries
        ≡ (if bytes_eq name q then Some slot else lookup (bytes_eq q) names.old.entries) }
    ensures more { length names.new.entries ≡ length names.old.entries + 1 }
{
    let put = names.insert(name, slot);
    put.unwrap();
}

/// Takes a name out, and gives its slot. It takes no memory.
pub(crate) fn take_name(
    names: &mut IndexMap<UnitName, usize, HashSeed>,
    name: &UnitName,
) -> Option<usize>
    ensures slot { result ≡ lookup (bytes_eq name.now) names.old.entries }
    ensures taken { (q : List ℕ) → lookup (bytes_eq q) names.new.entries
        ≡ (if bytes_eq name.now q then None else lookup (bytes_eq q) names.old.entries) }
    ensures fewer { length names.new.entries + (if is_some result then 1 else 0) ≡ length names.old.entries }
    ensures room { spare names.old ≤ spare names.new }
{
    names.swap_remove(name)
}
