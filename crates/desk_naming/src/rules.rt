//! The rules of a table beside its CHECKs.

ghost use Rattle.std.specs.Prelude.{◌≡◌, ◌↔◌, IsTrue, [], ◌∷◌, Some, false};
ghost use Rattle.desk_naming.specs.Rules.{HasKeyAlone};

use sqlite_schema::schema::{Stamps, Table};

/// Whether a table has the INTEGER PRIMARY KEY first, with no AUTOINCREMENT.
fn is_keyed(table: &Table) -> bool
    ensures { IsTrue result
        ↔ ((table.now.key ≡ Some 0) × (table.now.primary ≡ 0 ∷ []) × (table.now.is_counted ≡ false)) }
{
    table.key == Some(0) && table.primary.as_slice() == [0].as_slice() && !table.is_counted
}

/// Whether a table has no UNIQUE and no foreign key.
fn is_bare(table: &Table) -> bool
    ensures { IsTrue result ↔ ((table.now.uniques ≡ []) × (table.now.orders ≡ []) × (table.now.references ≡ [])) }
{
    table.uniques.is_empty() && table.orders.is_empty() && table.references.is_empty()
}

/// Whether no default reads the time.
fn are_none(stamps: &Stamps) -> bool
    ensures { IsTrue result ↔ (stamps.now ≡ record { places = []; terms = []; formats = [] }) }
{
    stamps.places.is_empty() && stamps.terms.roots.is_empty() && stamps.formats.is_empty()
}

/// Whether a table has the INTEGER PRIMARY KEY first, and no other rule but CHECKs.
pub fn has_key_alone(table: &Table) -> bool
    ensures { IsTrue result ↔ HasKeyAlone table.now }
{
    is_keyed(table) && is_bare(table) && table.computed.is_empty() && are_none(&table.stamps)
}
