//! What the other tables say of the three.

ghost use Rattle.std.specs.Prelude.{◌≡◌, ◌↔◌, IsTrue};
ghost use Rattle.std.specs.List.{AllByRecursion};
ghost use Rattle.desk_saved.specs.ForeignKeys.{IsOtherName, NamesNone, is_desk_name};
ghost use Rattle.desk_saved.specs.SchemaRefusals.{refers_to_desk};

use sqlite_schema::names::same_name;
use sqlite_schema::schema::{Reference, Schema, Table};

/// Whether SQL takes a name for that of one of the three tables.
fn is_desk_name(name: &[u8]) -> bool
    ensures { result ≡ is_desk_name name.now }
{
    same_name(b"node", name) || same_name(b"entry", name) || same_name(b"client", name)
}

/// Whether a foreign key names none of the three tables.
fn is_other_name(reference: &Reference) -> bool
    ensures { IsTrue result ↔ IsOtherName reference.now }
{
    !is_desk_name(reference.parent.as_slice())
}

/// Whether no foreign key of a table names one of the three.
fn refers_elsewhere(table: &Table) -> bool
    ensures { IsTrue result ↔ AllByRecursion IsOtherName table.now.references }
{
    table.references.as_slice().iter().all(is_other_name)
}

/// Whether a foreign key of a table names one of the three.
pub(super) fn refers_to_desk(table: &Table) -> bool
    ensures { result ≡ refers_to_desk table.now }
{
    table
        .references
        .as_slice()
        .iter()
        .any(|reference| is_desk_name(reference.parent.as_slice()))
}

/// Whether no foreign key of any table names one of the three.
pub(super) fn names_none(schema: &Schema) -> bool
    ensures { IsTrue result ↔ NamesNone schema.now }
{
    schema.tables.as_slice().iter().all(refers_elsewhere)
}
