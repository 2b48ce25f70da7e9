//! Whether a database has room for the three tables.

ghost use Rattle.std.specs.Prelude.{◌≡◌, ◌↔◌, ◌+◌, ◌<◌, IsTrue};
ghost use Rattle.std.specs.List.{list_any};
ghost use Rattle.sqlite.specs.Does.{lacks_sequence};
ghost use Rattle.sqlite_catalog.specs.Change.{next_tree};
ghost use Rattle.desk_saved.specs.NewTables.{IsFree, HasRoomForTables};
ghost use Rattle.desk_saved.specs.OldFile.{HasRoomForClients};

use super::others::names_none;
use desk_naming::{TREES, find_table};
use sqlite_catalog::layout::next_tree;
use sqlite_schema::schema::Schema;

/// Whether no table, view or index has the name.
fn is_free(schema: &Schema, name: &[u8]) -> bool
    ensures { IsTrue result ↔ IsFree schema.now name.now }
{
    schema.table_named(name).is_none()
        && schema.view_named(name).is_none()
        && schema.index_named(name).is_none()
}

/// Whether there is an AUTOINCREMENT table.
fn has_counted(schema: &Schema) -> bool
    ensures { result ≡ list_any (λ table. table.is_counted) schema.now.tables }
{
    schema
        .tables
        .as_slice()
        .iter()
        .any(|table| table.is_counted)
}

/// Whether there is an AUTOINCREMENT table, but no `sqlite_sequence`.
fn lacks_sequence(schema: &Schema) -> bool
    ensures { result ≡ lacks_sequence schema.now }
{
    has_counted(schema) && find_table(schema, b"sqlite_sequence").is_none()
}

/// Whether there are numbers for three trees more.
fn has_numbers(schema: &Schema) -> bool
    ensures { IsTrue result ↔ (next_tree schema.now + 2 < TREES) }
{
    next_tree(schema) + 2 < TREES as u64
}

/// Whether there is a number for one tree more.
fn has_number(schema: &Schema) -> bool
    ensures { IsTrue result ↔ (next_tree schema.now < TREES) }
{
    next_tree(schema) < TREES as u64
}

/// Whether the table of the clients can be added.
pub(super) fn has_room_for_clients(schema: &Schema) -> bool
    ensures { IsTrue result ↔ HasRoomForClients schema.now }
{
    is_free(schema, b"client")
        && names_none(schema)
        && !lacks_sequence(schema)
        && has_number(schema)
}

/// Whether the three tables can be added.
pub(super) fn has_room_for_all(schema: &Schema) -> bool
    ensures { IsTrue result ↔ HasRoomForTables schema.now }
{
    is_free(schema, b"node")
        && is_free(schema, b"entry")
        && is_free(schema, b"client")
        && names_none(schema)
        && !lacks_sequence(schema)
        && has_numbers(schema)
}
