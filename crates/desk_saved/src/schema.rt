//! What the schema of a database shows of the three tables.

ghost use Rattle.std.specs.Prelude.{◌≡◌, ◌↔◌, IsTrue, false, codes, find};
ghost use Rattle.std.specs.Option.{option_map};
ghost use Rattle.sqlite.specs.State.{IsLive};
ghost use Rattle.sqlite.specs.Held.{state};
ghost use Rattle.desk_naming.specs.Contents.{schema_of};
ghost use Rattle.desk_saved.specs.File.{bears};
ghost use Rattle.desk_saved.specs.OldFile.{HasOldTables, HasRoomForClients};
ghost use Rattle.desk_naming.specs.TableInSchema.{HasOwnTree};
ghost use Rattle.desk_naming.specs.Tables.{node_table, entry_table, client_table};
ghost use Rattle.desk_saved.specs.SchemaRefusals.{HasTables, IsDeskSchema, IsRefusedBy, refers_to_desk};

mod columns;
mod others;
mod room;

use columns::{are_client_columns, are_entry_columns};
use desk_naming::{find_table, has_key_alone, has_own_tree, is_node};
use desk_types::Refusal;
use others::{names_none, refers_to_desk};
use room::{has_room_for_all, has_room_for_clients};
use sqlite::{Alter, Connection};
use sqlite_schema::names::same_name;
use sqlite_schema::schema::{Schema, Table};

/// Whether the schema has a table of that name.
fn has_table(schema: &Schema, name: &[u8]) -> bool
    ensures { result ≡ bears schema.now name.now }
{
    schema
        .tables
        .as_slice()
        .iter()
        .any(|table| same_name(table.name.as_slice(), name))
}

/// Whether it is the table of the entries, in its tree.
fn is_entry(table: &Table) -> bool
    ensures { IsTrue result ↔ (table.now ≡ entry_table table.now.tree) }
{
    table.name.as_slice() == b"entry".as_slice()
        && are_entry_columns(table.columns.as_slice())
        && table.checks.roots.is_empty()
        && has_key_alone(table)
}

/// Whether it is the table of the clients, in its tree.
fn is_client(table: &Table) -> bool
    ensures { IsTrue result ↔ (table.now ≡ client_table table.now.tree) }
{
    table.name.as_slice() == b"client".as_slice()
        && are_client_columns(table.columns.as_slice())
        && table.checks.roots.is_empty()
        && has_key_alone(table)
}

/// Whether the tables are those of a desk, each in a tree of its own.
fn are_tables(schema: &Schema, node: &Table, entry: &Table, client: &Table) -> bool
    ensures { IsTrue result ↔ ((node.now ≡ node_table node.now.tree) × (entry.now ≡ entry_table entry.now.tree)
        × (client.now ≡ client_table client.now.tree) × HasOwnTree schema.now node.now
        × HasOwnTree schema.now entry.now × HasOwnTree schema.now client.now) }
{
    is_node(node)
        && is_entry(entry)
        && is_client(client)
        && has_own_tree(schema, node)
        && has_own_tree(schema, entry)
        && has_own_tree(schema, client)
}

/// Whether the three tables stand in the schema, be they named by a foreign key or not.
fn has_tables(schema: &Schema) -> bool
    ensures { IsTrue result ↔ HasTables schema.now }
{
    let Some(node) = find_table(schema, b"node") else {
        return false;
    };
    let Some(entry) = find_table(schema, b"entry") else {
        return false;
    };
    let Some(client) = find_table(schema, b"client") else {
        return false;
    };
    are_tables(schema, node, entry, client)
}

/// Whether the tables are those of a desk of version 1, each in a tree of its own, and there is none of the clients.
fn are_old_tables(schema: &Schema, node: &Table, entry: &Table) -> bool
    ensures { IsTrue result ↔ ((node.now ≡ node_table node.now.tree) × (entry.now ≡ entry_table entry.now.tree)
        × HasOwnTree schema.now node.now × HasOwnTree schema.now entry.now
        × (bears schema.now (codes "client") ≡ false)) }
{
    is_node(node)
        && is_entry(entry)
        && has_own_tree(schema, node)
        && has_own_tree(schema, entry)
        && !has_table(schema, b"client")
}

/// Whether the tables of the node and of the entries stand in the schema, and there is none of the clients.
fn has_old_tables(schema: &Schema) -> bool
    ensures { IsTrue result ↔ HasOldTables schema.now }
{
    let Some(node) = find_table(schema, b"node") else {
        return false;
    };
    let Some(entry) = find_table(schema, b"entry") else {
        return false;
    };
    are_old_tables(schema, node, entry)
}

/// Whether the schema has the three tables as a desk has them, and nothing else names them.
fn is_desk_schema(schema: &Schema) -> bool
    ensures { IsTrue result ↔ IsDeskSchema schema.now }
{
    has_tables(schema) && names_none(schema)
}

/// Whether the database has the three tables as a desk has them.
pub(crate) fn is_desk<S: Alter>(conn: &Connection<S>) -> bool
    ensures desk { IsTrue result ↔ IsDeskSchema (schema_of S.Store conn.now) }
    ensures live { IsLive (state S.Store conn.now) }
{
    is_desk_schema(conn.schema())
}

/// Whether the database has the tables of version 1 as a desk had them.
pub(crate) fn is_old_desk<S: Alter>(conn: &Connection<S>) -> bool
    ensures { IsTrue result ↔ HasOldTables (schema_of S.Store conn.now) }
{
    has_old_tables(conn.schema())
}

/// Whether the table of the clients can be added to a database.
pub(crate) fn can_grow<S: Alter>(conn: &Connection<S>) -> bool
    ensures { IsTrue result ↔ HasRoomForClients (schema_of S.Store conn.now) }
{
    has_room_for_clients(conn.schema())
}

/// By what a database is refused that is no desk's. Nothing where the three tables can be added.
pub(crate) fn refusal_of<S: Alter>(conn: &Connection<S>) -> Option<Refusal>
    requires other { ¬ IsDeskSchema (schema_of S.Store conn.now) }
    requires newer { ¬ HasOldTables (schema_of S.Store conn.now) }
    ensures { IsRefusedBy (schema_of S.Store conn.now) result }
{
    let schema = conn.schema();
    if has_tables(schema) {
        return Some(Refusal::StoreFault);
    }
    if has_table(schema, b"node") || has_table(schema, b"entry") || has_table(schema, b"client") {
        return Some(Refusal::WrongFile);
    }
    if !has_room_for_all(schema) {
        return Some(Refusal::StoreFault);
    }
    None
}

/// The name of the first table with a foreign key that names one of the three tables. A database that has one is
/// refused by `StoreFault`, unless one of the three is there and they are not those of a desk.
pub fn referring_table<S: Alter>(connection: &Connection<S>) -> Option<&[u8]>
    ensures { option_map (λ name. name.now) result
        ≡ option_map (λ t. t.name) (find refers_to_desk (schema_of S.Store connection.now).tables) }
{
    let mut tables = connection.schema().tables.as_slice().iter();
    let table = tables.find(|table| refers_to_desk(table))?;
    Some(table.name.as_slice())
}
