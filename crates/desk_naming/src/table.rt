//! The table of the node in the schema of a database.

ghost use Rattle.std.specs.Prelude.{◌≡◌, ◌↔◌, IsTrue};
ghost use Rattle.std.specs.Option.{option_copied};
ghost use Rattle.desk_naming.specs.Contents.{schema_of};
ghost use Rattle.desk_naming.specs.Named.{HasNodeTable};
ghost use Rattle.desk_naming.specs.TableInSchema.{HasOwnTree, table_of};
ghost use Rattle.desk_naming.specs.Tables.{node_table};

use crate::check::is_slot_check;
use crate::columns::are_node_columns;
use crate::limits::TREES;
use crate::rules::has_key_alone;
use sqlite::{Alter, Connection};
use sqlite_schema::schema::{Schema, Table};

/// The table that SQL finds by a name.
pub fn find_table<'a>(schema: &'a Schema, name: &[u8]) -> Option<&'a Table>
    ensures { option_copied result ≡ table_of schema.now name.now }
{
    schema.tables.get(schema.table_named(name)?)
}

/// Whether a table is in another tree than one of that name.
fn is_apart(table: &Table, tree: u32, name: &[u8]) -> bool
    ensures { IsTrue result ↔ (table.now.tree ≡ tree → table.now.name ≡ name.now) }
{
    table.tree != tree || table.name.as_slice() == name
}

/// Whether a table has its tree to itself.
pub fn has_own_tree(schema: &Schema, table: &Table) -> bool
    ensures { IsTrue result ↔ HasOwnTree schema.now table.now }
{
    let name = table.name.as_slice();
    table.tree < TREES
        && schema
            .tables
            .as_slice()
            .iter()
            .all(|other| is_apart(other, table.tree, name))
}

/// Whether it is the table of the node, in its tree.
pub fn is_node(table: &Table) -> bool
    ensures { IsTrue result ↔ (table.now ≡ node_table table.now.tree) }
{
    table.name.as_slice() == b"node".as_slice()
        && are_node_columns(table.columns.as_slice())
        && is_slot_check(&table.checks)
        && has_key_alone(table)
}

/// Whether a table is that of the node, in a tree of its own.
fn is_own_node(schema: &Schema, node: &Table) -> bool
    ensures { IsTrue result ↔ ((node.now ≡ node_table node.now.tree) × HasOwnTree schema.now node.now) }
{
    is_node(node) && has_own_tree(schema, node)
}

/// Whether the table of the node stands in the schema.
fn has_node_table(schema: &Schema) -> bool
    ensures { IsTrue result ↔ HasNodeTable schema.now }
{
    let Some(node) = find_table(schema, b"node") else {
        return false;
    };
    is_own_node(schema, node)
}

/// Whether the database has the table of the node as a desk has it, be there the other two or not.
pub(crate) fn has_node<S: Alter>(conn: &Connection<S>) -> bool
    ensures { IsTrue result ↔ HasNodeTable (schema_of S.Store conn.now) }
{
    has_node_table(conn.schema())
}
