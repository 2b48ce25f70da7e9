//! The columns of the table of the node.

ghost use Rattle.std.specs.Prelude.{◌≡◌, ◌↔◌, IsTrue, codes};
ghost use Rattle.sqlite_schema.specs.declared.schema.Kind.TheVariants as kinds;
ghost use Rattle.desk_naming.specs.Tables.{column_of, node_table};

use sqlite_schema::schema::{Column, Kind};
use sqlite_value::keys::Collation;
use sqlite_value::value::Value;

/// Whether it is the column of the name and the kind with no default, in the order of bytes.
pub fn is_column(column: &Column, name: &[u8], kind: Kind, not_null: bool) -> bool
    ensures { IsTrue result ↔ (column.now ≡ record (column_of name.now kind) { not_null = not_null }) }
{
    column.name.as_slice() == name
        && column.kind == kind
        && !column.is_strict
        && column.not_null == not_null
        && matches!(column.default, Value::Null)
        && column.collation == Collation::Binary
}

/// Whether they are the columns that say whose state it is.
fn are_owner_columns(id: &Column, n: &Column, domain: &Column) -> bool
    ensures { IsTrue result ↔ ((id.now ≡ column_of (codes "id") kinds.Integer)
        × (n.now ≡ column_of (codes "n") kinds.Integer)
        × (domain.now ≡ column_of (codes "domain") kinds.Text)) }
{
    is_column(id, b"id", Kind::Integer, true)
        && is_column(n, b"n", Kind::Integer, true)
        && is_column(domain, b"domain", Kind::Text, true)
}

/// Whether they are the columns of the numbers of a saved state.
fn are_number_columns(view: &Column, normal: &Column, commit: &Column) -> bool
    ensures { IsTrue result ↔ ((view.now ≡ column_of (codes "view_no") kinds.Integer)
        × (normal.now ≡ column_of (codes "normal_no") kinds.Integer)
        × (commit.now ≡ column_of (codes "commit_no") kinds.Integer)) }
{
    is_column(view, b"view_no", Kind::Integer, true)
        && is_column(normal, b"normal_no", Kind::Integer, true)
        && is_column(commit, b"commit_no", Kind::Integer, true)
}

/// Whether they are the columns of the table of the node.
pub(crate) fn are_node_columns(columns: &[Column]) -> bool
    ensures { IsTrue result ↔ (columns.now ≡ (node_table 0).columns) }
{
    let [slot, version, id, n, domain, view, normal, commit] = columns else {
        return false;
    };
    if !is_column(slot, b"slot", Kind::Integer, false) {
        return false;
    }
    if !is_column(version, b"version", Kind::Integer, true) {
        return false;
    }
    if !are_owner_columns(id, n, domain) {
        return false;
    }
    are_number_columns(view, normal, commit)
}
