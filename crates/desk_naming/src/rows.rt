//! The rows of the table of the node, and what their columns hold.

ghost use Rattle.std.specs.Prelude.{◌≡◌, ◌<◌, map, length, IfOk, IfErr, MatchOption};
ghost use Rattle.std.specs.List.Sorted.{IsPermutation};
ghost use Rattle.sqlite_value.specs.Order.{column};
ghost use Rattle.sqlite.specs.State.{HasCleanDisk, Survives};
ghost use Rattle.sqlite.specs.Held.{state};
ghost use Rattle.desk_types.specs.declared.refusal.Refusal.TheVariants as refusals;
ghost use Rattle.desk_naming.specs.Contents.{schema_of, trees_of};
ghost use Rattle.desk_naming.specs.Named.{NodeTable, HasNodeTable, shown_node};
ghost use Rattle.desk_naming.specs.Reads.{HasRead};

use desk_types::{Refusal, WantOfMemory};
use sqlite::types::FromSql;
use sqlite::{Alter, Connection, Error, ErrorCode, Row};

/// What a column of a row holds, where it is there and of the type.
pub fn read<T: FromSql>(row: &Row, at: usize) -> Result<Option<T>, WantOfMemory>
    ensures { IfOk result (λ found. MatchOption found
        (at < length row.now → ¬ T.FromSql.is_readable (column row.now at))
        (λ x. T.FromSql.reads_as (column row.now at) x)) }
{
    match row.get(at) {
        Ok(x) => Ok(Some(x)),
        Err(Error::SqliteFailure(ErrorCode::OutOfMemory)) => Err(WantOfMemory),
        Err(_) => Ok(None),
    }
}

/// The rows of the node's table, in any order.
pub fn node_rows<S: Alter>(conn: &mut Connection<S>) -> Result<Vec<Row>, Refusal>
    ensures shown { HasCleanDisk (state S.Store conn.new) → (d : NodeTable)
        → schema_of S.Store conn.old ≡ d.schema
        → IfOk result (λ rows. IsPermutation rows.items (map shown_node (trees_of S.Store conn.old d.node.tree))) }
    ensures crash { (d : NodeTable) → schema_of S.Store conn.old ≡ d.schema
        → Survives (state S.Store conn.old) (state S.Store conn.new) (λ _. ⊥) }
    ensures refused { IfErr result (λ r. r ≡ refusals.StoreFault) }
    ensures read { HasRead S.Store conn.old conn.new HasNodeTable result }
{
    match conn.query_all(
        "SELECT slot, version, id, n, domain, view_no, normal_no, commit_no FROM node",
        &[],
    ) {
        Ok(rows) => Ok(rows),
        Err(_) => Err(Refusal::StoreFault),
    }
}
