//! The making of a table of one row.

ghost use Rattle.std.specs.Prelude.{◌≡◌};

use sqlite::types::ValueRef;
use sqlite::{Alter, Connection, Error, ErrorCode, Transaction};

/// Makes a table by one statement, and its row by another.
fn write_table<S: Alter>(
    tx: &mut Transaction<'_, S>,
    create: &str,
    insert: &str,
    numbers: &[ValueRef<'_>],
) -> Result<(), Error>
    ensures same_reference { tx.new.conn.ghost_name ≡ tx.old.conn.ghost_name }
{
    tx.execute(create, &[])?;
    tx.execute(insert, numbers)?;
    Ok(())
}

/// Makes a table and its row, in one transaction. It is refused where a transaction is open already.
pub(crate) fn make_table<S: Alter>(
    connection: &mut Connection<S>,
    create: &str,
    insert: &str,
    numbers: &[ValueRef<'_>],
) -> Result<(), Error> {
    if !connection.is_autocommit() {
        return Err(Error::SqliteFailure(ErrorCode::TransactionState));
    }
    let mut tx = connection.transaction();
    write_table(&mut tx, create, insert, numbers)?;
    tx.commit()?;
    Ok(())
}
