//! The changes of the rows of a desk, as data, and the tables of a desk: each is one statement inside a transaction.

ghost use Rattle.std.specs.Prelude.{◌≡◌, ◌<◌, ◌^◌, pos, [], IsTrue, OnOk, IfOk};
ghost use Rattle.sqlite_value.specs.Value.{owned};
ghost use Rattle.sqlite_value.specs.declared.value.Value.TheVariants.{Int};
ghost use Rattle.sqlite.specs.State.{HasCleanDisk};
ghost use Rattle.sqlite.specs.Held.{state};
ghost use Rattle.sqlite.specs.Values.{bound};
ghost use Rattle.desk_codec.specs.Ranges.{FitsCommand};
ghost use Rattle.desk_codec.specs.Spelling.{body_spelling};
ghost use Rattle.desk_saved.specs.Changes.{change_effect, effects, IsSmall, IsFit, IsApt, Spares, SparesMissing};
ghost use Rattle.desk_saved.specs.Changes.{StandsBefore, made_table};
ghost use Rattle.desk_naming.specs.Contents.{schema_of};
ghost use Rattle.desk_saved.specs.DeskTables.{Keeps, IsInside};
ghost use Rattle.desk_saved.specs.NewTables.{CanTake, MakesTable};
ghost use Rattle.desk_saved.specs.Transactions.{Quiet, Ran, MakesRows};

use desk_codec::put_body;
use desk_types::{Command, Entry};
use sqlite::types::ValueRef;
use sqlite::{Alter, Error, ErrorCode, Transaction};
use std::alloc::Global;

/// A change of the rows of one table.
#[derive(Clone, Copy)]
pub(crate) enum RowChange<'a> {
    /// Takes out the entries past a place.
    CutEntries(u64),
    /// Puts the row of an entry at a place.
    AddEntry(u64, &'a Entry),
    /// Takes out the row of a client.
    CutClient(u64),
    /// Puts the row of a client, with the number and the place of its latest entry.
    AddClient(u64, u64, u64),
    /// Puts the row of a node that has done nothing.
    PutFirst(u64, u64, &'a str),
    /// Sets what the row of the node says of its views and its commit.
    SetNumbers(u64, u64, u64),
    /// Makes the row of the node, in a file of version 1, that of version 2.
    SetVersion,
}

/// A number as a value of SQL.
fn number<'a>(n: u64) -> ValueRef<'a>
    requires small { n < 2 ^ 63 }
    ensures { owned result ≡ Int (pos n) }
{
    ValueRef::Int(n as i64)
}

/// Runs a statement.
fn execute<S: Alter>(
    tx: &mut Transaction<'_, S>,
    sql: &str,
    params: &[ValueRef<'_>],
) -> Result<(), Error>
    ensures same_reference { tx.new.conn.ghost_name ≡ tx.old.conn.ghost_name }
    ensures ran { Ran S.Store tx.old.conn.now tx.new.conn.now sql.now (bound params.now) result }
{
    tx.execute(sql, params)?;
    Ok(())
}

/// The bytes of a command, as the table of entries holds them.
fn body_of(alloc: Global, command: &Command) -> Result<Vec<u8>, Error>
    ensures spelling { IfOk result (λ body. body.items ≡ body_spelling command.now) }
    ensures fits { OnOk result (FitsCommand command.now) }
{
    let mut body = Vec::new(alloc);
    match put_body(command, &mut body) {
        Ok(()) => Ok(body),
        Err(_) => Err(Error::SqliteFailure(ErrorCode::OutOfMemory)),
    }
}

/// Makes a change.
pub(crate) fn run<S: Alter>(
    tx: &mut Transaction<'_, S>,
    alloc: Global,
    change: &RowChange<'_>,
) -> Result<(), Error>
    requires small { IsSmall change.now }
    ensures same_reference { tx.new.conn.ghost_name ≡ tx.old.conn.ghost_name }
    ensures makes { MakesRows S.Store tx.old.conn.now tx.new.conn.now Keeps (IsApt change.now) result
        (change_effect change.now) (Spares change.now) }
    ensures fits { OnOk result (IsFit change.now) }
{
    match change {
        RowChange::CutEntries(front) => execute(
            tx,
            "DELETE FROM entry WHERE place > ?1",
            &[number(*front)],
        ),
        RowChange::AddEntry(place, entry) => {
            let body = body_of(alloc, &entry.command)?;
            execute(
                tx,
                "INSERT INTO entry VALUES (?1, ?2, ?3, ?4)",
                &[
                    number(*place),
                    number(entry.client.get()),
                    number(entry.number.get()),
                    ValueRef::Blob(body.as_slice()),
                ],
            )
        }
        RowChange::CutClient(client) => execute(
            tx,
            "DELETE FROM client WHERE client = ?1",
            &[number(*client)],
        ),
        RowChange::AddClient(client, latest, place) => execute(
            tx,
            "INSERT INTO client VALUES (?1, ?2, ?3)",
            &[number(*client), number(*latest), number(*place)],
        ),
        RowChange::PutFirst(id, n, domain) => execute(
            tx,
            "INSERT INTO node VALUES (1, 2, ?1, ?2, ?3, 0, 0, 0)",
            &[number(*id), number(*n), ValueRef::Text(domain.as_bytes())],
        ),
        RowChange::SetNumbers(view, normal, commit) => execute(
            tx,
            "UPDATE node SET view_no = ?1, normal_no = ?2, commit_no = ?3",
            &[number(*view), number(*normal), number(*commit)],
        ),
        RowChange::SetVersion => execute(tx, "UPDATE node SET version = 2", &[]),
    }
}

/// One of the three tables.
#[derive(Clone, Copy)]
enum DeskTable {
    Node,
    Entries,
    Clients,
}

/// What a file has to be given of the three tables.
#[derive(Clone, Copy)]
pub(crate) enum Missing {
    Nothing,
    /// The table of the clients, which a file of version 1 has not.
    Clients,
    All,
}

/// Makes a table.
fn create<S: Alter>(tx: &mut Transaction<'_, S>, table: DeskTable) -> Result<(), Error>
    ensures same_reference { tx.new.conn.ghost_name ≡ tx.old.conn.ghost_name }
    ensures quiet { Quiet S.Store tx.old.conn.now tx.new.conn.now result }
    ensures made { HasCleanDisk (state S.Store tx.new.conn.now) → IsInside (state S.Store tx.old.conn.now)
        → CanTake (schema_of S.Store tx.old.conn.now) (made_table table)
        → OnOk result (MakesTable (state S.Store tx.old.conn.now) (state S.Store tx.new.conn.now) (made_table table)) }
{
    match table {
        DeskTable::Node => execute(
            tx,
            "CREATE TABLE node (slot INTEGER PRIMARY KEY CHECK (slot = 1),
  version INTEGER NOT NULL, id INTEGER NOT NULL, n INTEGER NOT NULL,
  domain TEXT NOT NULL, view_no INTEGER NOT NULL,
  normal_no INTEGER NOT NULL, commit_no INTEGER NOT NULL)",
            &[],
        ),
        DeskTable::Entries => execute(
            tx,
            "CREATE TABLE entry (place INTEGER PRIMARY KEY, client INTEGER NOT NULL,
  number INTEGER NOT NULL, body BLOB NOT NULL)",
            &[],
        ),
        DeskTable::Clients => execute(
            tx,
            "CREATE TABLE client (client INTEGER PRIMARY KEY, number INTEGER NOT NULL, place INTEGER NOT NULL)",
            &[],
        ),
    }
}

/// Makes the tables that are missing.
pub(crate) fn create_missing<S: Alter>(
    tx: &mut Transaction<'_, S>,
    missing: Missing,
) -> Result<(), Error>
    ensures same_reference { tx.new.conn.ghost_name ≡ tx.old.conn.ghost_name }
    ensures makes { MakesRows S.Store tx.old.conn.now tx.new.conn.now (StandsBefore missing) (λ _. Unit {0}) result
        (effects []) (SparesMissing missing) }
{
    match missing {
        Missing::Nothing => Ok(()),
        Missing::Clients => create(tx, DeskTable::Clients),
        Missing::All => {
            create(tx, DeskTable::Node)?;
            create(tx, DeskTable::Entries)?;
            create(tx, DeskTable::Clients)
        }
    }
}
