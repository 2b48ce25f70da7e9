//! Reading the three tables.

ghost use Rattle.std.specs.Prelude.{◌≡◌, ◌≤◌, ◌↔◌, length, IsTrue, IfOk, MatchOption};
ghost use Rattle.sqlite.specs.State.{HasCleanDisk, Survives};
ghost use Rattle.sqlite.specs.Held.{state};
ghost use Rattle.desk_naming.specs.Contents.{schema_of, trees_of};
ghost use Rattle.desk_saved.specs.DeskTables.{Layout, LogTables, HasLogTables};
ghost use Rattle.desk_saved.specs.File.{HasLog, HasNoLog, HasOwn, HasNoOwn, IsState, HasNoState, HasFile};
ghost use Rattle.desk_codec.specs.Ranges.{FitsEntries};
ghost use Rattle.desk_saved.specs.File.{HasClients, HasLogFile, HasNoLogFile};
ghost use Rattle.desk_naming.specs.Reads.{HasRead};
ghost use Rattle.desk_saved.specs.SchemaRefusals.{IsDeskSchema};

use crate::last_saved::LastSaved;
use crate::rows::{are_clients_of, log_in, own_among};
use crate::transactions::Numbers;
use desk_log::Log;
use desk_naming::node_rows;
use desk_types::limits::{LAST_VIEW, LOG_ENTRIES};
use desk_types::{Entry, Owner, Refusal};
use sqlite::{Alter, Connection};
use std::alloc::Global;

/// The version of a file, as the row of the node tells it.
pub(crate) const FILE_VERSION: u64 = 2;

/// The entries in their table, where its rows are those of a log.
fn load_log<S: Alter>(
    conn: &mut Connection<S>,
    alloc: Global,
) -> Result<Option<Vec<Entry>>, Refusal>
    ensures found { HasCleanDisk (state S.Store conn.new) → (d : LogTables)
        → schema_of S.Store conn.old ≡ d.schema
        → IfOk result (λ found. MatchOption found (HasNoLog d (trees_of S.Store conn.old))
        (λ log. FitsEntries log.items × HasLog d (trees_of S.Store conn.old) log.items)) }
    ensures crash { (d : LogTables) → schema_of S.Store conn.old ≡ d.schema
        → Survives (state S.Store conn.old) (state S.Store conn.new) (λ _. ⊥) }
    ensures read { HasRead S.Store conn.old conn.new HasLogTables result }
{
    let rows = match conn.query_all(
        "SELECT place, client, number, body FROM entry ORDER BY place",
        &[],
    ) {
        Ok(rows) => rows,
        Err(_) => return Err(Refusal::StoreFault),
    };
    let found = log_in(alloc, rows.as_slice())?;
    Ok(found)
}

/// The numbers in the node's table, where it has the node's own row alone.
fn load_own<S: Alter>(
    conn: &mut Connection<S>,
    version: u64,
    id: u64,
    n: u64,
    domain: &str,
) -> Result<Option<Numbers>, Refusal>
    ensures found { HasCleanDisk (state S.Store conn.new) → (d : LogTables)
        → schema_of S.Store conn.old ≡ d.schema
        → IfOk result (λ found. MatchOption found (HasNoOwn d (trees_of S.Store conn.old) version id n domain.now)
        (λ s. HasOwn d (trees_of S.Store conn.old) version id n domain.now s.view s.normal s.commit)) }
    ensures crash { (d : LogTables) → schema_of S.Store conn.old ≡ d.schema
        → Survives (state S.Store conn.old) (state S.Store conn.new) (λ _. ⊥) }
    ensures read { HasRead S.Store conn.old conn.new HasLogTables result }
{
    let rows = node_rows(conn)?;
    let found = own_among(rows.as_slice(), version, id, n, domain)?;
    Ok(found)
}

/// Whether the numbers and a log of so many entries are those of a saved state.
fn fit_together(numbers: Numbers, entries: &[Entry]) -> bool
    ensures { IsTrue result ↔ ((numbers.normal ≤ numbers.view) × (numbers.view ≤ LAST_VIEW)
        × (numbers.commit ≤ length entries.now) × (length entries.now ≤ LOG_ENTRIES)) }
{
    let count = entries.len() as u64;
    numbers.normal <= numbers.view
        && numbers.view <= LAST_VIEW
        && numbers.commit <= count
        && count <= LOG_ENTRIES
}

/// The saved state in the tables of the node and of the entries, where they hold one of the node.
pub(crate) fn load_saved<S: Alter>(
    conn: &mut Connection<S>,
    alloc: Global,
    version: u64,
    owner: &Owner,
) -> Result<Option<LastSaved>, Refusal>
    ensures found { HasCleanDisk (state S.Store conn.new) → (d : LogTables)
        → schema_of S.Store conn.old ≡ d.schema
        → IfOk result (λ found. MatchOption found (HasNoLogFile d version owner.now (trees_of S.Store conn.old))
        (λ s. IsState s × HasLogFile d version owner.now s (trees_of S.Store conn.old))) }
    ensures read { HasRead S.Store conn.old conn.new HasLogTables result }
{
    let id = owner.id as u64;
    let n = owner.n as u64;
    let Some(numbers) = load_own(conn, version, id, n, owner.domain.as_text())? else {
        return Ok(None);
    };
    let Some(entries) = load_log(conn, alloc)? else {
        return Ok(None);
    };
    let fits = fit_together(numbers, entries.as_slice());
    if !fits {
        return Ok(None);
    }
    let saved = LastSaved::of(alloc, numbers, entries)?;
    Ok(Some(saved))
}

/// Whether the table of the clients has the rows of those of a log.
fn load_clients<S: Alter>(conn: &mut Connection<S>, log: &Log) -> Result<bool, Refusal>
    ensures found { HasCleanDisk (state S.Store conn.new) → (d : Layout)
        → schema_of S.Store conn.old ≡ d.schema
        → IfOk result (λ same. IsTrue same ↔ HasClients d (trees_of S.Store conn.old) log.now) }
    ensures crash { (d : Layout) → schema_of S.Store conn.old ≡ d.schema
        → Survives (state S.Store conn.old) (state S.Store conn.new) (λ _. ⊥) }
    ensures read { HasRead S.Store conn.old conn.new IsDeskSchema result }
{
    let rows = match conn.query_all(
        "SELECT client, number, place FROM client ORDER BY client",
        &[],
    ) {
        Ok(rows) => rows,
        Err(_) => return Err(Refusal::StoreFault),
    };
    let same = are_clients_of(rows.as_slice(), log)?;
    Ok(same)
}

/// The saved state in the tables, where they hold one of the node.
pub(crate) fn load_state<S: Alter>(
    conn: &mut Connection<S>,
    alloc: Global,
    owner: &Owner,
) -> Result<Option<LastSaved>, Refusal>
    ensures found { HasCleanDisk (state S.Store conn.new) → (d : Layout)
        → schema_of S.Store conn.old ≡ d.schema
        → IfOk result (λ found. MatchOption found (HasNoState d owner.now (trees_of S.Store conn.old))
        (λ s. IsState s × HasFile d owner.now s (trees_of S.Store conn.old))) }
    ensures read { HasRead S.Store conn.old conn.new IsDeskSchema result }
{
    let Some(saved) = load_saved(conn, alloc, FILE_VERSION, owner)? else {
        return Ok(None);
    };
    let same = load_clients(conn, saved.log())?;
    if !same {
        drop(saved);
        return Ok(None);
    }
    Ok(Some(saved))
}
