//! What rows of the three tables say.

ghost use Rattle.std.specs.Prelude.{◌≡◌, ◌≢◌, ◌↔◌, List, ℕ, pos, ◌<◌, [], ◌∷◌, map, length, IfOk, IsTrue, MatchOption};
ghost use Rattle.std.specs.List.{AllByRecursion};
ghost use Rattle.std.specs.List.Sorted.{IsPermutation, IsNonDecreasingBy};
ghost use Rattle.sqlite_value.specs.Order.{column};
ghost use Rattle.sqlite_value.specs.declared.value.Value.TheVariants as cells;
ghost use Rattle.desk_types.specs.declared.command.Command.{Command as Commands};
ghost use Rattle.desk_types.specs.NumberRange.{FitsNumber};
ghost use Rattle.desk_codec.specs.Ranges.{FitsCommand, FitsEntry, FitsEntries};
ghost use Rattle.desk_codec.specs.Spelling.{body_spelling};
ghost use Rattle.desk_saved.specs.DeskTables.{versioned_row};
ghost use Rattle.desk_saved.specs.File.{entry_row_at, rows_from, row_of_client, IsNoEntryAt};
ghost use Rattle.desk_log.specs.declared.clients.ClientRow.{ClientRow as Clients};
ghost use Rattle.desk_saved.specs.File.{AreNoLog, AreRisingClients, IsNotOwn};

use crate::transactions::Numbers;
use desk_codec::get_body;
use desk_log::{ClientRow, Log};
use desk_naming::read;
use desk_types::{ClientId, Command, Entry, RequestNumber, WantOfMemory};
use sqlite::Row;
use std::alloc::Global;

/// The client that a column holds.
fn read_client(row: &Row, at: usize) -> Result<Option<ClientId>, WantOfMemory>
    ensures { IfOk result (λ found. MatchOption found
        (at < length row.now → (n : ℕ) → FitsNumber n → column row.now at ≢ cells.Int (pos n))
        (λ n. (column row.now at ≡ cells.Int (pos n)) × FitsNumber n)) }
{
    let Some(number) = read::<u64>(row, at)? else {
        return Ok(None);
    };
    Ok(ClientId::new(number))
}

/// The number of a request that a column holds.
fn read_number(row: &Row, at: usize) -> Result<Option<RequestNumber>, WantOfMemory>
    ensures { IfOk result (λ found. MatchOption found
        (at < length row.now → (n : ℕ) → FitsNumber n → column row.now at ≢ cells.Int (pos n))
        (λ n. (column row.now at ≡ cells.Int (pos n)) × FitsNumber n)) }
{
    let Some(number) = read::<u64>(row, at)? else {
        return Ok(None);
    };
    Ok(RequestNumber::new(number))
}

/// The command whose spelling a column holds.
fn read_command(alloc: Global, row: &Row, at: usize) -> Result<Option<Command>, WantOfMemory>
    ensures { IfOk result (λ found. MatchOption found
        (at < length row.now → (c : Commands) → FitsCommand c → column row.now at ≢ cells.Blob (body_spelling c))
        (λ c. (column row.now at ≡ cells.Blob (body_spelling c)) × FitsCommand c)) }
{
    let Some(body) = read::<Vec<u8>>(row, at)? else {
        return Ok(None);
    };
    match get_body(alloc, body.as_slice()) {
        Ok(command) => Ok(Some(command)),
        Err(fault) => {
            fault.refusal.unless_of_memory()?;
            Ok(None)
        }
    }
}

/// The entry of a row, where the row is that of an entry at the place.
fn entry_in(alloc: Global, row: &Row, place: u64) -> Result<Option<Entry>, WantOfMemory>
    ensures { length row.now ≡ 4 → IfOk result (λ found. MatchOption found (IsNoEntryAt place row.now)
        (λ e. FitsEntry e × (row.now ≡ entry_row_at place e))) }
{
    let Some(at) = read::<u64>(row, 0)? else {
        return Ok(None);
    };
    if at != place {
        return Ok(None);
    }
    let Some(client) = read_client(row, 1)? else {
        return Ok(None);
    };
    let Some(number) = read_number(row, 2)? else {
        return Ok(None);
    };
    let Some(command) = read_command(alloc, row, 3)? else {
        return Ok(None);
    };
    Ok(Some(Entry {
        client,
        number,
        command,
    }))
}

/// The entries of rows, where the rows are those of a log.
pub(crate) fn log_in(alloc: Global, rows: &[Row]) -> Result<Option<Vec<Entry>>, WantOfMemory>
    ensures { AllByRecursion (λ row. length row ≡ 4) rows.now → IfOk result (λ found. MatchOption found
        (AreNoLog rows.now) (λ log. FitsEntries log.items × (rows.now ≡ rows_from 0 log.items))) }
{
    let mut log = Vec::new(alloc);
    for (index, row) in rows.iter().enumerate() {
        let Some(entry) = entry_in(alloc, row, index as u64 + 1)? else {
            return Ok(None);
        };
        log.push(entry)?;
    }
    Ok(Some(log))
}

/// Whether a column holds a number.
fn is_number(row: &Row, at: usize, number: u64) -> Result<bool, WantOfMemory>
    ensures { at < length row.now
        → IfOk result (λ same. IsTrue same ↔ (column row.now at ≡ cells.Int (pos number))) }
{
    match read::<u64>(row, at)? {
        Some(found) => Ok(found == number),
        None => Ok(false),
    }
}

/// Whether a row has the number of a client, that of its latest request, and the place of this.
fn is_client_row(row: &Row, client: &ClientRow) -> Result<bool, WantOfMemory>
    ensures { length row.now ≡ 3 → IfOk result (λ same. IsTrue same ↔ (row.now ≡ row_of_client client.now)) }
{
    let is_of_client = is_number(row, 0, client.client.get())?;
    if !is_of_client {
        return Ok(false);
    }
    let is_of_number = is_number(row, 1, client.number.get())?;
    if !is_of_number {
        return Ok(false);
    }
    is_number(row, 2, client.place)
}

/// Whether rows are those of clients, in their order.
fn are_client_rows(rows: &[Row], clients: &[ClientRow]) -> Result<bool, WantOfMemory>
    ensures { AllByRecursion (λ row. length row ≡ 3) rows.now
        → IfOk result (λ same. IsTrue same ↔ (rows.now ≡ map row_of_client clients.now)) }
{
    if rows.len() != clients.len() {
        return Ok(false);
    }
    for index in 0..rows.len() {
        let same = is_client_row(&rows[index], &clients[index])?;
        if !same {
            return Ok(false);
        }
    }
    Ok(true)
}

/// Puts rows of clients into the order of the clients.
fn sort_by_client(rows: &mut Vec<ClientRow>)
    ensures same { IsPermutation rows.old.items rows.new.items }
    ensures rising { IsNonDecreasingBy (λ r. r.client) rows.new.items }
{
    rows.sort_unstable_by_key(|row| row.client.get());
}

/// The rows of a log's clients, by rising client.
fn rising_clients(log: &Log) -> Result<Vec<ClientRow>, WantOfMemory>
    ensures { IfOk result (λ rows. AreRisingClients log.now rows.items) }
{
    let mut clients = log.clients()?;
    sort_by_client(&mut clients);
    Ok(clients)
}

/// Whether rows are those of the clients of a log, by rising client.
pub(crate) fn are_clients_of(rows: &[Row], log: &Log) -> Result<bool, WantOfMemory>
    ensures { AllByRecursion (λ row. length row ≡ 3) rows.now → IfOk result (λ same. (clients : List Clients)
        × AreRisingClients log.now clients × (IsTrue same ↔ (rows.now ≡ map row_of_client clients))) }
{
    let clients = rising_clients(log)?;
    are_client_rows(rows, clients.as_slice())
}

/// The numbers of a row of the node's table, where it is the node's own in a file of the version.
fn own_in(
    row: &Row,
    wanted: u64,
    id: u64,
    n: u64,
    domain: &str,
) -> Result<Option<Numbers>, WantOfMemory>
    ensures { length row.now ≡ 8 → IfOk result (λ found. MatchOption found (IsNotOwn wanted id n domain.now row.now)
        (λ s. row.now ≡ versioned_row wanted id n domain.now s.view s.normal s.commit)) }
{
    let Some(slot) = read::<u64>(row, 0)? else {
        return Ok(None);
    };
    let Some(version) = read::<u64>(row, 1)? else {
        return Ok(None);
    };
    let Some(own_id) = read::<u64>(row, 2)? else {
        return Ok(None);
    };
    let Some(own_n) = read::<u64>(row, 3)? else {
        return Ok(None);
    };
    let Some(own_domain) = read::<String>(row, 4)? else {
        return Ok(None);
    };
    if slot != 1
        || version != wanted
        || own_id != id
        || own_n != n
        || own_domain.as_str() != domain
    {
        return Ok(None);
    }
    let Some(view) = read::<u64>(row, 5)? else {
        return Ok(None);
    };
    let Some(normal) = read::<u64>(row, 6)? else {
        return Ok(None);
    };
    let Some(commit) = read::<u64>(row, 7)? else {
        return Ok(None);
    };
    Ok(Some(Numbers {
        view,
        normal,
        commit,
    }))
}

/// The numbers of the one row, where it is the node's own.
pub(crate) fn own_among(
    rows: &[Row],
    version: u64,
    id: u64,
    n: u64,
    domain: &str,
) -> Result<Option<Numbers>, WantOfMemory>
    ensures { AllByRecursion (λ row. length row ≡ 8) rows.now → IfOk result (λ found. MatchOption found
        ((v u c : ℕ) → ¬ (rows.now ≡ versioned_row version id n domain.now v u c ∷ []))
        (λ s. rows.now ≡ versioned_row version id n domain.now s.view s.normal s.commit ∷ [])) }
{
    if rows.len() != 1 {
        return Ok(None);
    }
    own_in(&rows[0], version, id, n, domain)
}
