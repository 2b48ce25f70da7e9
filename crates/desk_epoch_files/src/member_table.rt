//! The table of a node's first file that preserves what the node was started with.

ghost use Rattle.std.specs.Prelude.{◌≡◌, ◌⊎◌, ◌<◌, List, ℕ, length, pos, unwrap_or};
ghost use Rattle.std.specs.Prelude.{IfOk, IfErr, IfSome, MatchOption, OnOk};
ghost use Rattle.sqlite_value.specs.declared.value.Value.TheVariants.{Int};
ghost use Rattle.sqlite_value.specs.Order.{column};
ghost use Rattle.sqlite.specs.State.{HasCleanDisk};
ghost use Rattle.sqlite.specs.Held.{Held, state};
ghost use Rattle.desk_types.specs.declared.refusal.Refusal.TheVariants as refusals;
ghost use Rattle.desk_naming.specs.AfterRefusal.{KeepsFaultsAndLimit};
ghost use Rattle.desk_saved.specs.Opening.{IsOpeningRefusal};
ghost use Rattle.desk_epoch_files.specs.Additions.{AddsOnly};
ghost use Rattle.desk_epoch_files.specs.Causes.{BlamesMember};
ghost use Rattle.desk_epoch_files.specs.Members.{HasNoMemberTable, IsNoMember, IsStartedOtherwise, Preserves};
ghost use Rattle.desk_epoch_files.specs.Members.{MayBeStartedOtherwise, MayStartWith, PreservesNone, ShowsMember};
ghost use Rattle.desk_epoch_files.specs.Members.{ShowsNoMember, StartsWith, asked_row, default_row, member_rows};

use crate::cause::{Cause, member_cause};
use crate::member_row::MemberRow;
use crate::named_databases::NamedDatabases;
use crate::new_table::make_table;
use desk_saved::named_owner;
use desk_types::Refusal;
use sqlite::types::ValueRef;
use sqlite::{Alter, Connection, Error, ErrorCode, Row};
use std::alloc::Global;

/// The number that a row has at a place within it, which is 0 or more. All else is refused (`WrongFile`).
fn number_at(row: &Row, at: usize) -> Result<u64, Refusal>
    requires { at < length row.now }
    ensures found { IfOk result (λ number. column row.now at ≡ Int (pos number)) }
    ensures other { IfErr result (λ r. r ≡ refusals.WrongFile → (number : ℕ)
        → ¬ (column row.now at ≡ Int (pos number))) }
    ensures fault { IfErr result (λ r. (r ≡ refusals.WrongFile) ⊎ (r ≡ refusals.WantOfMemory)) }
{
    match row.get::<u64>(at) {
        Ok(number) => Ok(number),
        Err(Error::SqliteFailure(ErrorCode::OutOfMemory)) => Err(Refusal::WantOfMemory),
        Err(_) => Err(Refusal::WrongFile),
    }
}

/// What rows tell of a node. Rows that are those of no node are refused (`WrongFile`).
fn member_among(rows: &[Row]) -> Result<MemberRow, Refusal>
    ensures found { IfOk result (λ row. rows.now ≡ member_rows row) }
    ensures other { IfErr result (λ r. r ≡ refusals.WrongFile → IsNoMember rows.now) }
    ensures fault { IfErr result (λ r. (r ≡ refusals.WrongFile) ⊎ (r ≡ refusals.WantOfMemory)) }
{
    if rows.len() != 1 || rows[0].column_count() != 2 {
        return Err(Refusal::WrongFile);
    }
    let token = match number_at(&rows[0], 0) {
        Ok(token) => token,
        Err(refusal) => return Err(refusal),
    };
    match number_at(&rows[0], 1) {
        Ok(places) => Ok(MemberRow { token, places }),
        Err(refusal) => Err(refusal),
    }
}

/// The row in the table `member` of a database; nothing where it has no such table. Other rows than the one of a node
/// are refused (`WrongFile`), and so is a growth for which memory is refused (`WantOfMemory`). Any fault of the
/// database is `StoreFault`. Nothing is changed.
fn table_row<S: Alter>(connection: &mut Connection<S>) -> Result<Option<MemberRow>, Refusal>
    ensures found { HasCleanDisk (state S.Store connection.new) → IfOk result (λ found. MatchOption found
        (HasNoMemberTable S.Store connection.old connection.new)
        (ShowsMember S.Store connection.old connection.new)) }
    ensures other { HasCleanDisk (state S.Store connection.new) → IfErr result (λ r. r ≡ refusals.WrongFile
        → ShowsNoMember S.Store connection.old connection.new) }
    ensures keeps { KeepsFaultsAndLimit (state S.Store connection.old) (state S.Store connection.new) }
    ensures fault { IfErr result IsOpeningRefusal }
{
    let rows = match connection.query_all("SELECT token, places FROM member", &[]) {
        Ok(rows) => rows,
        Err(Error::SqlInputError(_)) => return Ok(None),
        Err(_) => return Err(Refusal::StoreFault),
    };
    match member_among(rows.as_slice()) {
        Ok(row) => Ok(Some(row)),
        Err(refusal) => Err(refusal),
    }
}

/// The row that a database preserves; nothing where it has no table `member`, and is no node's file. Nothing is
/// changed.
fn preserved_row<S: Alter>(
    alloc: Global,
    connection: &mut Connection<S>,
) -> Result<Option<MemberRow>, Cause>
    ensures found { HasCleanDisk (state S.Store connection.new) → IfOk result (λ found. MatchOption found
        (PreservesNone S.Store connection.old)
        (Preserves S.Store connection.old connection.new)) }
    ensures other { HasCleanDisk (state S.Store connection.new) → IfErr result (λ cause. BlamesMember cause
        → ShowsNoMember S.Store connection.old connection.new) }
{
    match table_row(connection) {
        Ok(Some(row)) => return Ok(Some(row)),
        Ok(None) => {}
        Err(refusal) => return Err(member_cause(&refusal)),
    }
    match named_owner(alloc, connection) {
        Ok(Some(_)) => Ok(Some(MemberRow::by_default())),
        Ok(None) => Ok(None),
        Err(refusal) => Err(member_cause(&refusal)),
    }
}

/// Makes the table of a row in a database that has none, in one transaction, and reads it.
fn make_member<S: Alter>(connection: &mut Connection<S>, row: &MemberRow) -> Result<(), Cause>
    ensures made { OnOk result (HasCleanDisk (state S.Store connection.new) → (before : Held S)
        × ShowsMember S.Store before connection.new row.now) }
    ensures unblamed { IfErr result (λ cause. ¬ (BlamesMember cause)) }
{
    let (Ok(token), Ok(places)) = (i64::try_from(row.token), i64::try_from(row.places)) else {
        return Err(Cause::NoMemberTable);
    };
    let Ok(()) = make_table(
        connection,
        "CREATE TABLE member (token INTEGER PRIMARY KEY, places INTEGER NOT NULL)",
        "INSERT INTO member VALUES (?1, ?2)",
        &[ValueRef::Int(token), ValueRef::Int(places)],
    ) else {
        return Err(Cause::NoMemberTable);
    };
    match table_row(connection) {
        Ok(Some(found)) if found.token == row.token && found.places == row.places => Ok(()),
        Ok(_) => Err(Cause::NoMemberTable),
        Err(refusal) if refusal.is_want_of_memory() => Err(Cause::NoMemory),
        Err(_) => Err(Cause::NoMemberTable),
    }
}

/// The token of a new node, for which this one is named, or none, and so many places. Its first file gets the row, but
/// for the default one.
fn start_new<S: Alter>(
    connection: &mut Connection<S>,
    given: Option<u64>,
    places: u64,
) -> Result<u64, Cause>
    ensures token { IfOk result (λ token. token ≡ unwrap_or given 0) }
    ensures stands { OnOk result (¬ (asked_row given places ≡ default_row)
        → HasCleanDisk (state S.Store connection.new) → (before : Held S)
        × ShowsMember S.Store before connection.new (asked_row given places)) }
    ensures unblamed { IfErr result (λ cause. ¬ (BlamesMember cause)) }
{
    let row = MemberRow::asked(given, places);
    if row.is_default() {
        return Ok(row.token);
    }
    match make_member(connection, &row) {
        Ok(()) => Ok(row.token),
        Err(cause) => Err(cause),
    }
}

/// The token of a node that is started over a database as its first file, for which this token is named, or none, and
/// so many places.
fn start_in_database<S: Alter>(
    alloc: Global,
    connection: &mut Connection<S>,
    given: Option<u64>,
    places: u64,
) -> Result<u64, Cause>
    ensures given { IfSome given (λ named. IfOk result (λ token. token ≡ named)) }
    ensures starts { IfOk result (StartsWith S.Store given places connection.old) }
    ensures other { IfErr result (λ cause. BlamesMember cause
        → IsStartedOtherwise S.Store given places connection.old) }
{
    match preserved_row(alloc, connection) {
        Ok(Some(row)) => row.token_for(given, places),
        Ok(None) => start_new(connection, given, places),
        Err(cause) => Err(cause),
    }
}

/// The token of a node that is started over its first file, which is made where it is missing.
pub(crate) fn start_in_file<D: NamedDatabases>(
    alloc: Global,
    databases: &mut D,
    file: &str,
    given: Option<u64>,
    places: u64,
) -> Result<u64, Cause>
    ensures given { IfSome given (λ named. IfOk result (λ token. token ≡ named)) }
    ensures starts { IfOk result (MayStartWith D.Pages.Store given places (D.may_open databases.old) file.now) }
    ensures other { IfErr result (λ cause. BlamesMember cause
        → MayBeStartedOtherwise D.Pages.Store given places (D.may_open databases.old) file.now) }
    ensures adds { AddsOnly (D.may_find databases.old) (D.may_find databases.new) (λ at. at ≡ file.now) }
    ensures same { (at : List ℕ) → (c : Held D.Pages) → D.may_open databases.new at c
        → D.may_open databases.old at c }
{
    let mut connection = match databases.open(file) {
        Ok(connection) => connection,
        Err(error) => return Err(Cause::Unopened(error)),
    };
    let started = start_in_database(alloc, &mut connection, given, places);
    // What was saved is synced, in the file or beside it.
    let _ = databases.close(file, &mut Some(connection));
    started
}
