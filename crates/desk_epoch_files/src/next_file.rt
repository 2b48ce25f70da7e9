//! The making of the file of an epoch, before the epoch begins.

ghost use Rattle.std.specs.Prelude.{◌≡◌, ◌↔◌, List, ℕ, IsTrue, false, IfErr, OnOk};
ghost use Rattle.sqlite.specs.State.{HasCleanDisk};
ghost use Rattle.sqlite.specs.Held.{Held, state};
ghost use Rattle.desk_log.specs.SavedValue.{initial_saved};
ghost use Rattle.desk_file.specs.EpochTable.{ShowsEpoch};
ghost use Rattle.desk_file.specs.Names.{name_in_epoch};
ghost use Rattle.desk_epoch_files.specs.Additions.{AddsOnly};
ghost use Rattle.desk_epoch_files.specs.Causes.{BlamesFile};
ghost use Rattle.desk_epoch_files.specs.Opening.{IsOthersFile, MakesNext, MayBeOthers, MayBeReady};

use crate::cause::{Cause, table_cause};
use crate::epoch_table::{is_marked, mark_epoch};
use crate::named_databases::NamedDatabases;
use desk_file::{EndedFile, name_in_epoch, open_node};
use desk_log::Saved;
use desk_saved::SavedState;
use desk_types::Owner;
use sqlite::{Alter, Connection};
use std::alloc::Global;

/// Whether a state is that of a node that has done nothing.
fn is_first(saved: &Saved) -> bool
    ensures { IsTrue result ↔ (saved.now ≡ initial_saved) }
{
    saved.view() == 0 && saved.normal() == 0 && saved.log().is_empty() && saved.commit() == 0
}

/// Marks a node's file as an epoch's, where it is not yet. A file of another state than a node's first is refused,
/// unless it is marked and the epoch before has ended.
fn mark_file<S: Alter>(
    store: SavedState<S>,
    epoch: u64,
    is_marked: bool,
    has_ended: bool,
) -> (Connection<S>, Result<(), Cause>)
    ensures first { OnOk result.1 (has_ended ≡ false → store.last ≡ initial_saved) }
    ensures marked { OnOk result.1 (is_marked ≡ false → HasCleanDisk (state S.Store result.0)
        → (before : Held S) × ShowsEpoch S.Store before result.0 epoch) }
    ensures other { IfErr result.1 (λ cause. BlamesFile cause → ¬ (store.last ≡ initial_saved)) }
{
    let last = store.last_saved();
    let mut connection = store.into_connection();
    let is_fit = match last {
        Ok(saved) => (has_ended && is_marked) || is_first(&saved),
        Err(_) => return (connection, Err(Cause::NoMemory)),
    };
    if !is_fit {
        return (connection, Err(Cause::Used));
    }
    if is_marked {
        return (connection, Ok(()));
    }
    match mark_epoch(&mut connection, epoch) {
        Ok(()) => (connection, Ok(())),
        Err(refusal) => (connection, Err(table_cause(&refusal))),
    }
}

/// Makes a database a node's file of an epoch, where it is not that yet: first the tables of the node, and last the
/// mark. So a marked file is whole, and one whose making was stopped is finished by the next call. Where the epoch
/// before has ended, one that is whole may be used.
fn make_state<S: Alter>(
    alloc: Global,
    connection: Connection<S>,
    owner: &Owner,
    epoch: u64,
    has_ended: bool,
) -> (Option<Connection<S>>, Result<(), Cause>)
    ensures made { OnOk result.1 (MakesNext S.Store owner.now epoch has_ended connection) }
    // A file that is empty, or has a node's first state and no mark, is not refused as another's.
    ensures other { IfErr result.1 (λ cause. BlamesFile cause → IsOthersFile S.Store owner.now epoch connection) }
{
    let mut connection = connection;
    let is_marked = match is_marked(&mut connection, epoch) {
        Ok(is_marked) => is_marked,
        Err(cause) => return (Some(connection), Err(cause)),
    };
    let store = match open_node(alloc, connection, owner) {
        Ok(store) => store,
        Err(EndedFile { connection, end }) => return (connection, Err(Cause::NoState(end))),
    };
    let (connection, made) = mark_file(store, epoch, is_marked, has_ended);
    (Some(connection), made)
}

/// Makes a node's file of an epoch, where it is not there, or was not made to its end.
pub(crate) fn make_file<D: NamedDatabases>(
    alloc: Global,
    databases: &mut D,
    file: &str,
    owner: &Owner,
    epoch: u64,
    has_ended: bool,
) -> Result<(), Cause>
    ensures made { OnOk result (MayBeReady D.Pages.Store owner.now (D.may_open databases.old) file.now epoch
        has_ended) }
    ensures other { IfErr result (λ cause. BlamesFile cause → MayBeOthers D.Pages.Store owner.now
        (D.may_open databases.old) file.now epoch) }
    ensures adds { AddsOnly (D.may_find databases.old) (D.may_find databases.new)
        (λ at. at ≡ name_in_epoch file.now epoch) }
    ensures same { (at : List ℕ) → (c : Held D.Pages) → D.may_open databases.new at c
        → D.may_open databases.old at c }
{
    let Ok(name) = name_in_epoch(alloc, file, epoch) else {
        return Err(Cause::NoMemory);
    };
    let connection = match databases.open(name.as_str()) {
        Ok(connection) => connection,
        Err(error) => return Err(Cause::Unopened(error)),
    };
    let (mut connection, made) = make_state(alloc, connection, owner, epoch, has_ended);
    // What was saved is synced, in the file or beside it.
    let _ = databases.close(name.as_str(), &mut connection);
    made
}
