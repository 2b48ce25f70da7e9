//! The files of nodes whose work ended, and their closing.

ghost use Rattle.std.specs.Prelude.{◌≡◌, IfSome, IsSome, IsTrue, MatchOption, Err, Some};
ghost use Rattle.sqlite.specs.Held.{state};
ghost use Rattle.desk_types.specs.declared.refusal.Refusal.TheVariants as refusals;
ghost use Rattle.desk_file.specs.Closing.{HasClosed};
ghost use Rattle.desk_file.specs.Reading.{IsLookedInto};

use crate::faults::FileEnd;
use desk_saved::SavedState;
use desk_types::Refusal;
use sqlite::{Alter, Connection, FileStore, Files};
use sqlite_disk::Disk;
use std::alloc::Global;

/// A node's file that is to be closed, and how the work over it ended.
// No bound says that a store may be dropped: so the compiler refuses what loses a file that is still open.
#[derive(Drop)]
pub struct EndedFile<S: Alter> {
    /// The database in the file; none where the node was not started for want of memory.
    pub connection: Option<Connection<S>>,
    pub end: FileEnd,
}

impl<S: Alter> EndedFile<S> {
    /// The end of the work over a database.
    pub fn over(
        alloc: Global,
        connection: Connection<S>,
        outcome: Result<(), Refusal>,
    ) -> EndedFile<S>
        ensures outcome { result.end.outcome ≡ outcome }
        ensures open { IsSome result.connection }
        // But for `WrongFile` the connection is handed on as it came; after `WrongFile` it is looked into, and no row
        // is touched.
        ensures same { ¬ (outcome ≡ Err refusals.WrongFile) → result.connection ≡ Some connection }
        ensures read { IfSome result.connection
            (λ after. IsLookedInto (state S.Store connection) (state S.Store after)) }
    {
        let mut connection = connection;
        let end = FileEnd::over(alloc, &mut connection, outcome);
        EndedFile {
            connection: Some(connection),
            end,
        }
    }

    /// The end of a node that was served, with its state, where there was memory to start it.
    pub fn of_node(
        alloc: Global,
        store: Option<SavedState<S>>,
        outcome: Result<(), Refusal>,
    ) -> EndedFile<S>
        ensures outcome { result.end.outcome ≡ outcome }
        // The file is at hand where the node was started, so that it is closed.
        ensures open { IfSome store (λ _. IsSome result.connection) }
        // It is the one over which the node was served, and no row of the file is touched here.
        ensures same { ¬ (outcome ≡ Err refusals.WrongFile)
            → IfSome store (λ node. result.connection ≡ Some node.connection) }
        ensures read { IfSome store (λ node. IfSome result.connection
            (λ after. IsLookedInto (state S.Store node.connection) (state S.Store after))) }
    {
        match store {
            Some(store) => EndedFile::over(alloc, store.into_connection(), outcome),
            None => EndedFile {
                connection: None,
                end: FileEnd::without_file(outcome),
            },
        }
    }
}

/// What the closing of a file left.
#[derive(Drop)]
pub struct ClosedFile<D: Disk + Drop> {
    /// The file and the log beside it, where they are at hand. They are closed where this is dropped.
    pub files: Option<Files<D>>,
    /// Whether all that was saved stands in the file, or no file is at hand.
    pub is_whole: bool,
}

/// Closes the database in a file, where it is at hand: the log beside it is copied into it, and no row is touched.
/// Where that failed `is_whole` is false, and the file is to be opened with its log.
pub fn close_file<D: Disk + Drop>(connection: Option<Connection<FileStore<D>>>) -> ClosedFile<D>
    ensures closed { MatchOption connection (IsTrue result.is_whole)
        (λ c. (files : _) × (result.files ≡ Some files) × HasClosed c files result.is_whole) }
{
    match connection {
        Some(connection) => match connection.close_files() {
            Ok(files) => ClosedFile {
                files: Some(files),
                is_whole: true,
            },
            Err((_, store)) => ClosedFile {
                files: Some(store.close()),
                is_whole: false,
            },
        },
        None => ClosedFile {
            files: None,
            is_whole: true,
        },
    }
}
