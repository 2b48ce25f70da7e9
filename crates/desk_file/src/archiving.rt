//! The committed commands that the files of a node keep, as document lines on the standard output.

ghost use Rattle.std.specs.Prelude.{◌≡◌, ◌≤◌, IfErr};
ghost use Rattle.desk_output.specs.Printing.{PrintsFirst};
ghost use Rattle.desk_output.specs.declared.printing.TheConstants.{FAILED};

use crate::epoch_table::is_of_epoch;
use crate::faults::{shown, unopened_status};
use crate::names::name_in_epoch;
use desk_archive::{Archived, archive_database, archived_owner};
use desk_database::open_copy;
use desk_options::LogOptions;
use desk_output::LinePart::Text;
use desk_output::{flush, outcome_status, refusal_status, refusal_status_with};
use desk_types::limits::LOG_ENTRIES;
use desk_types::{Owner, Refusal, Verb};
use sqlite::types::ValueRef;
use sqlite::{Alter, Connection, Error, ErrorCode, FileStore};
use sqlite_disk::Memory;
use std::alloc::Global;
use std::fs;
use std::io::{BufWriter, Write};

/// Tells the standard error what ended the archive of a file, and answers the exit status.
fn unarchived_status<E: Write>(errors: &mut E, name: &str, refusal: &Refusal) -> u8
    ensures status { result ≡ FAILED }
    ensures printed { PrintsFirst (E.contents errors.old) (E.contents errors.new) refusal.now }
{
    let why = match refusal {
        Refusal::WrongFile =>
            " holds no saved state of a node, or not that of the files before it\n",
        Refusal::StoreFault => " can not be read\n",
        _ => return refusal_status(errors, refusal),
    };
    let more = [Text("desk: "), Text(shown(name)), Text(why)];
    refusal_status_with(errors, refusal, &more)
}

/// Tells the standard error that a file is missing, and answers the exit status.
fn missing_status<E: Write>(errors: &mut E, name: &str) -> u8
    ensures status { result ≡ FAILED }
{
    refusal_status_with(
        errors,
        &Refusal::WrongFile,
        &[Text("desk: "), Text(shown(name)), Text(" is missing\n")],
    )
}

/// How far an archive has come.
#[derive(Drop)]
struct Progress {
    /// How many epochs came before.
    epoch: u64,
    /// The node whose files came before, where there are any.
    owner: Option<Owner>,
    /// How many places they have.
    past: u64,
    /// Whether the epoch has begun for sure: it is the first, or follows a full file, or one whose last entry names
    /// another node. Else its file may be missing, or be another's.
    has_begun: bool,
}

/// What the file of an epoch has committed.
#[derive(Drop)]
struct Committed {
    owner: Owner,
    /// How many entries.
    count: u64,
    /// Whether the last of them names another node, and so has ended its epoch.
    names_node: bool,
}

/// Whether the last of so many entries of a node's file names another node.
fn names_node<S: Alter>(connection: &mut Connection<S>, count: u64) -> Result<bool, Refusal> {
    let Ok(place) = i64::try_from(count) else {
        return Ok(false);
    };
    let words = "SELECT body FROM entry WHERE place = ?1";
    let Ok(rows) = connection.query_all(words, &[ValueRef::Int(place)]) else {
        return Err(Refusal::StoreFault);
    };
    let Some(row) = rows.first() else {
        return Ok(false);
    };
    // A body begins with the number of its verb.
    match row.get::<Vec<u8>>(0) {
        Ok(body) => Ok(matches!(body.first(), Some(verb) if *verb == Verb::Replace.number())),
        Err(Error::SqliteFailure(ErrorCode::OutOfMemory)) => Err(Refusal::WantOfMemory),
        Err(_) => Err(Refusal::StoreFault),
    }
}

/// What a node's file has committed, where that is so many entries.
fn committed_of<S: Alter>(
    connection: &mut Connection<S>,
    owner: Owner,
    count: u64,
) -> Result<Option<Committed>, Refusal> {
    match names_node(connection, count) {
        Ok(names_node) => Ok(Some(Committed {
            owner,
            count,
            names_node,
        })),
        Err(refusal) => Err(refusal),
    }
}

/// Writes the lines of a copy of a node's file from a place on, and tells its node and how many entries are committed.
/// Nothing where the copy is of another epoch, and that epoch may not have begun.
fn archive_copied<S: Alter, W: Write>(
    alloc: Global,
    writer: &mut W,
    connection: Connection<S>,
    before: &Progress,
    from: u64,
) -> (Connection<S>, Result<Option<Committed>, Refusal>) {
    let mut connection = connection;
    match is_of_epoch(&mut connection, before.epoch) {
        Ok(true) => {}
        Ok(false) if before.has_begun => return (connection, Err(Refusal::WrongFile)),
        Ok(false) => return (connection, Ok(None)),
        Err(refusal) => return (connection, Err(refusal)),
    }
    let owner = match archived_owner(alloc, &mut connection, &before.owner) {
        Ok(owner) => owner,
        Err(refusal) => return (connection, Err(refusal)),
    };
    let Ok(preserved) = owner.copy() else {
        return (connection, Err(Refusal::WantOfMemory));
    };
    let Archived {
        mut connection,
        result,
    } = archive_database(alloc, writer, connection, preserved, before.past, from);
    let committed = match result {
        Ok(count) => committed_of(&mut connection, owner, count),
        Err(refusal) => Err(refusal),
    };
    (connection, committed)
}

/// The same of a copy in memory, which is dropped.
// The only function here over the files of the host: each proof of such a one goes over all parts of their store.
fn archive_copy<W: Write>(
    alloc: Global,
    writer: &mut W,
    connection: Connection<FileStore<Memory>>,
    before: &Progress,
    from: u64,
) -> Result<Option<Committed>, Refusal> {
    let (connection, archived) = archive_copied(alloc, writer, connection, before, from);
    drop(connection.into_store().close());
    archived
}

/// Whether a desk may have no file of an epoch that comes next. After a full file one is missing, but for a desk of one
/// file, which has none after that.
fn may_lack(host: &HostRuntime, file: &str, before: &Progress) -> bool {
    if !before.has_begun {
        return true;
    }
    if before.epoch != 1 || before.past < LOG_ENTRIES {
        return false;
    }
    match name_in_epoch(host.alloc(), file, 2) {
        Ok(name) => matches!(fs::exists(host, name.as_str()), Ok(false)),
        Err(_) => false,
    }
}

/// Writes the lines of the file of an epoch of this name from a place on, where it is there, or where there may be
/// none. Else a fault is printed to standard error, and the exit status is the answer.
fn archive_file<W: Write>(
    host: &HostRuntime,
    writer: &mut W,
    name: &str,
    before: &Progress,
    options: &LogOptions,
) -> Result<Option<Committed>, u8>
    ensures { IfErr result (λ status. status ≡ FAILED) }
{
    let connection = match open_copy(host, name) {
        Ok(Some(connection)) => connection,
        Ok(None) if may_lack(host, options.file.as_str(), before) => return Ok(None),
        Ok(None) => return Err(missing_status(&mut host.stderr(), name)),
        Err(error) => return Err(unopened_status(&mut host.stderr(), name, &error)),
    };
    match archive_copy(host.alloc(), writer, connection, before, options.from) {
        Ok(found) => Ok(found),
        Err(refusal) => Err(unarchived_status(&mut host.stderr(), name, &refusal)),
    }
}

/// Writes the lines of a node's files, one after the other, from a place on. An epoch has an entry at least, and none
/// has begun after one without.
fn archive_files<W: Write>(
    host: &HostRuntime,
    writer: &mut W,
    options: &LogOptions,
) -> Result<(), u8>
    ensures { IfErr result (λ status. status ≡ FAILED) }
{
    let mut before = Progress {
        epoch: 0,
        owner: None,
        past: 0,
        has_begun: true,
    };
    for epoch in 0..u64::MAX {
        before.epoch = epoch;
        let Ok(name) = name_in_epoch(host.alloc(), options.file.as_str(), epoch) else {
            return Err(refusal_status(&mut host.stderr(), &Refusal::WantOfMemory));
        };
        let found = match archive_file(host, writer, name.as_str(), &before, options) {
            Ok(found) => found,
            Err(status) => return Err(status),
        };
        let Some(
            Committed {
                owner,
                count,
                names_node,
            },
        ) = found
        else {
            return Ok(());
        };
        if count == 0 {
            return Ok(());
        }
        before.owner = Some(owner);
        before.past = before.past.saturating_add(count);
        before.has_begun = count >= LOG_ENTRIES || names_node;
    }
    Ok(())
}

/// Prints the document lines of the commands that a node's files have committed, from a place on, in the order of their
/// places, and answers the exit status. Each file is copied into memory first, with the log beside it, and none is
/// changed or made. A file may be followed by one that is marked as that of the next epoch. One whose last entry names
/// another node is, and so is a full one, but for the first. After a fault its number and name stand in the standard
/// error, and the lines before it are printed: a file that a node has open or that can not be read is `StoreFault`, one
/// that is missing or another node's `WrongFile`.
pub fn log_file(host: &HostRuntime, options: LogOptions) -> u8
    ensures { result ≤ FAILED }
{
    let Ok(mut output) = BufWriter::new(host.alloc(), host.stdout()) else {
        return refusal_status(&mut host.stderr(), &Refusal::WantOfMemory);
    };
    let archived = archive_files(host, &mut output, &options);
    let flushed = flush(&mut output);
    match archived {
        Ok(()) => outcome_status(&mut host.stderr(), &flushed),
        Err(status) => status,
    }
}
