//! The opening of a copy, in memory, of the database in a file of the host. The file is only read.

ghost use Rattle.std.specs.Prelude.{IsTrue, IfOk, IfErr, IfSome};
ghost use Rattle.sqlite_disk.specs.Memory.{memory_is_usable};
ghost use Rattle.sqlite.specs.State.{HasCleanDisk};
ghost use Rattle.sqlite.specs.Held.{IsNew};
ghost use Rattle.sqlite.specs.Opening.{is_open_error};
ghost use Rattle.sqlite.specs.Files.{file_state, IsOpened};

use crate::host::{CANNOT_OPEN, NO_MEMORY};
use crate::opening::open_files;
use os::RangeLock;
use sqlite::{Connection, Error, ErrorCode, FileStore, Files, Options};
use sqlite_disk::{Disk, Memory};
use std::alloc::Global;
use std::fs::File;
use std::io::{ErrorKind, Read};
use std::os::fd::AsRawFd;
use std::os::unix::fs::MetadataExt;
use std::path::PathBuf;
use std::{fs, io};

/// What stands at the name of a database is no file.
const NO_DATABASE: Error = Error::SqliteFailure(ErrorCode::NotADatabase);

/// The bytes that one read of a file takes at most.
const PIECE_BYTES: usize = 4_096;

/// The first of the bytes by which SQLite locks a database: they need not be there.
const LOCK_AT: u64 = 1 << 30;

/// How many bytes SQLite locks a database by.
const LOCK_BYTES: u64 = 512;

/// The first `count` bytes of a reader, as a file in memory; fewer where it ends before.
fn copy_of<R: Read>(alloc: Global, source: &mut R, count: u64) -> io::Result<Memory>
    ensures usable { IfOk result (λ copy. IsTrue (memory_is_usable copy)) }
{
    let mut copy = Memory::new(alloc);
    let mut room = [0; PIECE_BYTES];
    let mut at: u64 = 0;
    while at < count {
        let most = (count - at).min(PIECE_BYTES as u64) as usize;
        match source.read(&mut room[..most]) {
            Ok(0) => return Ok(copy),
            Ok(read) => {
                copy.write_at(at as usize, &room[..read])?;
                at += read as u64;
            }
            Err(error) => return Err(error),
        }
    }
    Ok(copy)
}

/// The name of a file with no link in it, where the file is there: its log stands beside it, and not beside a link.
fn resolved(host: &HostRuntime, name: &str) -> Result<Option<PathBuf>, Error>
    ensures { IfErr result (λ e. IsTrue (is_open_error e)) }
{
    match fs::canonicalize(host, name) {
        Ok(path) => Ok(Some(path)),
        Err(error) => match error.kind() {
            ErrorKind::NotFound => Ok(None),
            ErrorKind::OutOfMemory => Err(NO_MEMORY),
            _ => Err(CANNOT_OPEN),
        },
    }
}

/// The file of this name, open to be read, where it is there. A device or a link is not opened, nor a file that has a
/// second name: its log may stand beside that one.
fn found_file(host: &HostRuntime, name: &str) -> Result<Option<File>, Error>
    ensures { IfErr result (λ e. IsTrue (is_open_error e)) }
{
    match fs::symlink_metadata(host, name) {
        Ok(found) if !found.is_file() => return Err(NO_DATABASE),
        Ok(found) if found.nlink() != 1 => return Err(CANNOT_OPEN),
        Ok(_) => {}
        Err(error) if error.kind() == ErrorKind::NotFound => return Ok(None),
        Err(_) => return Err(CANNOT_OPEN),
    }
    match File::open(host, name) {
        Ok(file) => Ok(Some(file)),
        Err(_) => Err(CANNOT_OPEN),
    }
}

/// Locks a database against a node, until the file is closed. It is refused where a node has it open.
fn lock_database(file: &File) -> Result<(), Error>
    ensures { IfErr result (λ e. IsTrue (is_open_error e)) }
{
    if os::try_lock_range(file.as_raw_fd(), RangeLock::Shared, LOCK_AT, LOCK_BYTES) == 0 {
        return Ok(());
    }
    match io::Error::from_raw_os_error(os::errno()).kind() {
        ErrorKind::WouldBlock => Err(Error::SqliteFailure(ErrorCode::DatabaseBusy)),
        _ => Err(CANNOT_OPEN),
    }
}

/// A copy of an open file.
fn copied(alloc: Global, file: &mut File) -> Result<Memory, Error>
    ensures named { IfErr result (λ e. IsTrue (is_open_error e)) }
    ensures usable { IfOk result (λ copy. IsTrue (memory_is_usable copy)) }
{
    let Ok(metadata) = file.metadata() else {
        return Err(CANNOT_OPEN);
    };
    match copy_of(alloc, file, metadata.len()) {
        Ok(copy) => Ok(copy),
        Err(error) if error.kind() == ErrorKind::OutOfMemory => Err(NO_MEMORY),
        Err(_) => Err(CANNOT_OPEN),
    }
}

/// The name of a file beside a database.
fn name_beside(alloc: Global, name: &str, end: &str) -> Result<String, Error>
    ensures { IfErr result (λ e. IsTrue (is_open_error e)) }
{
    match format!(in alloc; "{}{}", name, end) {
        Ok(beside) => Ok(beside),
        Err(_) => Err(NO_MEMORY),
    }
}

/// Whether SQLite left a rollback journal beside a database, which only it can play back. There is nothing to play back
/// in one that is empty or begins with a zero.
fn has_journal(host: &HostRuntime, name: &str) -> Result<bool, Error>
    ensures { IfErr result (λ e. IsTrue (is_open_error e)) }
{
    let Some(mut journal) = found_file(host, name_beside(host.alloc(), name, "-journal")?.as_str())?
    else {
        return Ok(false);
    };
    let mut first = [0];
    match journal.read(&mut first) {
        Ok(count) => Ok(count == 1 && first[0] != 0),
        Err(_) => Err(CANNOT_OPEN),
    }
}

/// A copy of the log beside a database; an empty one where there is none.
fn copied_log(host: &HostRuntime, name: &str) -> Result<Memory, Error>
    ensures named { IfErr result (λ e. IsTrue (is_open_error e)) }
    ensures usable { IfOk result (λ copy. IsTrue (memory_is_usable copy)) }
{
    match found_file(host, name_beside(host.alloc(), name, "-wal")?.as_str())? {
        Some(mut log) => copied(host.alloc(), &mut log),
        None => Ok(Memory::new(host.alloc())),
    }
}

/// Copies of the database in an open file of this name, and of the log beside it.
fn copied_files(host: &HostRuntime, name: &str, file: &mut File) -> Result<Files<Memory>, Error>
    ensures named { IfErr result (λ e. IsTrue (is_open_error e)) }
    ensures log { IfOk result (λ files. IsTrue (memory_is_usable files.log)) }
    ensures db { IfOk result (λ files. IsTrue (memory_is_usable files.db)) }
{
    lock_database(file)?;
    if has_journal(host, name)? {
        return Err(CANNOT_OPEN);
    }
    let db = copied(host.alloc(), file)?;
    let log = copied_log(host, name)?;
    Ok(Files { log, db })
}

/// Opens a copy, in memory, of the database in the file of this name, with what the log beside it holds. Nothing of the
/// host's is changed: no file is written or made. There is none where the file is missing. An error is one of those of
/// `sqlite`: a node has the database open, the file is no database, has two names or can not be read, SQLite left a
/// rollback journal beside it, or memory is refused.
pub fn open_copy(
    host: &HostRuntime,
    name: &str,
) -> Result<Option<Connection<FileStore<Memory>>>, Error>
    ensures named { IfErr result (λ e. IsTrue (is_open_error e)) }
    ensures opened { IfOk result (λ found. IfSome found (λ c. HasCleanDisk (file_state c) → IsOpened c)) }
    ensures fresh { IfOk result (λ found. IfSome found IsNew) }
{
    let Some(path) = resolved(host, name)? else {
        return Ok(None);
    };
    let Some(mut file) = found_file(host, path.as_str())? else {
        return Ok(None);
    };
    let files = copied_files(host, path.as_str(), &mut file)?;
    match open_files(host.alloc(), files, Options::new(0)) {
        Ok(connection) => Ok(Some(connection)),
        Err((error, _)) => Err(error),
    }
}
