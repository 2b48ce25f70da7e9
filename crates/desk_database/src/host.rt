//! The opening of a database in a file of the host.

ghost use Rattle.std.specs.Prelude.{◌≡◌, codes, true, false, Err, IsTrue, IfOk, IfErr};
ghost use Rattle.sqlite_std_file.specs.File.{file_is_usable, IsFresh};
ghost use Rattle.sqlite_store.specs.FileStore.{view};
ghost use Rattle.sqlite.specs.State.{HasCleanDisk};
ghost use Rattle.sqlite.specs.Held.{IsNew};
ghost use Rattle.sqlite.specs.Opening.{is_open_error};
ghost use Rattle.sqlite.specs.Files.{file_state, IsOpened};

use crate::opening::open_files;
use sqlite::{
    Connection, Error, ErrorCode, File, FileFrom, FileStore, Files, Options, Start, Unknown,
};
use sqlite_std_file::OpenError;
use std::hash::{BuildHasher, RandomState};
use std::io::ErrorKind;

pub(crate) const CANNOT_OPEN: Error = Error::SqliteFailure(ErrorCode::CannotOpen);

pub(crate) const NO_MEMORY: Error = Error::SqliteFailure(ErrorCode::OutOfMemory);

/// The file of this name and the log beside it, locked, and made where they are missing. As in `sqlite`, `:memory:` and
/// a URI are refused.
fn host_files<S: Start>(
    host: &HostRuntime,
    name: &str,
    start: S,
) -> Result<Files<FileFrom<S>>, Error>
    ensures memory { name.now ≡ codes ":memory:" → result ≡ Err (Error.SqliteFailure ErrorCode.CannotOpen) }
    ensures named { IfErr result (λ e. IsTrue (is_open_error e)) }
    ensures usable { IfOk result (λ files. IsTrue (file_is_usable S.Start files.log)
        × IsTrue (file_is_usable S.Start files.db)) }
    ensures fresh { IfOk result (λ files. IsFresh true files.log × IsFresh false files.db) }
{
    if name == ":memory:" || name.starts_with("file:") {
        return Err(CANNOT_OPEN);
    }
    match sqlite_std_file::open(host, name, start) {
        Ok(files) => Ok(files),
        Err(OpenError::OutOfMemory) => Err(NO_MEMORY),
        Err(OpenError::Busy) => Err(Error::SqliteFailure(ErrorCode::DatabaseBusy)),
        Err(OpenError::Io(error)) if error.kind() == ErrorKind::OutOfMemory => Err(NO_MEMORY),
        Err(_) => Err(CANNOT_OPEN),
    }
}

/// What a connection is opened with: a number that is drawn at random, for the log beside the file.
fn options(host: &HostRuntime) -> Result<Options, Error>
    ensures { IfErr result (λ e. e ≡ Error.SqliteFailure ErrorCode.CannotOpen) }
{
    let seed = RandomState::new(host)
        .map_err(|_| CANNOT_OPEN)?
        .hash_one(&0u8);
    Ok(Options::new(seed))
}

/// Opens the database in the file of this name, as `sqlite` opens one, and makes the file where it is missing: a new
/// one with pages of `NEW_PAGE_BYTES` bytes. An error is one of those of `sqlite`: the file is in use, is no database,
/// can not be opened, read or written, or memory is refused.
// The only function here over the files of the host: each proof of such a one goes over all parts of their store.
pub fn open_database(host: &HostRuntime, name: &str) -> Result<Connection<FileStore<File>>, Error>
    ensures memory { name.now ≡ codes ":memory:" → result ≡ Err (Error.SqliteFailure ErrorCode.CannotOpen) }
    ensures named { IfErr result (λ e. IsTrue (is_open_error e)) }
    ensures opened { IfOk result (λ c. HasCleanDisk (file_state c) → IsOpened c) }
    ensures plain { IfOk result (λ c. HasCleanDisk (file_state c) → (view c.store).has_sums ≡ false) }
    ensures fresh { IfOk result IsNew }
    ensures guarded { IfOk result (λ c. HasCleanDisk (file_state c) → (file_state c).IsShielded) }
{
    let options = match options(host) {
        Ok(options) => options,
        Err(error) => return Err(error),
    };
    let files = match host_files(host, name, Unknown) {
        Ok(files) => files,
        Err(error) => return Err(error),
    };
    match open_files(host.alloc(), files, options) {
        Ok(mut connection) => {
            connection.set_clock(host);
            Ok(connection)
        }
        Err((error, _)) => Err(error),
    }
}
