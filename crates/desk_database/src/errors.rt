//! Why a database is not opened, in the words of `sqlite`.

ghost use Rattle.std.specs.Prelude.{◌≡◌, IsTrue};
ghost use Rattle.sqlite.specs.Opening.{is_open_error, reported, probed, blurred, renamed};
ghost use Rattle.sqlite_store.specs.Report.{named};

use sqlite::{Error, ErrorCode};
use sqlite_disk::Tally;
use sqlite_store::{OpenError, name_fault};
use sqlite_trees::error::StoreError;

/// The error of a look at the files, before anything is written.
pub(crate) fn probe_error(error: sqlite_wal::Error) -> Error
    ensures named { IsTrue (is_open_error result) }
    ensures value { result ≡ probed error }
{
    Error::SqliteFailure(match error {
        sqlite_wal::Error::OutOfMemory => ErrorCode::OutOfMemory,
        sqlite_wal::Error::Io(_) => ErrorCode::SystemIoFailure,
        sqlite_wal::Error::Full => ErrorCode::DiskFull,
        _ => ErrorCode::NotADatabase,
    })
}

/// The error of the making of a database.
pub(crate) fn making_error(error: OpenError) -> Error
    ensures named { IsTrue (is_open_error result) }
    ensures value { result ≡ reported error }
{
    Error::SqliteFailure(match error {
        OpenError::OutOfMemory => ErrorCode::OutOfMemory,
        OpenError::Io => ErrorCode::SystemIoFailure,
        OpenError::Full => ErrorCode::DiskFull,
        OpenError::Refused => ErrorCode::DatabaseCorrupt,
    })
}

/// Each failure of the disk as one error, which is named once the files are at hand.
pub(crate) fn blurred(error: Error) -> Error
    ensures named { IsTrue (is_open_error error) → IsTrue (is_open_error result) }
    ensures value { result ≡ blurred error }
{
    match error {
        Error::SqliteFailure(ErrorCode::DatabaseCorrupt | ErrorCode::DiskFull) => {
            Error::SqliteFailure(ErrorCode::SystemIoFailure)
        }
        other => other,
    }
}

/// The error, where a failure of the disk is named by what the files met.
pub(crate) fn named_error(before: Tally, now: Tally, error: Error) -> Error
    ensures named { IsTrue (is_open_error error) → IsTrue (is_open_error result) }
    ensures value { result ≡ renamed (named before now) error }
{
    match error {
        Error::SqliteFailure(ErrorCode::SystemIoFailure) => {
            Error::SqliteFailure(match name_fault(before, now) {
                StoreError::Corrupt => ErrorCode::DatabaseCorrupt,
                StoreError::Full => ErrorCode::DiskFull,
                _ => ErrorCode::SystemIoFailure,
            })
        }
        other => other,
    }
}
