//! The making of a database in files that hold none.

ghost use Rattle.std.specs.Prelude.{◌≡◌, ◌≤◌, ◌↔◌, [], false, IsTrue, IfOk, IfErr, ⊤};
ghost use Rattle.sqlite_wal.specs.PageSize.{bytes_of};
ghost use Rattle.sqlite_wal.specs.Reads.{AreClean, OnlyReads};
ghost use Rattle.sqlite_store.specs.FileStore.{view, is_shielded};
ghost use Rattle.sqlite_store.specs.Unopened.{state_of, files_of, wanted_by};
ghost use Rattle.sqlite.specs.State.{HasCleanDisk};
ghost use Rattle.sqlite.specs.Held.{IsNew};
ghost use Rattle.sqlite.specs.Opening.{is_open_error, FailsFor};
ghost use Rattle.sqlite.specs.Files.{file_state, faults_of, faults_left, image_of};
ghost use Rattle.sqlite.specs.Files.{IsCleanLeft, IsEmpty, IsFullLeft, IsOpened, IsTooLong};
ghost use Rattle.desk_database.specs.NewFile.{new_page_bytes, IsUnmade, IsNewStore, LeavesUnmade};

use crate::errors::{blurred, making_error, probe_error};
use sqlite::{Connection, Error, ErrorCode, FileStore, Files, Leftover, Options};
use sqlite_disk::Disk;
use sqlite_pager::{PageSize, Pager};
use sqlite_pool::probe_blank;
use sqlite_store::Unopened;
use std::alloc::{AllocFailed, Global};

/// How many bytes a page of a new file has. A save writes whole pages, so small ones make it short.
pub const NEW_PAGE_BYTES: usize = 1024;

/// The size of the pages of a new file.
fn new_page_size() -> PageSize
    ensures { bytes_of result ≡ new_page_bytes }
{
    PageSize::new(NEW_PAGE_BYTES).unwrap()
}

/// Whether the files hold no database yet, so that one is to be made. Nothing is written.
pub(crate) fn is_unmade<D: Disk>(alloc: Global, files: &mut Files<D>) -> Result<bool, Error>
    requires log { IsTrue (D.Disk.is_usable files.old.log) }
    requires db { IsTrue (D.Disk.is_usable files.old.db) }
    ensures named { IfErr result (λ e. IsTrue (is_open_error e)) }
    ensures ok { IfOk result (λ b. AreClean D.Disk files.new.log files.new.db
        → (IsTrue b ↔ IsUnmade (image_of D.Disk files.old))) }
    ensures counts { faults_of D.Disk files.old ≤ faults_of D.Disk files.new }
    ensures cause { IfErr result (λ e. AreClean D.Disk files.new.log files.new.db
        → FailsFor (faults_of D.Disk files.old) (faults_of D.Disk files.new)
        (IsTooLong (image_of D.Disk files.old)) ⊤ e) }
    ensures log { OnlyReads D.Disk files.old.log files.new.log }
    ensures db { OnlyReads D.Disk files.old.db files.new.db }
{
    match probe_blank(alloc, files, new_page_size(), false) {
        Ok(is_blank) => Ok(is_blank),
        Err(error) => Err(probe_error(error)),
    }
}

/// The files, of which nothing is known yet, with pages of a new file. Without memory they are given back.
fn unopened<D: Disk>(
    alloc: Global,
    files: Files<D>,
    options: Options,
) -> Result<Unopened<D>, Files<D>>
    ensures back { IfErr result (λ left. (left.log ≡ files.log) × (left.db ≡ files.db)) }
    ensures files { IfOk result (λ it. files_of it ≡ (files.log, files.db)) }
    ensures pages { IfOk result (λ it. (state_of it).page_size ≡ new_page_bytes) }
    ensures none { IfOk result (λ it. wanted_by it ≡ []) }
{
    let pager = match Pager::new(alloc, files, new_page_size(), options) {
        Ok(pager) => pager,
        Err(AllocFailed { value }) => return Err(value),
    };
    match Unopened::new(alloc, pager, &[]) {
        Ok(fresh) => Ok(fresh),
        Err(AllocFailed { value }) => Err(value.close()),
    }
}

/// Makes an empty database in files that hold none, with pages of `NEW_PAGE_BYTES` bytes. A stop at any moment leaves
/// no database yet, which the next open makes, or the whole one.
pub(crate) fn new_store<D: Disk>(
    alloc: Global,
    files: Files<D>,
    options: Options,
) -> Result<FileStore<D>, (Error, Leftover<D>)>
    requires log { IsTrue (D.Disk.is_usable files.log) }
    requires db { IsTrue (D.Disk.is_usable files.db) }
    requires unmade { AreClean D.Disk files.log files.db → IsUnmade (image_of D.Disk files) }
    ensures named { IfErr result (λ e. IsTrue (is_open_error e.0)) }
    ensures guarded { IfOk result (λ store. IsTrue (view store).is_clean → is_shielded store) }
    ensures ok { IfOk result (λ store. IsTrue (view store).is_clean → IsNewStore files store) }
    ensures plain { IfOk result (λ store. IsTrue (view store).is_clean → (view store).has_sums ≡ false) }
    ensures falls { IfErr result (λ e. IsCleanLeft e.1 → AreClean D.Disk files.log files.db) }
    ensures cause { IfErr result (λ e. IsCleanLeft e.1
        → FailsFor (faults_of D.Disk files) (faults_left e.1) (IsFullLeft e.1) ⊤ e.0) }
    ensures unharmed { IfErr result (λ e. IsCleanLeft e.1 → LeavesUnmade files e.1) }
{
    let fresh = match unopened(alloc, files, options) {
        Ok(fresh) => fresh,
        Err(files) => {
            return Err((
                Error::SqliteFailure(ErrorCode::OutOfMemory),
                Leftover::Files(files),
            ));
        }
    };
    match fresh.create() {
        Ok(store) => Ok(store),
        Err((error, left)) => Err((making_error(error), Leftover::Unopened(left))),
    }
}

/// The same, with a connection to that database. A failure of the disk is not named yet.
pub(crate) fn new_database<D: Disk + Drop>(
    alloc: Global,
    files: Files<D>,
    options: Options,
) -> Result<Connection<FileStore<D>>, (Error, Leftover<D>)>
    requires log { IsTrue (D.Disk.is_usable files.log) }
    requires db { IsTrue (D.Disk.is_usable files.db) }
    requires unmade { AreClean D.Disk files.log files.db → IsUnmade (image_of D.Disk files) }
    ensures named { IfErr result (λ e. IsTrue (is_open_error e.0)) }
    ensures opened { IfOk result (λ c. HasCleanDisk (file_state c) → IsOpened c) }
    ensures honest { IfOk result (λ c. HasCleanDisk (file_state c) → AreClean D.Disk files.log files.db) }
    ensures empty { IfOk result (λ c. HasCleanDisk (file_state c) → IsEmpty (file_state c).committed.trees) }
    ensures plain { IfOk result (λ c. HasCleanDisk (file_state c) → (view c.store).has_sums ≡ false) }
    ensures fresh { IfOk result IsNew }
    ensures guarded { IfOk result (λ c. HasCleanDisk (file_state c) → (file_state c).IsShielded) }
    ensures falls { IfErr result (λ e. IsCleanLeft e.1 → AreClean D.Disk files.log files.db) }
    ensures cause { IfErr result (λ e. IsCleanLeft e.1
        → FailsFor (faults_of D.Disk files) (faults_left e.1) (IsFullLeft e.1) ⊤ e.0) }
    ensures unharmed { IfErr result (λ e. IsCleanLeft e.1 → LeavesUnmade files e.1) }
{
    let store = match new_store(alloc, files, options) {
        Ok(store) => store,
        Err(failed) => return Err(failed),
    };
    match Connection::over(alloc, store) {
        Ok(connection) => Ok(connection),
        Err((error, store)) => Err((blurred(error), Leftover::Store(store))),
    }
}
