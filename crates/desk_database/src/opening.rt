//! The opening of a database over two files.

ghost use Rattle.std.specs.Prelude.{◌≡◌, ◌⊎◌, false, IsTrue, IfOk, IfErr};
ghost use Rattle.sqlite_store.specs.FileStore.{view};
ghost use Rattle.sqlite_disk.specs.declared.Files.{Files as Pair};
ghost use Rattle.sqlite_wal.specs.Reads.{OnlyReads};
ghost use Rattle.sqlite.specs.State.{HasCleanDisk};
ghost use Rattle.sqlite.specs.Held.{IsNew};
ghost use Rattle.sqlite.specs.Opening.{is_open_error};
ghost use Rattle.sqlite.specs.Files.{file_state, image_of, tally_left, IsBlankAs, IsCleanLeft, IsOpened};
ghost use Rattle.desk_database.specs.NewFile.{IsUnmade};
ghost use Rattle.desk_database.specs.Opening.{Finds, FailsToOpen, LeavesOpening};

use crate::errors::named_error;
use crate::making::{is_unmade, new_database};
use sqlite::{Connection, Error, FileStore, Files, Leftover, Options};
use sqlite_disk::{Disk, Tally};
use std::alloc::Global;

/// What the files met that are left of an open.
fn tally_of<D: Disk>(left: &Leftover<D>) -> Tally
    ensures { result ≡ tally_left left.now }
{
    match left {
        Leftover::Files(files) => files.tally(),
        Leftover::Unopened(files) => files.tally(),
        Leftover::Store(store) => store.tally(),
    }
}

/// Opens the database that the files hold, as `sqlite` does, with the pages that they have. Where they hold none yet,
/// it makes an empty one with pages of `NEW_PAGE_BYTES` bytes: also where an earlier open was stopped while it made it.
pub fn open_files<D: Disk + Drop>(
    alloc: Global,
    mut files: Files<D>,
    options: Options,
) -> Result<Connection<FileStore<D>>, (Error, Leftover<D>)>
    requires log { IsTrue (D.Disk.is_usable files.log) }
    requires db { IsTrue (D.Disk.is_usable files.db) }
    ensures named { IfErr result (λ e. IsTrue (is_open_error e.0)) }
    ensures opened { IfOk result (λ c. HasCleanDisk (file_state c) → IsOpened c) }
    ensures found { IfOk result (λ c. HasCleanDisk (file_state c) → Finds files c) }
    ensures plain { IfOk result (λ c. HasCleanDisk (file_state c)
        → IsUnmade (image_of D.Disk files) ⊎ IsBlankAs false (image_of D.Disk files)
        → (view c.store).has_sums ≡ false) }
    ensures fresh { IfOk result IsNew }
    ensures guarded { IfOk result (λ c. HasCleanDisk (file_state c) → (file_state c).IsShielded) }
    ensures cause { IfErr result (λ e. IsCleanLeft e.1 → (read : Pair D) × OnlyReads D.Disk files.log read.log
        × OnlyReads D.Disk files.db read.db × FailsToOpen files read e.1 e.0) }
    ensures unharmed { IfErr result (λ e. IsCleanLeft e.1 → LeavesOpening files e.1) }
{
    let before = files.tally();
    let is_new = match is_unmade(alloc, &mut files) {
        Ok(is_new) => is_new,
        Err(error) => {
            let now = files.tally();
            return Err((named_error(before, now, error), Leftover::Files(files)));
        }
    };
    if !is_new {
        return match Connection::open_files(alloc, files, options) {
            Ok(connection) => Ok(connection),
            Err(failed) => Err(failed),
        };
    }
    match new_database(alloc, files, options) {
        Ok(connection) => Ok(connection),
        Err((error, left)) => {
            let now = tally_of(&left);
            Err((named_error(before, now, error), left))
        }
    }
}
