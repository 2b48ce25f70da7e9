//! The table that marks a database as the file of an epoch.

ghost use Rattle.std.specs.Prelude.{◌≡◌, ◌⊎◌, IsTrue, IfOk, IfErr, MatchOption};
ghost use Rattle.sqlite.specs.State.{HasCleanDisk};
ghost use Rattle.sqlite.specs.Held.{state};
ghost use Rattle.desk_types.specs.declared.refusal.Refusal.TheVariants as refusals;
ghost use Rattle.desk_naming.specs.AfterRefusal.{KeepsFaultsAndLimit};
ghost use Rattle.desk_saved.specs.Opening.{IsOpeningRefusal};
ghost use Rattle.desk_file.specs.EpochTable.{HasNoEpochTable, IsNoEpoch, IsOfEpoch, ShowsEpoch, ShowsNoEpoch};
ghost use Rattle.desk_file.specs.EpochTable.{epoch_rows};

use desk_types::Refusal;
use sqlite::{Alter, Connection, Error, ErrorCode, Row};

/// The epoch whose number rows are. Rows that are those of no epoch are refused (`WrongFile`).
fn epoch_among(rows: &[Row]) -> Result<u64, Refusal>
    ensures found { IfOk result (λ epoch. rows.now ≡ epoch_rows epoch) }
    ensures other { IfErr result (λ r. r ≡ refusals.WrongFile → IsNoEpoch rows.now) }
    ensures fault { IfErr result (λ r. (r ≡ refusals.WrongFile) ⊎ (r ≡ refusals.WantOfMemory)) }
{
    if rows.len() != 1 || rows[0].column_count() != 1 {
        return Err(Refusal::WrongFile);
    }
    match rows[0].get::<u64>(0) {
        Ok(epoch) => Ok(epoch),
        Err(Error::SqliteFailure(ErrorCode::OutOfMemory)) => Err(Refusal::WantOfMemory),
        Err(_) => Err(Refusal::WrongFile),
    }
}

/// The epoch as whose file a database is marked; nothing where it has no table `epoch`. Other rows than the one of an
/// epoch are refused (`WrongFile`), and so is a growth for which memory is refused (`WantOfMemory`). Any fault of the
/// database is `StoreFault`. Nothing is changed.
pub fn marked_epoch<S: Alter>(connection: &mut Connection<S>) -> Result<Option<u64>, Refusal>
    ensures found { HasCleanDisk (state S.Store connection.new) → IfOk result (λ found. MatchOption found
        (HasNoEpochTable S.Store connection.old connection.new)
        (ShowsEpoch S.Store connection.old connection.new)) }
    ensures other { HasCleanDisk (state S.Store connection.new) → IfErr result (λ r. r ≡ refusals.WrongFile
        → ShowsNoEpoch S.Store connection.old connection.new) }
    ensures keeps { KeepsFaultsAndLimit (state S.Store connection.old) (state S.Store connection.new) }
    ensures fault { IfErr result IsOpeningRefusal }
{
    let rows = match connection.query_all("SELECT number FROM epoch", &[]) {
        Ok(rows) => rows,
        Err(Error::SqlInputError(_)) => return Ok(None),
        Err(_) => return Err(Refusal::StoreFault),
    };
    match epoch_among(rows.as_slice()) {
        Ok(epoch) => Ok(Some(epoch)),
        Err(refusal) => Err(refusal),
    }
}

/// Whether a database is the file of an epoch, by its mark: that of the first epoch has no table `epoch`, or one of
/// other rows. A refused growth is `WantOfMemory`, and any fault of the database `StoreFault`. Nothing is changed.
pub fn is_of_epoch<S: Alter>(connection: &mut Connection<S>, epoch: u64) -> Result<bool, Refusal>
    ensures marked { HasCleanDisk (state S.Store connection.new) → IfOk result (λ is. IsTrue is
        → IsOfEpoch S.Store connection.old connection.new epoch) }
    ensures fault { IfErr result (λ r. (r ≡ refusals.StoreFault) ⊎ (r ≡ refusals.WantOfMemory)) }
{
    match marked_epoch(connection) {
        Ok(Some(found)) => Ok(found == epoch && epoch > 0),
        Ok(None) => Ok(epoch == 0),
        Err(refusal) => match &refusal {
            Refusal::WrongFile => Ok(epoch == 0),
            _ => Err(refusal),
        },
    }
}
