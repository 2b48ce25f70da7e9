//! The table that marks a database as the file of an epoch: how it is made.

ghost use Rattle.std.specs.Prelude.{◌≡◌, ◌⊎◌, IsTrue, IfOk, IfErr, OnOk};
ghost use Rattle.sqlite.specs.State.{HasCleanDisk};
ghost use Rattle.sqlite.specs.Held.{Held, state};
ghost use Rattle.desk_types.specs.declared.refusal.Refusal.TheVariants as refusals;
ghost use Rattle.desk_file.specs.EpochTable.{ShowsEpoch, ShowsOther};
ghost use Rattle.desk_epoch_files.specs.Causes.{BlamesFile};

use crate::cause::{Cause, table_cause};
use crate::new_table::make_table;
use desk_file::marked_epoch;
use desk_types::Refusal;
use sqlite::types::ValueRef;
use sqlite::{Alter, Connection};

/// Whether a database is marked as the file of an epoch. One that is marked as another's, or whose table has other
/// rows, is refused (`OtherEpoch`).
pub(crate) fn is_marked<S: Alter>(connection: &mut Connection<S>, epoch: u64) -> Result<bool, Cause>
    ensures marked { HasCleanDisk (state S.Store connection.new) → IfOk result (λ is. IsTrue is
        → ShowsEpoch S.Store connection.old connection.new epoch) }
    ensures other { HasCleanDisk (state S.Store connection.new) → IfErr result (λ cause.
        BlamesFile cause → ShowsOther S.Store connection.old connection.new epoch) }
{
    match marked_epoch(connection) {
        Ok(Some(found)) if found == epoch => Ok(true),
        Ok(Some(_)) => Err(Cause::OtherEpoch),
        Ok(None) => Ok(false),
        Err(refusal) => Err(table_cause(&refusal)),
    }
}

/// Marks a database that has no table `epoch` as the file of an epoch, in one transaction, and reads the mark. Any
/// fault of the database is `StoreFault`, and a refused growth of the desk's own `WantOfMemory`.
pub(crate) fn mark_epoch<S: Alter>(
    connection: &mut Connection<S>,
    epoch: u64,
) -> Result<(), Refusal>
    ensures marked { OnOk result (HasCleanDisk (state S.Store connection.new) → (before : Held S)
        × ShowsEpoch S.Store before connection.new epoch) }
    ensures fault { IfErr result (λ r. (r ≡ refusals.StoreFault) ⊎ (r ≡ refusals.WantOfMemory)) }
{
    let Ok(number) = i64::try_from(epoch) else {
        return Err(Refusal::StoreFault);
    };
    let Ok(()) = make_table(
        connection,
        "CREATE TABLE epoch (number INTEGER PRIMARY KEY)",
        "INSERT INTO epoch VALUES (?1)",
        &[ValueRef::Int(number)],
    ) else {
        return Err(Refusal::StoreFault);
    };
    match marked_epoch(connection) {
        Ok(Some(found)) if found == epoch => Ok(()),
        Ok(_) => Err(Refusal::StoreFault),
        Err(refusal) => {
            refusal.unless_of_memory()?;
            Err(Refusal::StoreFault)
        }
    }
}
