//! Whether a node's first epoch is over, by its first file.

ghost use Rattle.std.specs.Prelude.{◌≡◌, ℤ, IsTrue, IfOk, IfErr};
ghost use Rattle.sqlite.specs.State.{HasCleanDisk};
ghost use Rattle.sqlite.specs.Held.{Held, state};
ghost use Rattle.desk_types.specs.declared.refusal.Refusal.TheVariants as refusals;
ghost use Rattle.desk_file.specs.EpochEnd.{ShowsEnd};

use desk_types::Refusal;
use desk_types::limits::LOG_ENTRIES;
use sqlite::types::ValueRef;
use sqlite::{Alter, Connection};

/// How many places the epochs of a node have: those of its table `member`, or of a full log where it has none.
fn places_of<S: Alter>(connection: &mut Connection<S>) -> u64 {
    let Ok(rows) = connection.query_all("SELECT places FROM member", &[]) else {
        return LOG_ENTRIES;
    };
    match rows.first() {
        Some(row) => row.get::<u64>(0).unwrap_or(LOG_ENTRIES),
        None => LOG_ENTRIES,
    }
}

/// Whether the last entry that a database has committed ends an epoch of so many places: it has the last place or a
/// later one, or is a `replace`, whose body begins with the byte 0x11. A fault of the database is `StoreFault`. Nothing
/// is changed.
fn ends_at<S: Alter>(connection: &mut Connection<S>, places: i64) -> Result<bool, Refusal>
    ensures ended { HasCleanDisk (state S.Store connection.new) → IfOk result (λ ends. IsTrue ends
        → ShowsEnd S.Store places connection.old connection.new) }
    ensures fault { IfErr result (λ r. r ≡ refusals.StoreFault) }
{
    match connection.query_all(
        "SELECT place FROM node, entry WHERE place = commit_no AND (place >= ?1 OR (body >= x'11' AND body < x'12'))",
        &[ValueRef::Int(places)],
    ) {
        Ok(rows) => Ok(!rows.is_empty()),
        Err(_) => Err(Refusal::StoreFault),
    }
}

/// Whether what a first file has committed ends the first epoch of its node. A fault of the database is `StoreFault`.
/// Nothing is changed.
pub(crate) fn has_ended<S: Alter>(connection: &mut Connection<S>) -> Result<bool, Refusal>
    ensures ended { HasCleanDisk (state S.Store connection.new) → IfOk result (λ ended. IsTrue ended
        → (places : ℤ) × (before : Held S) × ShowsEnd S.Store places before connection.new) }
    ensures fault { IfErr result (λ r. r ≡ refusals.StoreFault) }
{
    let Ok(places) = i64::try_from(places_of(connection)) else {
        return Ok(false);
    };
    ends_at(connection, places)
}
