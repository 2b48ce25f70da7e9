//! The changes of a database, each in one transaction.

ghost use Rattle.std.specs.Prelude.{◌≡◌, ◌↔◌, ◌≤◌, length, IsTrue, false, IfOk, OnOk, OnErr};
ghost use Rattle.std.specs.List.{AllByRecursion};
ghost use Rattle.sqlite.specs.State.{HasCleanDisk};
ghost use Rattle.sqlite.specs.Held.{state};
ghost use Rattle.desk_naming.specs.AfterRefusal.{ShowsAsBefore, KeepsFaultsAndLimit};
ghost use Rattle.desk_saved.specs.Causes.{HasNoTransaction};
ghost use Rattle.desk_saved.specs.Changes.{effects, IsSmallStep, IsFitStep, AreApt, SparesAll, StandsBefore};
ghost use Rattle.desk_saved.specs.Transactions.{MakesRows, Transacts};

use crate::changes::{Missing, create_missing};
use crate::steps::{RowStep, run_all};
use desk_log::Saved;
use desk_types::limits::LAST_VIEW;
use sqlite::{Alter, Connection, Error, Transaction};
use std::alloc::Global;

/// The numbers of a saved state that the row of the node holds.
#[derive(Clone, Copy)]
pub(crate) struct Numbers {
    pub(crate) view: u64,
    pub(crate) normal: u64,
    pub(crate) commit: u64,
}

impl Numbers {
    /// Those of a saved state.
    pub(crate) fn of(saved: &Saved) -> Numbers
        ensures value { result ≡ record {
          view = saved.now.view;
          normal = saved.now.normal;
          commit = saved.now.commit;
        } }
        ensures view { result.view ≤ LAST_VIEW }
        ensures normal { result.normal ≤ result.view }
        ensures commit { result.commit ≤ length saved.now.log }
    {
        Numbers {
            view: saved.view(),
            normal: saved.normal(),
            commit: saved.commit(),
        }
    }

    /// Whether they are equal to others.
    pub(crate) fn is_same(self, other: Numbers) -> bool
        ensures { IsTrue result ↔ (self ≡ other) }
    {
        self.view == other.view && self.normal == other.normal && self.commit == other.commit
    }
}

/// What the tables hold of a saved state: so many entries, and the numbers.
#[derive(Clone, Copy)]
pub(crate) struct Stored {
    pub(crate) count: u64,
    pub(crate) numbers: Numbers,
}

/// Makes the tables that are missing, and then steps.
fn write<S: Alter>(
    tx: &mut Transaction<'_, S>,
    alloc: Global,
    missing: Missing,
    steps: &[RowStep<'_, '_>],
) -> Result<(), Error>
    requires small { AllByRecursion IsSmallStep steps.now }
    ensures same_reference { tx.new.conn.ghost_name ≡ tx.old.conn.ghost_name }
    ensures makes { MakesRows S.Store tx.old.conn.now tx.new.conn.now (StandsBefore missing) (AreApt steps.now) result
        (effects steps.now) (SparesAll missing steps.now) }
    ensures fits { OnOk result (AllByRecursion IsFitStep steps.now) }
{
    create_missing(tx, missing)?;
    run_all(tx, alloc, steps)
}

/// Makes the tables that are missing and then steps, in one transaction. `false` where one is open already.
pub(crate) fn in_transaction<S: Alter>(
    conn: &mut Connection<S>,
    alloc: Global,
    missing: Missing,
    steps: &[RowStep<'_, '_>],
) -> Result<bool, Error>
    requires small { AllByRecursion IsSmallStep steps.now }
    ensures done { Transacts S.Store conn.old conn.new (StandsBefore missing) (AreApt steps.now) result
        (effects steps.now)
        (AllByRecursion IsFitStep steps.now) (SparesAll missing steps.now) }
    ensures keeps { KeepsFaultsAndLimit (state S.Store conn.old) (state S.Store conn.new) }
    ensures undone { HasCleanDisk (state S.Store conn.new)
        → OnErr result (ShowsAsBefore (state S.Store conn.old) (state S.Store conn.new)) }
    ensures ended { HasCleanDisk (state S.Store conn.new)
        → OnErr result (HasNoTransaction (state S.Store conn.new)) }
    ensures open_before { IfOk result (λ done. done ≡ false → IsTrue (state S.Store conn.old).in_transaction) }
    ensures busy { IfOk result (λ done. done ≡ false → conn.new ≡ conn.old) }
{
    if !conn.is_autocommit() {
        return Ok(false);
    }
    let mut tx = conn.transaction();
    write(&mut tx, alloc, missing, steps)?;
    tx.commit()?;
    Ok(true)
}
