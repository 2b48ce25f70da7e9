//! The steps of a transaction: a change, or many of one kind.

ghost use Rattle.std.specs.Prelude.{◌≡◌, ◌<◌, ◌^◌, ◌+◌, ◌++◌, length, OnOk};
ghost use Rattle.std.specs.List.{AllByRecursion};
ghost use Rattle.desk_codec.specs.Ranges.{FitsEntries};
ghost use Rattle.desk_saved.specs.Changes.{effects, step_effect, IsSmallStep, IsFitStep, IsAptStep, AreApt, SparesStep};
ghost use Rattle.desk_saved.specs.Clients.{settle, settle_all};
ghost use Rattle.desk_saved.specs.DeskTables.{Keeps, AreKeyed};
ghost use Rattle.desk_saved.specs.File.{rows_from};
ghost use Rattle.desk_saved.specs.Transactions.{MakesRows};

use crate::changes::{RowChange, run};
use crate::transactions::Numbers;
use desk_log::Log;
use desk_types::{ClientId, Entry};
use sqlite::{Alter, Error, Transaction};
use std::alloc::Global;

/// A step of a transaction: a change, or many of one kind. The clients may live shorter than the saved state.
#[derive(Clone, Copy)]
pub(crate) enum RowStep<'s, 'c> {
    One(RowChange<'s>),
    /// Takes out the entries past a place, where none stands past another. Where the two are one, no statement is run.
    CutPast(u64, u64),
    /// Makes the numbers of the node's row others. Where the two are the same, no statement is run.
    SetChanged(Numbers, Numbers),
    /// Puts the rows of entries that stand after so many others.
    AddEntries(u64, &'s [Entry]),
    /// Makes the rows of clients those of their latest entries in a log.
    Settle(&'s Log, &'c [ClientId]),
}

/// Puts the rows of entries that stand after so many others.
fn add_entries<S: Alter>(
    tx: &mut Transaction<'_, S>,
    alloc: Global,
    front: u64,
    more: &[Entry],
) -> Result<(), Error>
    requires small { front + length more.now < 2 ^ 63 }
    ensures same_reference { tx.new.conn.ghost_name ≡ tx.old.conn.ghost_name }
    ensures makes { MakesRows S.Store tx.old.conn.now tx.new.conn.now Keeps (λ _. Unit {0}) result
        (λ rows. record rows { entries = rows.entries ++ rows_from front more.now }) ⊥ }
    ensures fits { OnOk result (FitsEntries more.now) }
{
    let mut place = front;
    for entry in more {
        place += 1;
        run(tx, alloc, &RowChange::AddEntry(place, entry))?;
    }
    Ok(())
}

/// Makes the row of a client that of its latest entry in a log. Where it has none, it gets no row.
fn settle<S: Alter>(
    tx: &mut Transaction<'_, S>,
    alloc: Global,
    log: &Log,
    client: ClientId,
) -> Result<(), Error>
    ensures same_reference { tx.new.conn.ghost_name ≡ tx.old.conn.ghost_name }
    ensures makes { MakesRows S.Store tx.old.conn.now tx.new.conn.now Keeps (λ rows. AreKeyed rows.clients) result
        (λ rows. record rows { clients = settle log.now client rows.clients }) (Unit {0}) }
{
    let id = client.get();
    run(tx, alloc, &RowChange::CutClient(id))?;
    match log.latest(client) {
        None => Ok(()),
        Some(place) => {
            // The length of a log is far below the numbers that a table can't hold.
            let count = log.len();
            prove!(place <= count);
            let number = log.at(place).number.get();
            run(tx, alloc, &RowChange::AddClient(id, number, place))
        }
    }
}

/// Makes the rows of clients those of their latest entries in a log.
fn settle_all<S: Alter>(
    tx: &mut Transaction<'_, S>,
    alloc: Global,
    log: &Log,
    clients: &[ClientId],
) -> Result<(), Error>
    ensures same_reference { tx.new.conn.ghost_name ≡ tx.old.conn.ghost_name }
    ensures makes { MakesRows S.Store tx.old.conn.now tx.new.conn.now Keeps (λ rows. AreKeyed rows.clients) result
        (λ rows. record rows { clients = settle_all log.now clients.now rows.clients }) (Unit {0}) }
{
    for client in clients {
        settle(tx, alloc, log, *client)?;
    }
    Ok(())
}

/// Makes a step.
fn make_step<S: Alter>(
    tx: &mut Transaction<'_, S>,
    alloc: Global,
    step: &RowStep<'_, '_>,
) -> Result<(), Error>
    requires small { IsSmallStep step.now }
    ensures same_reference { tx.new.conn.ghost_name ≡ tx.old.conn.ghost_name }
    ensures makes { MakesRows S.Store tx.old.conn.now tx.new.conn.now Keeps (IsAptStep step.now) result
        (step_effect step.now) (SparesStep step.now) }
    ensures fits { OnOk result (IsFitStep step.now) }
{
    match step {
        RowStep::One(change) => run(tx, alloc, change),
        RowStep::CutPast(front, held) => {
            if *front == *held {
                return Ok(());
            }
            run(tx, alloc, &RowChange::CutEntries(*front))
        }
        RowStep::SetChanged(before, numbers) => {
            if before.is_same(*numbers) {
                return Ok(());
            }
            let set = RowChange::SetNumbers(numbers.view, numbers.normal, numbers.commit);
            run(tx, alloc, &set)
        }
        RowStep::AddEntries(front, more) => add_entries(tx, alloc, *front, more),
        RowStep::Settle(log, clients) => settle_all(tx, alloc, log, clients),
    }
}

/// Makes steps, one after the other.
pub(crate) fn run_all<S: Alter>(
    tx: &mut Transaction<'_, S>,
    alloc: Global,
    steps: &[RowStep<'_, '_>],
) -> Result<(), Error>
    requires small { AllByRecursion IsSmallStep steps.now }
    ensures same_reference { tx.new.conn.ghost_name ≡ tx.old.conn.ghost_name }
    ensures makes { MakesRows S.Store tx.old.conn.now tx.new.conn.now Keeps (AreApt steps.now) result
        (effects steps.now) (AllByRecursion SparesStep steps.now) }
    ensures fits { OnOk result (AllByRecursion IsFitStep steps.now) }
{
    for step in steps {
        make_step(tx, alloc, step)?;
    }
    Ok(())
}
