//! Rows for a keeper of a new node, and for the keeper that goes on over its database where the store failed.

ghost use Rattle.std.specs.Prelude.{◌≡◌};

use super::super::near::{Drives, Serves, drive_database};
use desk_threads::{BoardName, NewHistory};
use desk_types::Domain;
use sqlite::{Alter, Connection};
use std::alloc::Global;
use std::marker::Brand;
use std::sync::Wait;

/// How rows ended.
#[derive(Clone, Copy, PartialEq, Eq)]
pub(super) enum Ended {
    /// All is as the rows say.
    Done,
    /// The store failed at the row of this number.
    Stopped(usize),
    Wrong,
}

/// Rows by which a keeper is driven.
pub(super) trait DrivesRows {
    /// Drives it from the first row on, or from the row of the number at which the store had failed for another.
    fn drive_rows<N: Serves>(&self, alloc: Global, near: N, failed: Option<usize>) -> (N, Ended);
}

/// Rows from the one on at which the store had failed, or from the first, and how they ended.
struct Attempt<'a, D: DrivesRows> {
    rows: &'a D,
    failed: Option<usize>,
    ended: Ended,
}

impl<'a, D: DrivesRows> Drives for Attempt<'a, D> {
    fn drive<N: Serves>(&mut self, alloc: Global, near: N) -> N {
        let (near, ended) = self.rows.drive_rows(alloc, near, self.failed);
        self.ended = ended;
        near
    }
}

/// How the rows end at a keeper over a database, if memory for it is there, and the database.
fn drive_rows_over<D: DrivesRows, B: BoardName, S: Alter + Drop, R: Wait + Drop + Copy>(
    rows: &D,
    rt: R,
    alloc: Global,
    history: NewHistory,
    domain: &Domain,
    connection: Connection<S>,
    failed: Option<usize>,
) -> Option<(Ended, Connection<S>)>
    requires book { history.seen.book ≡ B.book }
    requires domain { domain.now ≡ B.domain }
{
    let mut attempt = Attempt {
        rows,
        failed,
        ended: Ended::Wrong,
    };
    let left = drive_database::<_, B, S, R>(&mut attempt, rt, alloc, history, domain, connection);
    let Attempt {
        rows: _,
        failed: _,
        ended,
    } = attempt;
    match left {
        Some(connection) => Some((ended, connection)),
        None => None,
    }
}

/// Whether all rows are done, where one keeper's ended so; where the store failed, by a keeper that goes on over its
/// database.
fn is_done_after<D: DrivesRows, B: BoardName, S: Alter + Drop, R: Wait + Drop + Copy>(
    driver: &D,
    rt: R,
    alloc: Global,
    history: NewHistory,
    domain: &Domain,
    connection: Connection<S>,
    ended: Ended,
) -> bool
    requires book { history.seen.book ≡ B.book }
    requires domain { domain.now ≡ B.domain }
{
    let Ended::Stopped(at) = ended else {
        drop(connection);
        return ended == Ended::Done;
    };
    match drive_rows_over::<D, B, S, R>(driver, rt, alloc, history, domain, connection, Some(at)) {
        Some((ended, connection)) => {
            drop(connection);
            ended == Ended::Done
        }
        None => false,
    }
}

/// Whether all rows are done at last, if memory for a keeper is there.
fn is_done<D: DrivesRows, A: BoardName, B: BoardName, S: Alter + Drop, R: Wait + Drop + Copy>(
    driver: &D,
    rt: R,
    alloc: Global,
    histories: (NewHistory, NewHistory),
    domain: &Domain,
    connection: Connection<S>,
) -> bool
    requires book_0 { histories.0.seen.book ≡ A.book }
    requires book_1 { histories.1.seen.book ≡ B.book }
    requires domain_0 { domain.now ≡ A.domain }
    requires domain_1 { domain.now ≡ B.domain }
{
    let (history, next) = histories;
    match drive_rows_over::<D, A, S, R>(driver, rt, alloc, history, domain, connection, None) {
        Some((ended, connection)) => {
            is_done_after::<D, B, S, R>(driver, rt, alloc, next, domain, connection, ended)
        }
        None => true,
    }
}

/// The same of a new node, if memory for that is there.
pub(super) fn is_done_in_memory<D: DrivesRows, R: Wait + Drop + Copy>(
    driver: &D,
    rt: R,
    alloc: Global,
) -> bool {
    let (Ok(domain), Ok(connection)) = (
        Domain::new(alloc, "desk.example"),
        Connection::open_in_memory(alloc),
    ) else {
        return true;
    };
    let histories = (NewHistory::new(), NewHistory::new());
    is_done::<D, Brand, Brand, _, R>(driver, rt, alloc, histories, &domain, connection)
}
