//! The saved state of a node in the three tables of a database.

ghost use Rattle.std.specs.Prelude.{◌≡◌, ◌≤◌, length, take, IsTrue, true, false, Err, IsErr, IfOk, IfErr};
ghost use Rattle.sqlite.specs.State.{IsLive};
ghost use Rattle.sqlite.specs.Held.{state};
ghost use Rattle.desk_types.specs.declared.refusal.Refusal.TheVariants as refusals;
ghost use Rattle.desk_naming.specs.Contents.{schema_of};
ghost use Rattle.desk_saved.specs.File.{HasNoTable};
ghost use Rattle.desk_saved.specs.Growth.{HasGrown, HasNotGrown};
ghost use Rattle.desk_saved.specs.NewTables.{HasRoomForTables};
ghost use Rattle.desk_saved.specs.OldFile.{HasOldTables};
ghost use Rattle.desk_saved.specs.Loading.{HasLoaded};
ghost use Rattle.desk_saved.specs.Opening.{HasOpened, HasRefused};
ghost use Rattle.desk_saved.specs.Saving.{HasSaved};
ghost use Rattle.desk_saved.specs.SchemaRefusals.{HasTables, IsReferredTo, IsDeskSchema};

use crate::changes::{Missing, RowChange};
use crate::last_saved::{LastSaved, all_clients, entries_after};
use crate::load::load_state;
use crate::old_file::load_old;
use crate::schema::{can_grow, is_desk, is_old_desk, refusal_of};
use crate::steps::RowStep;
use crate::transactions::{Numbers, in_transaction};
use desk_log::Saved;
use desk_types::{Owner, Refusal};
use sqlite::{Alter, Connection};
use std::alloc::Global;
use std::marker::Model;

/// Why an open is refused, with the connection.
#[derive(Drop)]
pub struct OpenRefused<S: Alter> {
    pub connection: Connection<S>,
    pub refusal: Refusal,
}

/// The saved state of a node in the three tables of a database, and the state that it saved last. The connection stands
/// in a block of memory of its own, so that what holds it moves as a few words.
pub struct SavedState<S: Alter> {
    connection: Box<Connection<S>>,
    owner: Owner,
    last: LastSaved,
    stopped: bool,
    alloc: Global,
}

// Written out, so that callers need not prove each part's drop.
impl<S: Alter + Drop> Drop for SavedState<S> {
    fn drop(self) {
        let SavedState {
            connection: _,
            owner: _,
            last: _,
            stopped: _,
            alloc: _,
        } = self;
    }
}

impl<S: Alter> Model for SavedState<S> {
    ghost use Rattle.desk_saved.specs.Store.{StoreValue, store_code};

    ghost Value = { StoreValue S };

    ghost coded = { store_code S.code };

    ghost view = { λ s. record {
      connection = s.connection.value;
      owner = s.owner;
      last = s.last;
      stopped = s.stopped;
    } };
}

/// Opens the three tables that are there.
fn open_there<S: Alter>(
    alloc: Global,
    mut connection: Connection<S>,
    owner: Owner,
) -> Result<SavedState<S>, OpenRefused<S>>
    requires live { IsLive (state S.Store connection) }
    ensures opened { IsDeskSchema (schema_of S.Store connection)
        → IfOk result (HasOpened S.Store connection owner) }
    ensures refused { IsDeskSchema (schema_of S.Store connection)
        → IfErr result (λ e. HasRefused S.Store connection owner e.connection e.refusal) }
{
    if !connection.is_autocommit() {
        return Err(OpenRefused {
            connection,
            refusal: Refusal::StoreFault,
        });
    }
    match load_state(&mut connection, alloc, &owner) {
        Ok(Some(last)) => match Box::new(alloc, connection) {
            Ok(connection) => Ok(SavedState {
                connection,
                owner,
                last,
                stopped: false,
                alloc,
            }),
            Err(refused) => Err(OpenRefused {
                connection: refused.value,
                refusal: Refusal::WantOfMemory,
            }),
        },
        Ok(None) => Err(OpenRefused {
            connection,
            refusal: Refusal::WrongFile,
        }),
        Err(refusal) => Err(OpenRefused {
            connection,
            refusal,
        }),
    }
}

/// Makes a file of version 1, whose tables have the rows of the state, one of version 2.
fn grow_found<S: Alter>(
    alloc: Global,
    connection: Connection<S>,
    owner: Owner,
    last: LastSaved,
) -> Result<SavedState<S>, OpenRefused<S>>
    ensures grown { IfOk result (HasGrown S.Store connection owner last) }
    ensures refused { IfErr result (λ e. HasNotGrown S.Store connection owner last e.connection e.refusal) }
{
    let clients = match all_clients(alloc, last.log()) {
        Ok(clients) => clients,
        Err(_) => {
            return Err(OpenRefused {
                connection,
                refusal: Refusal::WantOfMemory,
            });
        }
    };
    let mut connection = match Box::new(alloc, connection) {
        Ok(connection) => connection,
        Err(refused) => {
            return Err(OpenRefused {
                connection: refused.value,
                refusal: Refusal::WantOfMemory,
            });
        }
    };
    let grown = in_transaction(
        &mut *connection,
        alloc,
        Missing::Clients,
        &[
            RowStep::Settle(last.log(), clients.as_slice()),
            RowStep::One(RowChange::SetVersion),
        ],
    );
    match grown {
        Ok(true) => Ok(SavedState {
            connection,
            owner,
            last,
            stopped: false,
            alloc,
        }),
        _ => Err(OpenRefused {
            connection: Box::into_inner(connection),
            refusal: Refusal::StoreFault,
        }),
    }
}

/// Opens the two tables of a file of version 1, and makes it one of version 2. It looks at the rows before anything is
/// made.
fn open_old<S: Alter>(
    alloc: Global,
    mut connection: Connection<S>,
    owner: Owner,
) -> Result<SavedState<S>, OpenRefused<S>>
    requires live { IsLive (state S.Store connection) }
    ensures opened { HasOldTables (schema_of S.Store connection)
        → IfOk result (HasOpened S.Store connection owner) }
    ensures refused { HasOldTables (schema_of S.Store connection)
        → IfErr result (λ e. HasRefused S.Store connection owner e.connection e.refusal) }
{
    let is_settled = connection.is_autocommit();
    if !is_settled {
        return Err(OpenRefused {
            connection,
            refusal: Refusal::StoreFault,
        });
    }
    let has_room = can_grow(&connection);
    match load_old(&mut connection, alloc, &owner) {
        Ok(Some(last)) => {
            if !has_room {
                return Err(OpenRefused {
                    connection,
                    refusal: Refusal::StoreFault,
                });
            }
            grow_found(alloc, connection, owner, last)
        }
        Ok(None) => Err(OpenRefused {
            connection,
            refusal: Refusal::WrongFile,
        }),
        Err(reported) => Err(OpenRefused {
            connection,
            refusal: reported,
        }),
    }
}

/// Makes the three tables, with the row of a node that has done nothing.
fn open_new<S: Alter>(
    alloc: Global,
    connection: Connection<S>,
    owner: Owner,
) -> Result<SavedState<S>, OpenRefused<S>>
    requires live { IsLive (state S.Store connection) }
    ensures opened { HasNoTable (schema_of S.Store connection)
        → HasRoomForTables (schema_of S.Store connection)
        → IfOk result (HasOpened S.Store connection owner) }
    ensures refused { HasNoTable (schema_of S.Store connection)
        → HasRoomForTables (schema_of S.Store connection)
        → IfErr result (λ e. HasRefused S.Store connection owner e.connection e.refusal) }
{
    let id = owner.id as u64;
    let n = owner.n as u64;
    let mut connection = match Box::new(alloc, connection) {
        Ok(connection) => connection,
        Err(refused) => {
            return Err(OpenRefused {
                connection: refused.value,
                refusal: Refusal::WantOfMemory,
            });
        }
    };
    let made = in_transaction(
        &mut *connection,
        alloc,
        Missing::All,
        &[RowStep::One(RowChange::PutFirst(id, n, owner.domain.as_text()))],
    );
    match made {
        Ok(true) => Ok(SavedState {
            connection,
            owner,
            last: LastSaved::initial(alloc),
            stopped: false,
            alloc,
        }),
        _ => Err(OpenRefused {
            connection: Box::into_inner(connection),
            refusal: Refusal::StoreFault,
        }),
    }
}

impl<S: Alter> SavedState<S> {
    /// Opens the saved state of a node, and makes it where the database has none of the tables. A whole file of version
    /// 1 becomes one of version 2, in one transaction that writes no row of the entries. A database that has other
    /// tables of these names, or some of the three but for those of version 1, or rows that are no saved state of the
    /// node, is refused by `WrongFile`. One whose tables a foreign key names, and one to which the tables that it lacks
    /// can't be added, are refused by `StoreFault`, as after any fault of the database, which may be that memory was
    /// refused to it; a refused growth of the desk's own is `WantOfMemory`.
    pub fn open(
        alloc: Global,
        connection: Connection<S>,
        owner: Owner,
    ) -> Result<SavedState<S>, OpenRefused<S>>
        ensures opened { IfOk result (HasOpened S.Store connection owner) }
        ensures refused { IfErr result (λ e. HasRefused S.Store connection owner e.connection e.refusal) }
        // A database is refused that has some of the tables, or three that are not those of a desk, or that a foreign
        // key names, or none and no room for them.
        ensures other { ¬ HasNoTable (schema_of S.Store connection)
            → ¬ HasTables (schema_of S.Store connection) → ¬ HasOldTables (schema_of S.Store connection)
            → IsErr result }
        ensures referred { IsReferredTo (schema_of S.Store connection) → IsErr result }
        ensures room { HasNoTable (schema_of S.Store connection)
            → ¬ HasRoomForTables (schema_of S.Store connection) → IsErr result }
    {
        if is_desk(&connection) {
            return open_there(alloc, connection, owner);
        }
        if is_old_desk(&connection) {
            return open_old(alloc, connection, owner);
        }
        if let Some(refusal) = refusal_of(&connection) {
            return Err(OpenRefused {
                connection,
                refusal,
            });
        }
        open_new(alloc, connection, owner)
    }

    /// The saved state that the tables hold. Rows that are no saved state of the node are refused by `WrongFile`, and a
    /// refused growth of the desk's own by `WantOfMemory`. Where the database answers a fault, which may be that memory
    /// was refused to it, it is `StoreFault`, and the object answers `NodeStopped` from then on.
    pub fn load(&mut self) -> Result<Saved, Refusal>
        ensures { HasLoaded S.Store self.old self.new result }
    {
        if self.stopped {
            return Err(Refusal::NodeStopped);
        }
        match load_state(&mut *self.connection, self.alloc, &self.owner) {
            Ok(Some(saved)) => Ok(saved.into_saved()),
            Ok(None) => Err(Refusal::WrongFile),
            Err(refusal) => {
                refusal.unless_of_memory()?;
                self.stopped = true;
                Err(Refusal::StoreFault)
            }
        }
    }

    /// A copy of the state that was saved last. A refused growth is `WantOfMemory`, and after `StoreFault` of an
    /// earlier call it is `NodeStopped`.
    pub fn last_saved(&self) -> Result<Saved, Refusal>
        ensures stopped { IsTrue self.now.stopped → result ≡ Err refusals.NodeStopped }
        ensures saved { IfOk result (λ s. s ≡ self.now.last) }
        ensures fault { self.now.stopped ≡ false → IfErr result (λ r. r ≡ refusals.WantOfMemory) }
    {
        if self.stopped {
            Err(Refusal::NodeStopped)
        } else {
            Ok(self.last.copy()?)
        }
    }

    /// Makes the rows those of a saved state, in one transaction, or in none where that state is the one that was saved
    /// last. Any fault of the database and any refused growth is `StoreFault`, and the object answers `NodeStopped`
    /// from then on. The logs are compared from their first entries on.
    pub fn save(&mut self, saved: &Saved) -> Result<(), Refusal>
        ensures { HasSaved S.Store self.old self.new saved.now result }
    {
        self.save_after(saved, 0)
    }

    /// `save`, where the caller knows that the log begins with the first `front` entries of the log that was saved
    /// last. These are not compared, and take no time.
    pub fn save_after(&mut self, saved: &Saved, front: u64) -> Result<(), Refusal>
        requires within { (front ≤ length self.old.last.log) × (front ≤ length saved.now.log) }
        requires same { take front self.old.last.log ≡ take front saved.now.log }
        ensures { HasSaved S.Store self.old self.new saved.now result }
    {
        if self.stopped {
            return Err(Refusal::NodeStopped);
        }
        let common = self.last.same_front_after(saved, front);
        if self.last.is_same(saved, common) {
            return Ok(());
        }
        let before = self.last.stored();
        let Ok(clients) = self.last.follow(self.alloc, saved, common) else {
            return Err(self.stop());
        };
        let numbers = Numbers::of(saved);
        let log = saved.log();
        let more = entries_after(log.entries(), common);
        let done = in_transaction(
            &mut *self.connection,
            self.alloc,
            Missing::Nothing,
            &[
                RowStep::CutPast(common, before.count),
                RowStep::AddEntries(common, more),
                RowStep::Settle(log, clients.as_slice()),
                RowStep::SetChanged(before.numbers, numbers),
            ],
        );
        match done {
            Ok(true) => Ok(()),
            _ => Err(self.stop()),
        }
    }

    /// Answers `NodeStopped` from now on.
    fn stop(&mut self) -> Refusal
        ensures value { result ≡ refusals.StoreFault }
        ensures stopped { self.new ≡ record self.old { stopped = true } }
    {
        self.stopped = true;
        Refusal::StoreFault
    }

    /// The connection, as the object held it.
    pub fn into_connection(self) -> Connection<S>
        ensures { result ≡ self.connection }
    {
        let SavedState {
            connection,
            owner: _,
            last: _,
            stopped: _,
            alloc: _,
        } = self;
        Box::into_inner(connection)
    }
}
