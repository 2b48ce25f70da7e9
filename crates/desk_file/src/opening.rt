//! The opening of the state of a node that is to be served, in the database of its file.

ghost use Rattle.std.specs.Prelude.{◌≡◌, false, IfOk, IfErr, IsErr, IsSome};
ghost use Rattle.desk_saved.specs.Opening.{HasOpened};
ghost use Rattle.desk_file.specs.Unopened.{IsUnopened, EndsUnopened};

use crate::ended::EndedFile;
use desk_saved::{OpenRefused, SavedState};
use desk_types::{Owner, Refusal};
use sqlite::{Alter, Connection};
use std::alloc::Global;

/// Opens the state of a node, for which its owner is copied.
fn open_state<S: Alter>(
    alloc: Global,
    connection: Connection<S>,
    owner: &Owner,
) -> Result<SavedState<S>, OpenRefused<S>>
    ensures owner { IfOk result (λ store. store.owner ≡ owner.now) }
    ensures running { IfOk result (λ store. store.stopped ≡ false) }
    ensures opened { IfOk result (λ store. HasOpened S.Store connection owner.now store) }
    ensures refused { IfErr result (λ e. IsUnopened S.Store connection owner.now e.connection e.refusal) }
{
    match owner.copy() {
        Ok(owner) => SavedState::open(alloc, connection, owner),
        Err(_) => Err(OpenRefused {
            connection,
            refusal: Refusal::WantOfMemory,
        }),
    }
}

/// Opens the state of a node in the database of its file. A database that has none of the three tables gets them.
pub fn open_node<S: Alter>(
    alloc: Global,
    connection: Connection<S>,
    owner: &Owner,
) -> Result<SavedState<S>, EndedFile<S>>
    ensures store { IfOk result (λ store. store.owner ≡ owner.now) }
    ensures running { IfOk result (λ store. store.stopped ≡ false) }
    ensures refused { IfErr result (λ ended. IsErr ended.end.outcome) }
    ensures open { IfErr result (λ ended. IsSome ended.connection) }
    // The file is opened, or refused, as `SavedState::open` promises it, and no row of it is touched beside: so a file
    // of version 1 becomes one of version 2 by that promise alone.
    ensures opened { IfOk result (λ store. HasOpened S.Store connection owner.now store) }
    ensures unopened { IfErr result (λ ended.
        EndsUnopened S.Store connection owner.now ended.end.outcome ended.connection) }
{
    match open_state(alloc, connection, owner) {
        Ok(store) => Ok(store),
        Err(
            OpenRefused {
                connection,
                refusal,
            },
        ) => Err(EndedFile::over(alloc, connection, Err(refusal))),
    }
}
