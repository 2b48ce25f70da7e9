//! Opens the keeper of a node of three.

ghost use Rattle.std.specs.Prelude.{◌≡◌, ◌<◌, false, All, IfOk};
ghost use Rattle.desk_mailbox.specs.Ends.{IsNewSender};

use desk_log::StateStore;
use desk_saved::SavedState;
use desk_threads::{
    BoardName, Item, Keeper, NewHistory, SavedNode, Sender, SessionEnds, open_saved,
};
use desk_types::{Domain, Owner, WantOfMemory};
use sqlite::{Alter, Connection};
use std::alloc::Global;
use std::sync::Wait;

/// The saved state of node `id` of three in a database.
pub(super) fn open_store<S: Alter + Drop>(
    alloc: Global,
    connection: Connection<S>,
    id: u8,
    domain: Domain,
) -> Result<SavedState<S>, WantOfMemory>
    requires { id < 3 }
    ensures { IfOk result (λ store. store.stopped ≡ false) }
{
    match SavedState::open(alloc, connection, Owner { id, n: 3, domain }) {
        Ok(store) => Ok(store),
        Err(refused) => {
            drop(refused);
            Err(WantOfMemory)
        }
    }
}

/// A keeper with its senders and the ends of its sessions.
pub(super) type OpenedKeeper<B, S> = (
    Keeper<B, SavedNode<S>>,
    Vec<Sender<Item>>,
    Vec<SessionEnds<B>>,
);

/// The keeper of node `id` of three over a store, which goes on where the state that is saved there ends.
pub(super) fn open_at<B: BoardName, S: StateStore + Drop, R: Wait>(
    rt: &R,
    alloc: Global,
    history: NewHistory,
    id: u8,
    domain: &Domain,
    store: S,
) -> Result<OpenedKeeper<B, S>, WantOfMemory>
    requires book { history.seen.book ≡ B.book }
    requires domain { domain.now ≡ B.domain }
    requires id { id < 3 }
    requires running { S.stopped store ≡ false }
    ensures senders { IfOk result (λ opened. All (IsNewSender opened.0.taker) opened.1.items) }
{
    let owner = Owner {
        id,
        n: 3,
        domain: domain.copy()?,
    };
    open_saved::<B, S, R>(rt, alloc, history, owner, store)
}
