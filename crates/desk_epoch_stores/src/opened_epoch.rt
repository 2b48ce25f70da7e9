//! An epoch of a node that starts.

ghost use Rattle.std.specs.Prelude.{◌≡◌, ◌≤◌, ◌<◌, ◌+◌, ◌++◌, ℕ, true, false, [], List, IfOk, IfErr};
ghost use Rattle.desk_types.specs.Group.{IsGroup};
ghost use Rattle.desk_types.specs.declared.command.Entry.{Entry as AnEntry};
ghost use Rattle.desk_types.specs.declared.limits.TheConstants.{LOG_ENTRIES};
ghost use Rattle.desk_log.specs.SavedValue.{SavedValue, committed_entries};
ghost use Rattle.desk_node.specs.NodeValue.{node_from};
ghost use Rattle.desk_epoch_node.specs.Ends.{IsCut};
ghost use Rattle.desk_epoch_node.specs.PastRows.{StandFor};
ghost use Rattle.desk_epoch_stores.specs.Refusals.{IsEpochRefusal};
ghost use Rattle.desk_epoch_stores.specs.Starting.{HasPlaces, MayHoldLogs, MayHoldNoMore, is_finished, saved_cut};

use crate::epoch_stores::EpochStores;
use desk_epoch_node::{Cut, EpochNode, PastLogs, cut_at_commit, first_cut};
use desk_log::{Saved, StateStore};
use desk_node::Node;
use desk_types::limits::LAST_PLACE;
use desk_types::{Entry, Owner, Refusal};
use std::alloc::Global;

/// An epoch whose store is open, with the state that was saved last there, and what is held of the logs of the epochs
/// before it. An epoch ends after so many entries, `most`, and after one that names a replacement.
pub struct OpenedEpoch<T: EpochStores> {
    epoch: u64,
    past: PastLogs,
    most: u64,
    store: T::Store,
    saved: Saved,
    cut: Cut,
    pub ghost places: { HasPlaces epoch past.length most },
    pub ghost running: { T.Store.stopped store ≡ false },
    pub ghost last: { T.Store.last store ≡ saved },
    pub ghost cut_is: { IsCut most (committed_entries saved) cut },
}

// Written out, so that callers need not prove each part's drop.
impl<T: EpochStores> Drop for OpenedEpoch<T> {
    fn drop(self) {
        let OpenedEpoch {
            epoch: _,
            past: _,
            most: _,
            store: _,
            saved: _,
            cut: _,
        } = self;
    }
}

impl<T: EpochStores> OpenedEpoch<T> {
    /// Opens an epoch after these past logs.
    fn open(
        stores: &mut T,
        epoch: u64,
        past: PastLogs,
        most: u64,
    ) -> Result<OpenedEpoch<T>, Refusal>
        requires places { HasPlaces epoch past.length most }
        ensures opened { IfOk result (λ o. (o.epoch ≡ epoch) × (o.past ≡ past) × (o.most ≡ most)) }
        ensures held { IfOk result (λ o. T.may_hold stores.old epoch o.saved) }
        ensures fault { IfErr result IsEpochRefusal }
        ensures same { (e : ℕ) → (s : SavedValue) → T.may_hold stores.new e s → T.may_hold stores.old e s }
    {
        let store = stores.open(epoch)?;
        match store.copy_last() {
            Ok(saved) => {
                let cut = cut_at_commit(first_cut(), 0, &saved, most);
                Ok(OpenedEpoch {
                    epoch,
                    past,
                    most,
                    store,
                    saved,
                    cut,
                })
            }
            Err(_) => {
                let _ = stores.close(epoch, store);
                Err(Refusal::WantOfMemory)
            }
        }
    }

    /// Opens the first epoch, where each ends after so many entries, 1 to 65,536.
    pub fn first(alloc: Global, stores: &mut T, most: u64) -> Result<OpenedEpoch<T>, Refusal>
        requires least { 1 ≤ most }
        requires most { most ≤ LOG_ENTRIES }
        ensures opened { IfOk result (λ o. (o.epoch ≡ 0) × (o.most ≡ most)) }
        ensures past { IfOk result (λ o. StandFor [] o.past) }
        ensures held { IfOk result (λ o. T.may_hold stores.old 0 o.saved) }
        ensures fault { IfErr result IsEpochRefusal }
        ensures same { (e : ℕ) → (s : SavedValue) → T.may_hold stores.new e s → T.may_hold stores.old e s }
    {
        OpenedEpoch::open(stores, 0, PastLogs::new(alloc), most)
    }

    /// How many entries the epochs before it have.
    pub fn base(&self) -> u64
        ensures { result ≡ self.now.past.length }
    {
        self.past.len()
    }

    /// What is committed of the epoch, up to its end.
    pub fn committed(&self) -> &[Entry]
        ensures { result.now ≡ saved_cut self.now.most self.now.saved }
    {
        // What is committed stands in the log.
        prove!(self.cut.count <= self.saved.log().len());
        &self.saved.log().entries()[..self.cut.count as usize]
    }

    /// Whether the epoch has ended, and there are places for one more.
    pub fn is_finished(&self) -> bool
        ensures { result ≡ is_finished self.now.most self.now.past.length self.now.saved }
    {
        self.cut.ended && self.past.len() + self.most + self.most <= LAST_PLACE
    }

    /// Closes its store, where it is not gone on with, as `EpochStores::close` does.
    pub fn close(self, stores: &mut T) -> bool
        ensures same { MayHoldNoMore T.may_hold stores.old stores.new }
    {
        let OpenedEpoch {
            epoch,
            past: _,
            most: _,
            store,
            saved: _,
            cut: _,
        } = self;
        stores.close(epoch, store)
    }

    /// Closes the store of an epoch that is over, and opens the epoch after. It takes memory for each client of past
    /// logs.
    pub fn next(self, stores: &mut T) -> Result<OpenedEpoch<T>, Refusal>
        requires over { is_finished self.most self.past.length self.saved ≡ true }
        ensures opened { IfOk result (λ o. (o.epoch ≡ self.epoch + 1) × (o.most ≡ self.most)) }
        ensures past { IfOk result (λ o. (past : List AnEntry) → StandFor past self.past →
            StandFor (past ++ saved_cut self.most self.saved) o.past) }
        ensures held { IfOk result (λ o. T.may_hold stores.old o.epoch o.saved) }
        ensures fault { IfErr result IsEpochRefusal }
        ensures same { (e : ℕ) → (s : SavedValue) → T.may_hold stores.new e s → T.may_hold stores.old e s }
    {
        let followed = self.past.followed_by(self.committed());
        let (epoch, most) = (self.epoch + 1, self.most);
        let _ = self.close(stores);
        let Ok(past) = followed else {
            return Err(Refusal::WantOfMemory);
        };
        OpenedEpoch::open(stores, epoch, past, most)
    }

    /// Opens epochs from the first on, up to the first that is not over. What is held of past logs are rows of the logs
    /// that the stores before may hold.
    pub fn current(alloc: Global, stores: &mut T, most: u64) -> Result<OpenedEpoch<T>, Refusal>
        requires least { 1 ≤ most }
        requires most { most ≤ LOG_ENTRIES }
        ensures most { IfOk result (λ o. o.most ≡ most) }
        ensures current { IfOk result (λ o. is_finished most o.past.length o.saved ≡ false) }
        ensures past { IfOk result (λ o. (past : List AnEntry) × StandFor past o.past
            × MayHoldLogs (T.may_hold stores.old) most o.epoch past) }
        ensures held { IfOk result (λ o. T.may_hold stores.old o.epoch o.saved) }
        ensures fault { IfErr result IsEpochRefusal }
    {
        let mut opened = OpenedEpoch::first(alloc, stores, most)?;
        for epoch in 0..LAST_PLACE {
            if !opened.is_finished() {
                return Ok(opened);
            }
            opened = opened.next(stores)?;
        }
        // Each epoch has an entry at least.
        unreachable!()
    }

    /// The node in the epoch with its token, as it was saved last, which has heard nothing since; and the store.
    pub fn into_node(self, alloc: Global, owner: Owner, token: u64) -> (EpochNode, T::Store)
        requires group { IsGroup owner.n }
        requires id { owner.id < owner.n }
        ensures node { result.0 ≡ record {
          epoch = self.epoch;
          past = self.past;
          most = self.most;
          token = token;
          node = node_from owner self.saved;
        } }
        ensures store { result.1 ≡ self.store }
    {
        let OpenedEpoch {
            epoch,
            past,
            most,
            store,
            saved,
            cut: _,
        } = self;
        let Owner { id, n, domain } = owner;
        let node = Node::from_saved(alloc, id, n, domain, saved);
        (EpochNode::new(epoch, past, most, token, node), store)
    }
}
