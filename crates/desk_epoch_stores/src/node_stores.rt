//! The stores that a running node over epochs has open.

ghost use Rattle.std.specs.Prelude.{◌≡◌, ◌≤◌, ◌+◌, true, false, length, take, IfOk, IfErr, OnOk, OnErr, List};
ghost use Rattle.std.specs.Prelude.{◌⊎◌, ◌&&◌, None, MatchOption, IfSome};
ghost use Rattle.std.specs.Option.{is_some, ForSome};
ghost use Rattle.desk_types.specs.declared.command.Entry.{Entry as AnEntry};
ghost use Rattle.desk_types.specs.declared.refusal.Refusal.TheVariants as refusals;
ghost use Rattle.desk_epoch_node.specs.Does.{BeginsAfter, is_due};
ghost use Rattle.desk_epoch_node.specs.EpochValue.{committed_cut};
ghost use Rattle.desk_epoch_node.specs.PastRows.{StandFor};
ghost use Rattle.desk_epoch_stores.specs.EpochEnds.{reported_saved};
ghost use Rattle.desk_epoch_stores.specs.Refusals.{IsEpochRefusal};
ghost use Rattle.desk_epoch_stores.specs.Starting.{MayHoldNoMore};

use crate::epoch_stores::EpochStores;
use desk_epoch_node::{Ended, EpochNode};
use desk_log::{Log, Saved, StateStore};
use desk_types::Refusal;
use std::mem;

/// The store of the node's epoch, and that of the next one, which is opened before it is needed: so nothing but a save
/// stands between two epochs.
pub struct NodeStores<T: EpochStores> {
    stores: T,
    current: T::Store,
    next: Option<T::Store>,
    pub ghost ready: { ForSome next (λ store. T.Store.stopped store ≡ false) },
}

// Written out, so that callers need not prove each part's drop.
impl<T: EpochStores + Drop> Drop for NodeStores<T> {
    fn drop(self) {
        let NodeStores {
            stores: _,
            current: _,
            next: _,
        } = self;
    }
}

impl<T: EpochStores> NodeStores<T> {
    /// The store of an epoch, with what opens those of others, of which none is open.
    pub fn new(stores: T, current: T::Store) -> NodeStores<T>
        ensures current { result.current ≡ current }
        ensures stores { result.stores ≡ stores }
        ensures next { result.next ≡ None }
    {
        NodeStores {
            stores,
            current,
            next: None,
        }
    }

    /// Whether the store of the next epoch is open.
    pub fn is_ready(&self) -> bool
        ensures { result ≡ is_some self.now.next }
    {
        self.next.is_some()
    }

    /// Opens the store of the epoch after that of the node, where it is not open. After a refusal nothing has changed
    /// but what opens the stores, which may hold no more than before. After `WantOfMemory` it may be tried again.
    pub fn prepare(&mut self, node: &EpochNode) -> Result<(), Refusal>
        ensures current { self.new.current ≡ self.old.current }
        ensures ready { OnOk result (is_some self.new.next ≡ true) }
        ensures refused { OnErr result (self.new.next ≡ self.old.next) }
        ensures fault { IfErr result IsEpochRefusal }
        ensures same { MayHoldNoMore T.may_hold self.old.stores self.new.stores }
        ensures held { self.old.next ≡ None → IfSome self.new.next
            (λ store. T.may_hold self.old.stores (node.now.epoch + 1) (T.Store.last store)) }
    {
        if self.next.is_none() {
            // An epoch has an entry at least, so there are fewer epochs than places.
            let store = self.stores.open(node.epoch() + 1)?;
            self.next = Some(store);
        }
        Ok(())
    }

    /// The state that the store of another epoch saved last. None where the store cannot be opened, or memory is
    /// refused.
    pub fn state_of(&mut self, epoch: u64) -> Option<Saved>
        ensures held { IfSome result (λ saved. T.may_hold self.old.stores epoch saved) }
        ensures same { MayHoldNoMore T.may_hold self.old.stores self.new.stores }
        ensures open { (self.new.current ≡ self.old.current) × (self.new.next ≡ self.old.next) }
    {
        let Ok(store) = self.stores.open(epoch) else {
            return None;
        };
        let saved = store.copy_last().ok();
        let _ = self.stores.close(epoch, store);
        saved
    }

    /// Saves the state of the node's epoch, as `StateStore::save_state` does.
    pub fn save(&mut self, saved: &Saved, known: u64) -> Result<(), Refusal>
        requires running { T.Store.stopped self.old.current ≡ false }
        requires within { (known ≤ length (T.Store.last self.old.current).log) × (known ≤ length saved.now.log) }
        requires same { take known (T.Store.last self.old.current).log ≡ take known saved.now.log }
        ensures last { OnOk result (T.Store.last self.new.current ≡ saved.now) }
        ensures running { OnOk result (T.Store.stopped self.new.current ≡ false) }
        ensures preserved { OnOk result (T.Store.keeps self.old.current self.new.current) }
        ensures next { self.new.next ≡ self.old.next }
        ensures fault { IfErr result (λ r. r ≡ refusals.StoreFault) }
        ensures failed { OnErr result (T.Store.leaves self.old.current saved.now self.new.current) }
    {
        self.current.save_state(saved, known)
    }

    /// Saves the first state of an epoch in the next store, which is that of the node's epoch from then on, and gives
    /// the store before. Where that save fails, the store before is still the node's, and the next one is closed.
    fn enter(&mut self, epoch: u64, first: &Saved) -> Result<T::Store, Refusal>
        requires ready { is_some self.old.next ≡ true }
        ensures before { IfOk result (λ store. store ≡ self.old.current) }
        ensures last { OnOk result (T.Store.last self.new.current ≡ first.now) }
        ensures running { OnOk result (T.Store.stopped self.new.current ≡ false) }
        ensures left { OnErr result (self.new.current ≡ self.old.current) }
        ensures fault { IfErr result (λ r. r ≡ refusals.StoreFault) }
    {
        let Some(mut next) = self.next.take() else {
            unreachable!();
        };
        match next.save_state(first, 0) {
            Ok(()) => Ok(mem::replace(&mut self.current, next)),
            Err(refusal) => {
                let _ = self.stores.close(epoch, next);
                Err(refusal)
            }
        }
    }

    /// Begins the next epoch where the node has committed the end of its own, there is one more, and its store is open;
    /// its first state is saved there. Ok is the node of the epoch that ended, with what is to be sent first in the new
    /// one. Err is `WantOfMemory` where memory is refused, and then nothing changes. It is `StoreFault` where the save
    /// failed; then nothing may be sent in the new epoch, which a start finds as one that has not begun.
    pub fn begin_next(&mut self, node: &mut EpochNode) -> Result<Option<Ended>, Refusal>
        requires saved { T.Store.last self.old.current ≡ node.old.node.saved }
        ensures begun { IfOk result (λ ended. MatchOption ended ((node.new ≡ node.old) × (self.new ≡ self.old))
            (λ ended. (is_due node.old ≡ true) × (ended.node ≡ node.old.node)
            × ((past : List AnEntry) → StandFor past node.old.past →
            BeginsAfter past (committed_cut node.old) node.old node.new ended.packets.items)
            × (T.Store.last self.new.current ≡ node.new.node.saved) × (T.Store.stopped self.new.current ≡ false))) }
        ensures waits { IfOk result (λ ended. ended ≡ None →
            (is_due node.old && is_some self.old.next) ≡ false) }
        ensures refused { IfErr result (λ r. r ≡ refusals.WantOfMemory →
            (node.new ≡ node.old) × (self.new ≡ self.old)) }
        ensures left { OnErr result (self.new.current ≡ self.old.current) }
        ensures unsaved { IfErr result (λ r. r ≡ refusals.StoreFault → (packets : List _)
            × ((past : List AnEntry) → StandFor past node.old.past →
            BeginsAfter past (committed_cut node.old) node.old node.new packets)) }
        ensures fault { IfErr result (λ r. (r ≡ refusals.WantOfMemory) ⊎ (r ≡ refusals.StoreFault)) }
    {
        if !self.is_ready() {
            return Ok(None);
        }
        let epoch = node.epoch();
        let Ok(begun) = node.begin_next() else {
            return Err(Refusal::WantOfMemory);
        };
        let Some(ended) = begun else {
            return Ok(None);
        };
        match self.enter(node.epoch(), node.node().saved()) {
            Ok(before) => {
                let _ = self.stores.close(epoch, before);
                Ok(Some(ended))
            }
            Err(refusal) => {
                drop(ended);
                Err(refusal)
            }
        }
    }

    /// Saves the log of an epoch that the node was given, and then its first state in the next, which it has begun. Ok
    /// is the store of the epoch that ended. Where it fails (`StoreFault`) nothing may be sent; the store of the epoch
    /// that ended is as its failed save leaves it, or holds the log.
    pub fn begin_with_rest(
        &mut self,
        node: &EpochNode,
        reported: &Saved,
        known: u64,
    ) -> Result<T::Store, Refusal>
        requires ready { is_some self.old.next ≡ true }
        requires running { T.Store.stopped self.old.current ≡ false }
        requires within { (known ≤ length (T.Store.last self.old.current).log) × (known ≤ length reported.now.log) }
        requires same { take known (T.Store.last self.old.current).log ≡ take known reported.now.log }
        ensures before { IfOk result (λ store. (T.Store.last store ≡ reported.now)
            × T.Store.keeps self.old.current store) }
        ensures last { OnOk result (T.Store.last self.new.current ≡ node.now.node.saved) }
        ensures running { OnOk result (T.Store.stopped self.new.current ≡ false) }
        ensures failed { OnErr result (T.Store.leaves self.old.current reported.now self.new.current
            ⊎ ((T.Store.last self.new.current ≡ reported.now)
            × T.Store.keeps self.old.current self.new.current)) }
        ensures fault { IfErr result (λ r. r ≡ refusals.StoreFault) }
    {
        self.save(reported, known)?;
        self.enter(node.epoch(), node.node().saved())
    }

    /// Closes the store of an epoch that has ended, as `EpochStores::close` does.
    pub fn close(&mut self, epoch: u64, store: T::Store) -> bool
        ensures open { (self.new.current ≡ self.old.current) × (self.new.next ≡ self.old.next) }
        ensures same { MayHoldNoMore T.may_hold self.old.stores self.new.stores }
    {
        self.stores.close(epoch, store)
    }

    /// What opens the stores, that of the node's epoch, and that of the next one where it is open.
    pub fn into_parts(self) -> (T, T::Store, Option<T::Store>)
        ensures { result ≡ (self.stores, self.current, self.next) }
    {
        let NodeStores {
            stores,
            current,
            next,
        } = self;
        (stores, current, next)
    }
}

/// What is saved of an epoch whose whole log was sent: all of it is committed.
pub fn reported_state(log: Log) -> Saved
    ensures { result ≡ reported_saved log }
{
    let commit = log.len();
    Saved::new(0, 0, log, commit)
}
