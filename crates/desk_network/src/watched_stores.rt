//! The stores of a node's epochs, whose saves are announced.

ghost use Rattle.std.specs.Prelude.{◌≡◌, ◌<◌, ℕ, false, IfOk, IfErr, IfSome};
ghost use Rattle.desk_log.specs.SavedValue.{SavedValue};
ghost use Rattle.desk_epoch_stores.specs.Refusals.{IsEpochRefusal};
ghost use Rattle.desk_network.specs.Watched.{IsUntold};

use crate::past_stores::{PastReader, PastStores};
use crate::watched_store::{SaveNews, WatchedStore};
use desk_epoch_stores::EpochStores;
use desk_events::EventLog;
use desk_types::Refusal;
use std::rt::Clock;
use std::sync::Wait;

/// Opens stores of which it is announced that the node begins their epoch, how long saves take, and in which views the
/// node is normal. What is announced begins anew with each epoch, as its views do. The store of an epoch that was
/// opened before is opened by a thread, where there is one: it may have a long log.
pub(crate) struct WatchedStores<T, Q, R> {
    stores: T,
    /// The thread that opens stores.
    reader: Option<Q>,
    /// The stores of so many epochs were opened by the keeper, from the first on.
    opened: u64,
    rt: R,
    log: EventLog,
    /// How many nodes the group has.
    nodes: u8,
    ghost some: { 0 < nodes },
}

// Written out, so that callers need not prove each part's drop.
impl<T: Drop, Q: Drop, R: Drop> Drop for WatchedStores<T, Q, R> {
    fn drop(self) {
        let WatchedStores {
            stores: _,
            reader: _,
            opened: _,
            rt: _,
            log: _,
            nodes: _,
        } = self;
    }
}

impl<T, Q, R> WatchedStores<T, Q, R> {
    pub(crate) fn new(
        stores: T,
        reader: Option<Q>,
        rt: R,
        log: EventLog,
        nodes: u8,
    ) -> WatchedStores<T, Q, R>
        requires { 0 < nodes }
        ensures { result.stores ≡ stores }
    {
        WatchedStores {
            stores,
            reader,
            opened: 0,
            rt,
            log,
            nodes,
        }
    }
}

impl<T, Q: Drop, R: Drop> WatchedStores<T, Q, R> {
    /// What opens the stores.
    pub(crate) fn into_stores(self) -> T
        ensures { result ≡ self.stores }
    {
        let WatchedStores {
            stores,
            reader: _,
            opened: _,
            rt: _,
            log: _,
            nodes: _,
        } = self;
        stores
    }
}

impl<T: EpochStores, P: PastStores<T> + Drop, R: Clock + Wait + Copy + Drop> WatchedStores<
    T,
    PastReader<T, P>,
    R,
> {
    /// Whether an epoch has ended, as far as that is known here: the keeper opened the store of its own epoch, and that
    /// of the next one perhaps.
    fn has_ended(&self, epoch: u64) -> bool {
        epoch.saturating_add(2) < self.opened
    }

    /// The store of an epoch that was opened before, where the thread has opened it. None where there is no thread. A
    /// node that asks for its log asks for the next one soon, so that one's store is opened ahead.
    fn open_by_reader(&mut self, epoch: u64) -> Option<Option<T::Store>>
        ensures running { IfSome result (λ opened. IfSome opened (λ store. T.Store.stopped store ≡ false)) }
        ensures held { IfSome result (λ opened. IfSome opened
            (λ store. T.may_hold self.old.stores epoch (T.Store.last store))) }
        ensures stores { self.new.stores ≡ self.old.stores }
    {
        if epoch >= self.opened {
            return None;
        }
        let reader = self.reader.take()?;
        let (reader, store) = reader.open(&self.rt, epoch, &self.stores);
        let next = epoch.saturating_add(1);
        self.reader = if store.is_some() && self.has_ended(next) {
            Some(reader.open_ahead(&self.rt, next))
        } else {
            Some(reader)
        };
        Some(store)
    }

    /// Opens the store of an epoch, as `EpochStores::open` does. One that the thread has not opened yet is refused by
    /// `WantOfMemory`, after which a later call may get it.
    fn open_store(&mut self, epoch: u64) -> Result<T::Store, Refusal>
        ensures running { IfOk result (λ store. T.Store.stopped store ≡ false) }
        ensures held { IfOk result (λ store. T.may_hold self.old.stores epoch (T.Store.last store)) }
        ensures fault { IfErr result IsEpochRefusal }
        ensures same { (e : ℕ) → (s : SavedValue) → T.may_hold self.new.stores e s → T.may_hold self.old.stores e s }
    {
        match self.open_by_reader(epoch) {
            Some(Some(store)) => return Ok(store),
            Some(None) => return Err(Refusal::WantOfMemory),
            None => {}
        }
        let store = self.stores.open(epoch)?;
        self.opened = self.opened.max(epoch.saturating_add(1));
        Ok(store)
    }
}

impl<T: EpochStores, P: PastStores<T> + Drop, R: Clock + Wait + Copy + Drop> EpochStores
    for WatchedStores<T, PastReader<T, P>, R> {
    type Store = WatchedStore<T::Store, R>;

    ghost may_hold = { λ w epoch saved. T.may_hold w.stores epoch saved };

    fn open(&mut self, epoch: u64) -> Result<WatchedStore<T::Store, R>, Refusal>
        ensures running { IfOk result (λ watched. T.Store.stopped watched.store ≡ false) }
        ensures held { IfOk result (λ watched. T.may_hold self.old.stores epoch (T.Store.last watched.store)) }
        ensures fault { IfErr result IsEpochRefusal }
        ensures same { (e : ℕ) → (s : SavedValue) → T.may_hold self.new.stores e s → T.may_hold self.old.stores e s }
        // What is announced of it is of this epoch, of which nothing was announced.
        ensures news { IfOk result (λ watched. IsUntold epoch watched.news.epoch watched.news.entries) }
    {
        let log = self.log.share()?;
        let store = self.open_store(epoch)?;
        let news = SaveNews::new(self.rt, log, self.nodes, epoch);
        Ok(WatchedStore::new(store, news))
    }

    fn close(&mut self, epoch: u64, store: WatchedStore<T::Store, R>) -> bool {
        self.stores.close(epoch, store.into_store())
    }
}
