//! The stores of past epochs, which a thread of their own opens, so that the keeper need not wait for a long log.

ghost use Rattle.std.specs.Prelude.{◌≡◌, false, IfSome};

use desk_epoch_stores::EpochStores;
use desk_mailbox::{Sender, Taker, open_mailbox};
use desk_types::WantOfMemory;
use std::alloc::Global;
use std::marker::Model;
use std::rt::Clock;
use std::sync::Wait;
use std::thread;
use std::thread::Threads;
use std::time::Duration;

/// The keeper waits for a store so often for a millisecond: so a short log is there at once.
const SHORT_WAITS: usize = 20;

/// A store that was opened is let go where other ones were asked for so often.
const OTHERS_ASKED: u8 = 5;

/// Opens the stores of a node's past epochs beside `T`, which opens those that the node saves to.
pub trait PastStores<T: EpochStores> {
    ghost use Rattle.std.specs.Prelude.{◌≡◌, ℕ, true, false, IfSome};
    ghost use Rattle.desk_log.specs.SavedValue.{SavedValue};

    /// The store of the epoch may be found with this state as the one that was saved last.
    ghost may_hold: { Self → ℕ → SavedValue → Type 0 };

    /// Opens the store of an epoch that has ended. None where it can't be opened, or memory is refused.
    fn open(&self, epoch: u64) -> Option<T::Store>
        ensures running { IfSome result (λ store. T.Store.stopped store ≡ false) }
        ensures held { IfSome result (λ store. may_hold self.now epoch (T.Store.last store)) };

    /// Whether these are stores that the other opens, too.
    fn are_of(&self, stores: &T) -> bool
        ensures { result ≡ true → (e : ℕ) → (s : SavedValue) → may_hold self.now e s → T.may_hold stores.now e s };
}

/// An epoch whose store is to be opened, and what opens it.
#[derive(Drop)]
struct PastAsk<P> {
    past: P,
    epoch: u64,
}

/// What came of an opening, and what opened it.
struct PastStore<T: EpochStores, P: PastStores<T>> {
    past: P,
    epoch: u64,
    store: Option<T::Store>,
}

impl<T: EpochStores, P: PastStores<T>> Model for PastStore<T, P> {
    ghost use Rattle.std.specs.Prelude.{◌≡◌, false, IfSome};
    ghost use Rattle.desk_network.specs.PastStoreValue.{PastStoreValue};

    ghost Value = { PastStoreValue P T.Store };

    ghost view = { λ s. record { past = s.past; epoch = s.epoch; store = s.store } };

    ghost invariant = { λ s. IfSome s.store (λ store. T.Store.stopped store ≡ false)
        × IfSome s.store (λ store. P.may_hold s.past s.epoch (T.Store.last store)) };
}

// Written out, so that callers need not prove each part's drop.
impl<T: EpochStores, P: PastStores<T> + Drop> Drop for PastStore<T, P> {
    fn drop(self) {
        let PastStore {
            past: _,
            epoch: _,
            store: _,
        } = self;
    }
}

/// How far the thread is that opens stores.
#[derive(Drop)]
enum Progress<T: EpochStores, P: PastStores<T> + Drop> {
    /// It waits for an ask.
    Idle(P),
    /// It opens a store, beside which other ones count as asked for so often.
    Opens(u8),
    /// It has opened one, and other ones were asked for so often since.
    Opened(PastStore<T, P>, u8),
}

/// The keeper's ends of the thread that opens the stores of past epochs, one at a time.
pub(crate) struct PastReader<T: EpochStores, P: PastStores<T> + Drop> {
    asks: Sender<PastAsk<P>>,
    opened: Taker<PastStore<T, P>>,
    progress: Progress<T, P>,
}

// Written out, so that callers need not prove each part's drop.
impl<T: EpochStores, P: PastStores<T> + Drop> Drop for PastReader<T, P> {
    fn drop(self) {
        let PastReader {
            asks: _,
            opened: _,
            progress: _,
        } = self;
    }
}

impl<T: EpochStores, P: PastStores<T> + Drop> PastStore<T, P> {
    /// What opened it.
    fn into_past(self) -> P {
        let PastStore {
            past,
            epoch: _,
            store,
        } = self;
        drop(store);
        past
    }

    /// What opened it, and the store, where it is one of these.
    fn into_parts(self, stores: &T) -> (P, Option<T::Store>)
        ensures running { IfSome result.1 (λ store. T.Store.stopped store ≡ false) }
        ensures held { IfSome result.1 (λ store. T.may_hold stores.now self.epoch (T.Store.last store)) }
    {
        let PastStore {
            past,
            epoch: _,
            store,
        } = self;
        if past.are_of(stores) {
            return (past, store);
        }
        drop(store);
        (past, None)
    }
}

/// Opens a store as it was asked for.
fn open_asked<T: EpochStores, P: PastStores<T> + Drop>(ask: PastAsk<P>) -> PastStore<T, P> {
    let PastAsk { past, epoch } = ask;
    let store = past.open(epoch);
    PastStore { past, epoch, store }
}

/// Opens the stores that are asked for, as long as there is somebody who asks.
fn open_all<T: EpochStores, P: PastStores<T> + Drop, R: Wait>(
    rt: &R,
    asks: Taker<PastAsk<P>>,
    opened: Sender<PastStore<T, P>>,
) {
    let mut asks = asks;
    let mut opened = opened;
    for _ in rt.forever() {
        let (back, sent) = asks.take(rt);
        asks = back;
        let Some(sent) = sent else {
            break;
        };
        let (back, put) = opened.put(rt, open_asked::<T, P>(sent.item));
        opened = back;
        drop(put);
    }
}

/// A mailbox of one item with one sender.
fn open_way<I: Drop>(alloc: Global) -> Result<(Taker<I>, Sender<I>), WantOfMemory> {
    let (taker, mut senders) = open_mailbox::<I>(alloc, 1, 1)?;
    match senders.pop() {
        Some(sender) => Ok((taker, sender)),
        None => Err(WantOfMemory),
    }
}

/// Lets go of a store that was opened where other ones were asked for too often.
fn pass_over<T: EpochStores, P: PastStores<T> + Drop>(
    opened: PastStore<T, P>,
    others: u8,
) -> Progress<T, P> {
    if others < OTHERS_ASKED {
        return Progress::Opened(opened, others + 1);
    }
    Progress::Idle(opened.into_past())
}

/// What was opened, if that is there within a short time.
fn take_opened<T: EpochStores, P: PastStores<T> + Drop, R: Clock + Wait>(
    rt: &R,
    opened: Taker<PastStore<T, P>>,
    others: u8,
) -> (Taker<PastStore<T, P>>, Progress<T, P>) {
    let mut opened = opened;
    for _ in 0..SHORT_WAITS {
        let (back, sent) = opened.try_take(rt);
        opened = back;
        if let Some(sent) = sent {
            return (opened, Progress::Opened(sent.item, others));
        }
        thread::sleep(rt, Duration::from_millis(1));
    }
    (opened, Progress::Opens(others))
}

impl<T: EpochStores, P: PastStores<T> + Drop> Progress<T, P> {
    /// Where another store is open than the one that is asked for, it is let go in the end.
    fn before_ask(self, epoch: u64) -> Progress<T, P> {
        match self {
            Progress::Opened(opened, others) => {
                if opened.epoch == epoch {
                    return Progress::Opened(opened, others);
                }
                pass_over(opened, others)
            }
            other => other,
        }
    }

    /// The store that was asked for, where it is open and one of these.
    fn into_store(self, epoch: u64, stores: &T) -> (Progress<T, P>, Option<T::Store>)
        ensures running { IfSome result.1 (λ store. T.Store.stopped store ≡ false) }
        ensures held { IfSome result.1 (λ store. T.may_hold stores.now epoch (T.Store.last store)) }
    {
        match self {
            Progress::Opened(opened, others) => {
                if opened.epoch != epoch {
                    return (Progress::Opened(opened, others), None);
                }
                let (past, store) = opened.into_parts(stores);
                (Progress::Idle(past), store)
            }
            other => (other, None),
        }
    }
}

impl<T: EpochStores, P: PastStores<T> + Drop> PastReader<T, P> {
    /// Asks the thread for a store, where it waits for an ask. Other ones count as asked for so often since.
    fn ask<R: Wait>(self, rt: &R, epoch: u64, others: u8) -> PastReader<T, P> {
        let PastReader {
            asks,
            opened,
            progress,
        } = self;
        let past = match progress.before_ask(epoch) {
            Progress::Idle(past) => past,
            progress => {
                return PastReader {
                    asks,
                    opened,
                    progress,
                };
            }
        };
        let (asks, put) = asks.try_put(rt, PastAsk { past, epoch });
        let progress = match put {
            Ok(()) => Progress::Opens(others),
            Err(back) => Progress::Idle(back.past),
        };
        PastReader {
            asks,
            opened,
            progress,
        }
    }

    /// Waits a short time for a store that is being opened.
    fn wait<R: Clock + Wait>(self, rt: &R) -> PastReader<T, P> {
        let PastReader {
            asks,
            opened,
            progress,
        } = self;
        let (opened, progress) = match progress {
            Progress::Opens(others) => take_opened(rt, opened, others),
            other => (opened, other),
        };
        PastReader {
            asks,
            opened,
            progress,
        }
    }

    /// The store of an epoch, where it is open, and one of these.
    fn take_store(self, epoch: u64, stores: &T) -> (PastReader<T, P>, Option<T::Store>)
        ensures running { IfSome result.1 (λ store. T.Store.stopped store ≡ false) }
        ensures held { IfSome result.1 (λ store. T.may_hold stores.now epoch (T.Store.last store)) }
    {
        let PastReader {
            asks,
            opened,
            progress,
        } = self;
        let (progress, store) = progress.into_store(epoch, stores);
        let reader = PastReader {
            asks,
            opened,
            progress,
        };
        (reader, store)
    }

    /// The store of an epoch that has ended, where it is open within a short time, and one of these. Else the thread
    /// goes on, and the next call may get it.
    pub(crate) fn open<R: Clock + Wait>(
        self,
        rt: &R,
        epoch: u64,
        stores: &T,
    ) -> (PastReader<T, P>, Option<T::Store>)
        ensures running { IfSome result.1 (λ store. T.Store.stopped store ≡ false) }
        ensures held { IfSome result.1 (λ store. T.may_hold stores.now epoch (T.Store.last store)) }
    {
        self.ask(rt, epoch, 0).wait(rt).take_store(epoch, stores)
    }

    /// Has the thread open a store that is likely to be asked for next, where it waits for an ask. If another one is
    /// asked for, this one is let go.
    pub(crate) fn open_ahead<R: Wait>(self, rt: &R, epoch: u64) -> PastReader<T, P> {
        self.ask(rt, epoch, OTHERS_ASKED)
    }
}

/// Starts the thread. Err where the host refuses it, or memory is refused.
pub(crate) fn start_reader<
    T: EpochStores + Drop + Send + 'static,
    P: PastStores<T> + Drop + Send + 'static,
    R: Threads + Wait + Drop + Copy + Send + Sync + 'static,
>(rt: &R, alloc: Global, past: P) -> Result<PastReader<T, P>, WantOfMemory>
where
    T::Store: Send + 'static,
{
    let handle = *rt;
    let (taken, asks) = open_way::<PastAsk<P>>(alloc)?;
    let (opened, put) = open_way::<PastStore<T, P>>(alloc)?;
    match thread::spawn(rt, move || open_all::<T, P, R>(&handle, taken, put)) {
        Ok(thread) => {
            drop(thread);
            Ok(PastReader {
                asks,
                opened,
                progress: Progress::Idle(past),
            })
        }
        Err(refused) => {
            drop(refused);
            Err(WantOfMemory)
        }
    }
}
