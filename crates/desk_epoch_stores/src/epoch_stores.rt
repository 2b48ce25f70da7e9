//! Where the states of a node's epochs are saved.

use desk_log::StateStore;
use desk_types::Refusal;

/// Opens the stores of a node's epochs, one for each. Where it opens an epoch's store it makes the one of the epoch
/// after, so that none begins in a store that may be missing at the next start.
pub trait EpochStores {
    ghost use Rattle.std.specs.Prelude.{◌≡◌, ℕ, false, IfOk, IfErr};
    ghost use Rattle.desk_log.specs.SavedValue.{SavedValue};
    ghost use Rattle.desk_epoch_stores.specs.Refusals.{IsEpochRefusal};

    /// What saves the state of the node in one epoch.
    type Store: StateStore + Drop;

    /// The store of the epoch may be found with this state as the one that was saved last.
    ghost may_hold: { Self → ℕ → SavedValue → Type 0 };

    /// Opens the store of an epoch, counted from 0. Err is `WantOfMemory` where memory is refused. It is `StoreFault`
    /// where the store fails, and `WrongFile` where the store is missing or another node's; then the node cannot go on.
    fn open(&mut self, epoch: u64) -> Result<Self::Store, Refusal>
        ensures running { IfOk result (λ store. Self.Store.stopped store ≡ false) }
        ensures held { IfOk result (λ store. may_hold self.old epoch (Self.Store.last store)) }
        ensures fault { IfErr result IsEpochRefusal }
        ensures same { (e : ℕ) → (s : SavedValue) → may_hold self.new e s → may_hold self.old e s };

    /// Closes the store of an epoch: whether all that was saved stands in it. Else it is to be opened with what stands
    /// beside it.
    fn close(&mut self, epoch: u64, store: Self::Store) -> bool
        ensures same { (e : ℕ) → (s : SavedValue) → may_hold self.new e s → may_hold self.old e s };
}
