//! The stores of a node's epochs in memory.

ghost use Rattle.std.specs.Prelude.{◌≡◌, ℕ, [], true, false, IsOk, IfOk};
ghost use Rattle.desk_log.specs.SavedValue.{initial_saved};
ghost use Rattle.desk_epoch_stores.specs.InMemory.{ChangesState, closed_state};

use crate::epoch_stores::EpochStores;
use desk_log::MemoryStore;
use desk_types::Refusal;
use std::alloc::Global;
use std::collections::BTreeMap;

/// Holds the states of a node's epochs in memory, as long as it stands itself. The store of an epoch that was closed is
/// found again; any other is that of a node that has done nothing.
pub struct MemoryStores {
    alloc: Global,
    /// The stores that were closed, by their epochs.
    closed: BTreeMap<u64, MemoryStore>,
}

// Written out, so that callers need not prove each part's drop.
impl Drop for MemoryStores {
    fn drop(self) {
        let MemoryStores {
            alloc: _,
            closed: _,
        } = self;
    }
}

impl MemoryStores {
    /// Those of a node that has done nothing. It takes no memory.
    pub fn new(alloc: Global) -> MemoryStores
        ensures { (e : ℕ) → closed_state result e ≡ initial_saved }
    {
        MemoryStores {
            alloc,
            closed: BTreeMap::new(alloc),
        }
    }
}

impl EpochStores for MemoryStores {
    type Store = MemoryStore;

    // A node may save any state.
    ghost may_hold = { λ _ _ _. Unit {0} };

    fn open(&mut self, epoch: u64) -> Result<MemoryStore, Refusal>
        ensures opened { IsOk result }
        ensures found { IfOk result (λ store. store.last ≡ closed_state self.old epoch) }
        ensures others { ChangesState self.old self.new epoch initial_saved }
    {
        match self.closed.remove(&epoch) {
            Some(store) => Ok(store),
            None => Ok(MemoryStore::new(self.alloc)),
        }
    }

    fn close(&mut self, epoch: u64, store: MemoryStore) -> bool
        ensures closed { result ≡ true → ChangesState self.old self.new epoch store.last }
        ensures refused { result ≡ false → (e : ℕ) → closed_state self.new e ≡ closed_state self.old e }
    {
        self.closed.insert(epoch, store).is_ok()
    }
}
