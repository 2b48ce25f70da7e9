//! A store in memory.

ghost use Rattle.std.specs.Prelude.{◌≡◌};
ghost use Rattle.desk_log.specs.SavedValue.{initial_saved};

use crate::saved::Saved;
use crate::state_store::StateStore;
use desk_types::{Refusal, WantOfMemory};
use std::alloc::Global;

/// Keeps the state of a node in memory, as long as it stands itself. Want of memory is a fault of this store.
#[derive(Drop)]
pub struct MemoryStore {
    last: Saved,
}

impl MemoryStore {
    /// That of a node that has done nothing. It takes no memory.
    pub fn new(alloc: Global) -> MemoryStore
        ensures { result.last ≡ initial_saved }
    {
        MemoryStore {
            last: Saved::initial(alloc),
        }
    }
}

impl StateStore for MemoryStore {
    ghost use Rattle.std.specs.Prelude.{false};

    ghost last = { λ store. store.last };

    ghost stopped = { λ _. false };

    ghost keeps = { λ _ _. Unit {0} };

    // It is never opened again.
    ghost leaves = { λ _ _ _. Unit {0} };

    fn copy_last(&self) -> Result<Saved, WantOfMemory> {
        self.last.copy()
    }

    fn save_state(&mut self, saved: &Saved, known: u64) -> Result<(), Refusal> {
        match self.last.follow(saved, known) {
            Ok(()) => Ok(()),
            Err(_) => Err(Refusal::StoreFault),
        }
    }

    ghost preserved_still = { λ _. tt };

    ghost preserved_further = { λ _ _ _ _ _. tt };
}
