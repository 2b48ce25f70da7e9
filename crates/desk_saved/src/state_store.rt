//! The saved state in a database, as that to which a keeper saves.

use crate::saved_state::SavedState;
use desk_log::{Saved, StateStore};
use desk_types::{Refusal, WantOfMemory};
use sqlite::Alter;

impl<S: Alter> StateStore for SavedState<S> {
    ghost use Rattle.desk_saved.specs.SameFile.{IsSameFile, HasFailed, file_still, file_further};

    ghost last = { λ file. file.last };

    ghost stopped = { λ file. file.stopped };

    ghost keeps = { IsSameFile S.Store };

    ghost leaves = { HasFailed S.Store };

    fn copy_last(&self) -> Result<Saved, WantOfMemory> {
        match self.last_saved() {
            Ok(saved) => Ok(saved),
            Err(_) => Err(WantOfMemory),
        }
    }

    fn save_state(&mut self, saved: &Saved, known: u64) -> Result<(), Refusal> {
        self.save_after(saved, known)
    }

    ghost preserved_still = { file_still _ };

    ghost preserved_further = { file_further _ };
}
