//! The files of a node's past epochs, as a node on a network reads them.

use desk_epoch_files::{EpochFiles, NamedDatabases, PastFiles};
use desk_network::PastStores;
use desk_saved::SavedState;
use desk_types::{Owner, WantOfMemory};
use std::alloc::Global;

/// The files of a node's past epochs.
pub(crate) struct PastEpochs<D: NamedDatabases> {
    files: PastFiles<D>,
}

// Written out, so that callers need not prove each part's drop.
impl<D: NamedDatabases + Drop> Drop for PastEpochs<D> {
    fn drop(self) {
        let PastEpochs { files: _ } = self;
    }
}

impl<D: NamedDatabases + Copy> PastEpochs<D> {
    /// Those of a node whose first file has this name.
    pub(crate) fn new(
        alloc: Global,
        databases: D,
        file: &str,
        owner: &Owner,
    ) -> Result<PastEpochs<D>, WantOfMemory> {
        let file = String::from_str(alloc, file)?;
        let owner = owner.copy()?;
        Ok(PastEpochs {
            files: PastFiles::new(alloc, databases, file, owner),
        })
    }
}

impl<D: NamedDatabases + Copy> PastStores<EpochFiles<D>> for PastEpochs<D> {
    ghost use Rattle.std.specs.Prelude.{string_bytes};
    ghost use Rattle.desk_epoch_files.specs.Opening.{MayHold};

    ghost may_hold = { λ past epoch s. MayHold D.Pages.Store past.files.owner (D.may_open past.files.databases)
        (string_bytes past.files.file) epoch s };

    fn open(&self, epoch: u64) -> Option<SavedState<D::Pages>> {
        self.files.open(epoch)
    }

    fn are_of(&self, stores: &EpochFiles<D>) -> bool {
        self.files.are_of(stores)
    }
}
