//! The files of a node's past epochs, which are read beside those that the node goes on with.

ghost use Rattle.std.specs.Prelude.{◌≡◌, ℕ, true, false, IfSome, string_bytes};
ghost use Rattle.desk_log.specs.SavedValue.{SavedValue};
ghost use Rattle.desk_epoch_files.specs.Opening.{MayHold};

use crate::epoch_files::{EpochFiles, open_file};
use crate::named_databases::NamedDatabases;
use desk_saved::SavedState;
use desk_types::Owner;
use std::alloc::Global;

/// The files of a node's past epochs.
pub struct PastFiles<D: NamedDatabases> {
    alloc: Global,
    databases: D,
    /// The name of the first file.
    file: String,
    owner: Owner,
}

// Written out, so that callers need not prove each part's drop.
impl<D: NamedDatabases + Drop> Drop for PastFiles<D> {
    fn drop(self) {
        let PastFiles {
            alloc: _,
            databases: _,
            file: _,
            owner: _,
        } = self;
    }
}

/// Whether both are one name.
fn is_same_name(one: &str, other: &str) -> bool
    ensures { result ≡ true → one.now ≡ other.now }
{
    one == other
}

/// Whether both are the same node of the same group.
fn is_same_node(one: &Owner, other: &Owner) -> bool
    ensures { result ≡ true → one.now ≡ other.now }
{
    one.id == other.id && one.n == other.n && one.domain == other.domain
}

impl<D: NamedDatabases + Copy> PastFiles<D> {
    /// The files of a node, of which the first one has this name.
    pub fn new(alloc: Global, databases: D, file: String, owner: Owner) -> PastFiles<D>
        ensures { result ≡ record { alloc = alloc; databases = databases; file = file; owner = owner } }
    {
        PastFiles {
            alloc,
            databases,
            file,
            owner,
        }
    }

    /// Opens the node's file of an epoch that has ended, counted from 0. None where memory is refused, or the file is
    /// missing, another epoch's or another node's, or can't be opened, read or written.
    pub fn open(&self, epoch: u64) -> Option<SavedState<D::Pages>>
        ensures running { IfSome result (λ store. store.stopped ≡ false) }
        ensures held { IfSome result (λ store. MayHold D.Pages.Store self.now.owner (D.may_open self.now.databases)
            (string_bytes self.now.file) epoch store.last) }
    {
        let mut databases = self.databases;
        let file = self.file.as_str();
        open_file(self.alloc, &mut databases, file, &self.owner, epoch).ok()
    }

    /// Whether these are files that the node goes on with.
    pub fn are_of(&self, files: &EpochFiles<D>) -> bool
        ensures { result ≡ true → (e : ℕ) → (s : SavedValue) → MayHold D.Pages.Store self.now.owner
            (D.may_open self.now.databases) (string_bytes self.now.file) e s → MayHold D.Pages.Store files.now.owner
            (D.may_open files.now.databases) (string_bytes files.now.file) e s }
    {
        if !files.databases.covers(&self.databases) {
            return false;
        }
        is_same_name(self.file.as_str(), files.file.as_str())
            && is_same_node(&self.owner, &files.owner)
    }
}
