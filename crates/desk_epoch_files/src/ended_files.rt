//! The files of a node that has ended.

ghost use Rattle.std.specs.Prelude.{◌≡◌, ◌≤◌, List, ℕ, IsTrue, IsFalse, IsOk, Err, IfErr, OnOk};
ghost use Rattle.std.specs.Io.KnownBytes.{Keeps};
ghost use Rattle.sqlite.specs.Held.{Held};
ghost use Rattle.desk_types.specs.declared.refusal.Refusal.TheVariants as refusals;
ghost use Rattle.desk_output.specs.Printing.{PrintsFirst};
ghost use Rattle.desk_output.specs.declared.printing.TheConstants.{DONE, FAILED};
ghost use Rattle.desk_epoch_files.specs.Additions.{AddsNone};
ghost use Rattle.desk_epoch_files.specs.Reports.{TellsReplaced, ended_refusal};

use crate::epoch_files::EpochFiles;
use crate::named_databases::NamedDatabases;
use desk_epoch_stores::EndedStores;
use desk_file::FileEnd;
use desk_saved::SavedState;
use desk_types::Refusal;
use std::io::Write;

/// The files of a node that has ended, all of which are closed.
pub struct EndedFiles<D: NamedDatabases> {
    files: EpochFiles<D>,
    /// The epoch in which the node ended, counted from 0.
    epoch: u64,
    /// How it ended, and what in the file of that epoch that is due to.
    pub end: FileEnd,
    /// Whether all that was saved stands in the file of that epoch.
    is_whole: bool,
}

// Written out, so that callers need not prove each part's drop.
impl<D: NamedDatabases + Drop> Drop for EndedFiles<D> {
    fn drop(self) {
        let EndedFiles {
            files: _,
            epoch: _,
            end: _,
            is_whole: _,
        } = self;
    }
}

impl<D: NamedDatabases> EndedFiles<D> {
    /// Closes the files of a node that ended so.
    pub fn of_node(
        ended: EndedStores<EpochFiles<D>, SavedState<D::Pages>>,
        outcome: Result<(), Refusal>,
    ) -> EndedFiles<D>
        ensures outcome { result.end.outcome ≡ outcome }
        ensures epoch { result.epoch ≡ ended.epoch }
        ensures files { result.files ≡ record ended.stores { databases = result.files.databases } }
        ensures same { (at : List ℕ) → (c : Held D.Pages) → D.may_open result.files.databases at c
            → D.may_open ended.stores.databases at c }
        ensures adds { AddsNone (D.may_find ended.stores.databases) (D.may_find result.files.databases) }
    {
        let EndedStores {
            stores: mut files,
            epoch,
            current,
            next,
        } = ended;
        if let Some(next) = next {
            // The node saved nothing there.
            let _ = files.close_epoch(epoch.saturating_add(1), next);
        }
        let (end, is_whole) = files.end_epoch(epoch, current, outcome);
        EndedFiles {
            files,
            epoch,
            end,
            is_whole,
        }
    }

    /// Prints to the standard error how the node ended, where that was not well, and of which file; and answers the
    /// exit status. That is 0 where the node ended well, and all that was saved stands in the file of its epoch.
    pub fn status<E: Write>(&self, errors: &mut E) -> u8
        ensures status { result ≤ FAILED }
        ensures done { result ≡ DONE → IsTrue self.now.is_whole × IsOk self.now.end.outcome }
        ensures failed { IfErr self.now.end.outcome (λ _. result ≡ FAILED) }
        // What is printed first is the line of what ended it, or of `StoreFault` where its file was not closed.
        ensures printed { IfErr self.now.end.outcome (λ r. PrintsFirst (E.contents errors.old) (E.contents errors.new)
            (ended_refusal self.now.files.error self.now.epoch r)) }
        ensures replaced { self.now.end.outcome ≡ Err refusals.NodeStopped
            → TellsReplaced (E.contents errors.old) (E.contents errors.new) }
        ensures unclosed { OnOk self.now.end.outcome (IsFalse self.now.is_whole →
            PrintsFirst (E.contents errors.old) (E.contents errors.new) refusals.StoreFault) }
        ensures unprinted { result ≡ DONE → Keeps (E.contents errors.old) (E.contents errors.new) }
    {
        self.files
            .end_status(errors, self.epoch, &self.end, self.is_whole)
    }
}
