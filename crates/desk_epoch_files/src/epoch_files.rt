//! The files of a node's epochs, as they are opened one after the other.

ghost use Rattle.std.specs.Prelude.{◌≡◌, ◌<◌, ◌≤◌, ◌+◌, ◌⊎◌, List, ℕ, IsTrue, IsFalse, false, true, Some, None};
ghost use Rattle.std.specs.Prelude.{IfOk, IfErr, IfSome, IsOk, MatchOption, OnOk, Ok, Err, string_bytes};
ghost use Rattle.std.specs.Io.KnownBytes.{Keeps};
ghost use Rattle.sqlite.specs.Held.{Held};
ghost use Rattle.desk_types.specs.declared.limits.TheConstants.{LAST_PLACE};
ghost use Rattle.desk_types.specs.declared.refusal.Refusal.TheVariants as refusals;
ghost use Rattle.desk_output.specs.Printing.{PrintsFirst};
ghost use Rattle.desk_output.specs.declared.printing.TheConstants.{DONE, FAILED};
ghost use Rattle.desk_log.specs.SavedValue.{SavedValue};
ghost use Rattle.desk_saved.specs.Opening.{IsOpeningRefusal};
ghost use Rattle.desk_file.specs.Names.{name_in_epoch};
ghost use Rattle.desk_epoch_files.specs.declared.cause.Cause.TheVariants as causes;
ghost use Rattle.desk_epoch_files.specs.Additions.{AddsNone, AddsOnly, MayAddNext, MayAddSecond};
ghost use Rattle.desk_epoch_files.specs.Causes.{BlamesFile, BlamesMember, IsUnfound, cause_refusal};
ghost use Rattle.desk_epoch_files.specs.Ends.{has_ended_at};
ghost use Rattle.desk_epoch_files.specs.Members.{MayBeStartedOtherwise, MayStartWith};
ghost use Rattle.desk_epoch_files.specs.Reports.{TellsMissing, TellsReplaced, ended_refusal, reported_refusal};
ghost use Rattle.desk_epoch_files.specs.Opening.{MayBeOthers, MayBeReady, MayHold, OpensEpoch};

use crate::cause::{Cause, table_cause};
use crate::member_table::start_in_file;
use crate::named_databases::NamedDatabases;
use crate::next_file::make_file;
use crate::open_error::OpenError;
use desk_epoch_node::has_ended as reaches_end;
use desk_epoch_stores::EpochStores;
use desk_file::{
    EndedFile, FileEnd, NodeFile, closed_status, is_of_epoch, name_in_epoch, open_node,
};
use desk_log::Saved;
use desk_output::LinePart::Text;
use desk_output::{DONE, refusal_status, refusal_status_with};
use desk_saved::SavedState;
use desk_types::limits::LAST_PLACE;
use desk_types::{Owner, Refusal};
use sqlite::{Alter, Connection};
use std::alloc::Global;
use std::io::Write;

/// Opens the state of a node in a database, where that is its file of an epoch, by its mark. Where it is refused the
/// connection is given back.
fn open_state<S: Alter>(
    alloc: Global,
    connection: Connection<S>,
    owner: &Owner,
    epoch: u64,
) -> Result<SavedState<S>, (Option<Connection<S>>, Cause)>
    ensures running { IfOk result (λ store. store.stopped ≡ false) }
    ensures opened { IfOk result (OpensEpoch S.Store owner.now epoch connection) }
{
    let mut connection = connection;
    match is_of_epoch(&mut connection, epoch) {
        Ok(true) => {}
        Ok(false) => return Err((Some(connection), Cause::OtherEpoch)),
        Err(refusal) => return Err((Some(connection), table_cause(&refusal))),
    }
    match open_node(alloc, connection, owner) {
        Ok(store) => Ok(store),
        Err(EndedFile { connection, end }) => Err((connection, Cause::NoState(end))),
    }
}

/// Opens a node's file of an epoch. That of the first epoch is made where it is missing, and no other. A file that is
/// refused is closed.
pub(crate) fn open_file<D: NamedDatabases>(
    alloc: Global,
    databases: &mut D,
    file: &str,
    owner: &Owner,
    epoch: u64,
) -> Result<SavedState<D::Pages>, Cause>
    ensures running { IfOk result (λ store. store.stopped ≡ false) }
    ensures held { IfOk result (λ store. MayHold D.Pages.Store owner.now (D.may_open databases.old) file.now epoch
        store.last) }
    ensures there { 0 < epoch → IfOk result (λ _. D.may_find databases.old (name_in_epoch file.now epoch) (Ok true)) }
    ensures missing { 0 < epoch → ¬ (D.may_find databases.old (name_in_epoch file.now epoch) (Ok true))
        → IfErr result (IsUnfound (D.may_find databases.old (name_in_epoch file.now epoch))) }
    ensures adds { AddsOnly (D.may_find databases.old) (D.may_find databases.new)
        (λ at. (epoch ≡ 0) × (at ≡ name_in_epoch file.now epoch)) }
    ensures same { (at : List ℕ) → (c : Held D.Pages) → D.may_open databases.new at c
        → D.may_open databases.old at c }
{
    let Ok(name) = name_in_epoch(alloc, file, epoch) else {
        return Err(Cause::NoMemory);
    };
    match databases.is_there(name.as_str()) {
        Ok(is_there) if is_there || epoch == 0 => {}
        Ok(_) => return Err(Cause::Missing),
        Err(error) => return Err(Cause::Unopened(error)),
    }
    let connection = match databases.open(name.as_str()) {
        Ok(connection) => connection,
        Err(error) => return Err(Cause::Unopened(error)),
    };
    match open_state(alloc, connection, owner, epoch) {
        Ok(store) => Ok(store),
        Err((mut connection, cause)) => {
            let _ = databases.close(name.as_str(), &mut connection);
            Err(cause)
        }
    }
}

/// Whether what is committed of a state reaches the end of its epoch, which comes after `most` entries, or after the
/// first that names a replacement.
fn has_ended(saved: &Saved, most: u64) -> bool
    ensures { result ≡ has_ended_at most saved.now }
{
    if most == 0 {
        return true;
    }
    // What is committed stands in the log.
    prove!(saved.commit() <= saved.log().len());
    reaches_end(saved.log(), saved.commit(), most)
}

/// Tells the standard error that another node acts in the place of this one, and answers the exit status.
fn replaced_status<E: Write>(errors: &mut E) -> u8
    ensures status { result ≡ FAILED }
    ensures printed { TellsReplaced (E.contents errors.old) (E.contents errors.new) }
    ensures first { PrintsFirst (E.contents errors.old) (E.contents errors.new) refusals.NodeStopped }
{
    let more = [Text("desk: another node acts in the place of this one\n")];
    refusal_status_with(errors, &Refusal::NodeStopped, &more)
}

/// Tells the standard error how the work over a file ended, for whose name there is no memory, where that was not well,
/// and answers the exit status.
fn unnamed_status<E: Write>(errors: &mut E, outcome: &Result<(), Refusal>, is_whole: bool) -> u8
    ensures status { result ≤ FAILED }
    ensures done { result ≡ DONE → IsTrue is_whole × IsOk outcome.now }
    ensures failed { IfErr outcome.now (λ _. result ≡ FAILED) }
    ensures printed { IfErr outcome.now (PrintsFirst (E.contents errors.old) (E.contents errors.new)) }
    ensures unclosed { OnOk outcome.now (IsFalse is_whole →
        PrintsFirst (E.contents errors.old) (E.contents errors.new) refusals.StoreFault) }
    ensures unprinted { result ≡ DONE → Keeps (E.contents errors.old) (E.contents errors.new) }
{
    match outcome {
        Err(refusal) => refusal_status(errors, refusal),
        Ok(()) if is_whole => DONE,
        Ok(()) => refusal_status(errors, &Refusal::StoreFault),
    }
}

/// The files of a node over epochs. Each epoch ends after so many entries, `most`.
pub struct EpochFiles<D: NamedDatabases> {
    alloc: Global,
    pub(crate) databases: D,
    /// The name of the first file.
    pub(crate) file: String,
    pub(crate) owner: Owner,
    most: u64,
    /// Whether a first file whose epoch has ended gets a second one, as an operator asks for.
    adds_second: bool,
    /// Why the latest call opened no file; nothing where it opened one.
    error: Option<OpenError>,
}

// Written out, so that callers need not prove each part's drop.
impl<D: NamedDatabases + Drop> Drop for EpochFiles<D> {
    fn drop(self) {
        let EpochFiles {
            alloc: _,
            databases: _,
            file: _,
            owner: _,
            most: _,
            adds_second: _,
            error: _,
        } = self;
    }
}

impl<D: NamedDatabases> EpochFiles<D> {
    /// The files of a node, of which the first one has this name. An epoch ends after so many entries, `most`. Where
    /// `adds_second`, a first file whose epoch has ended gets a second one, as a desk of one file leaves none.
    pub fn new(
        alloc: Global,
        databases: D,
        file: String,
        owner: Owner,
        most: u64,
        adds_second: bool,
    ) -> EpochFiles<D>
        ensures { result ≡ record {
          alloc = alloc;
          databases = databases;
          file = file;
          owner = owner;
          most = most;
          adds_second = adds_second;
          error = None;
        } }
    {
        EpochFiles {
            alloc,
            databases,
            file,
            owner,
            most,
            adds_second,
            error: None,
        }
    }

    /// What opens the databases.
    pub fn into_databases(self) -> D
        ensures { result ≡ self.databases }
    {
        let EpochFiles {
            alloc: _,
            databases,
            file: _,
            owner: _,
            most: _,
            adds_second: _,
            error: _,
        } = self;
        databases
    }

    /// Prints to the standard error why the latest call did not open a file, and which, and answers the exit status.
    /// Where that call opened one, it prints the given refusal.
    pub fn refusal_status<E: Write>(&self, errors: &mut E, refusal: &Refusal) -> u8
        ensures status { result ≡ FAILED }
        ensures printed { PrintsFirst (E.contents errors.old) (E.contents errors.new)
            (reported_refusal self.now.error refusal.now) }
        ensures replaced { reported_refusal self.now.error refusal.now ≡ refusals.NodeStopped
            → TellsReplaced (E.contents errors.old) (E.contents errors.new) }
        ensures missing { IfSome self.now.error (λ error. error.cause ≡ causes.Missing → TellsMissing
            (E.contents errors.old) (E.contents errors.new)
            (name_in_epoch (string_bytes self.now.file) error.epoch)) }
    {
        match (&self.error, refusal) {
            (Some(error), _) => error.status(self.alloc, errors, self.file.as_str(), &self.owner),
            (None, Refusal::NodeStopped) => replaced_status(errors),
            (None, _) => refusal_status(errors, refusal),
        }
    }

    /// The token of the node. A later start is given the one that the first file preserves, and a new node the one that
    /// is named here, where one is, else 0; the file of such a one preserves it, and how many entries end an epoch.
    /// Err is `WrongFile` where the first file preserves another token than the one that is named, or another number
    /// of entries. It is `WantOfMemory` where memory is refused, and `StoreFault` where the file can't be opened, read
    /// or written. `refusal_status` prints which it is.
    pub fn start_member(&mut self, given: Option<u64>) -> Result<u64, Refusal>
        ensures given { IfSome given (λ named. IfOk result (λ token. token ≡ named)) }
        ensures starts { IfOk result (MayStartWith D.Pages.Store given self.old.most (D.may_open self.old.databases)
            (string_bytes self.old.file)) }
        // The file is refused for what it preserves only where that is other than what is asked for.
        ensures other { IfErr result (λ _. IfSome self.new.error (λ error. BlamesMember error.cause
            → MayBeStartedOtherwise D.Pages.Store given self.old.most (D.may_open self.old.databases)
            (string_bytes self.old.file))) }
        ensures fault { IfErr result IsOpeningRefusal }
        ensures reported { IfErr result (λ r. reported_refusal self.new.error r ≡ r) }
        ensures started { IsOk result → self.new.error ≡ None }
        ensures adds { AddsOnly (D.may_find self.old.databases) (D.may_find self.new.databases)
            (λ at. at ≡ string_bytes self.old.file) }
        ensures same { (at : List ℕ) → (c : Held D.Pages) → D.may_open self.new.databases at c
            → D.may_open self.old.databases at c }
        ensures files { self.new ≡ record self.old { databases = self.new.databases; error = self.new.error } }
    {
        drop(self.error.take());
        let file = self.file.as_str();
        match start_in_file(self.alloc, &mut self.databases, file, given, self.most) {
            Ok(token) => Ok(token),
            Err(cause) => Err(self.fail(OpenError::new(0, cause))),
        }
    }

    /// Whether the second file is made though the first epoch has ended: where an operator asks for it and there is no
    /// third file. That is made where the second one is opened, so it shows that the second one was lost.
    fn may_add_second(&mut self, epoch: u64) -> Result<bool, OpenError>
        ensures asked { IfOk result (λ is. IsTrue is → MayAddSecond self.old.adds_second
            (D.may_find self.old.databases) (string_bytes self.old.file) epoch) }
        ensures unblamed { IfErr result (λ error. ¬ (BlamesFile error.cause)) }
        ensures adds { AddsNone (D.may_find self.old.databases) (D.may_find self.new.databases) }
        ensures same { (at : List ℕ) → (c : Held D.Pages) → D.may_open self.new.databases at c
            → D.may_open self.old.databases at c }
        ensures files { self.new ≡ record self.old { databases = self.new.databases } }
    {
        if !self.adds_second || epoch != 0 {
            return Ok(false);
        }
        let Ok(name) = name_in_epoch(self.alloc, self.file.as_str(), 2) else {
            return Err(OpenError::new(2, Cause::NoMemory));
        };
        match self.databases.is_there(name.as_str()) {
            Ok(is_there) => Ok(!is_there),
            Err(error) => Err(OpenError::new(2, Cause::Unopened(error))),
        }
    }

    /// Makes the file of an epoch, where it is not there or not whole.
    fn make_ahead(&mut self, epoch: u64, has_ended: bool) -> Result<(), OpenError>
        ensures made { OnOk result (MayBeReady D.Pages.Store self.old.owner (D.may_open self.old.databases)
            (string_bytes self.old.file) epoch has_ended) }
        ensures other { IfErr result (λ error. BlamesFile error.cause → MayBeOthers D.Pages.Store self.old.owner
            (D.may_open self.old.databases) (string_bytes self.old.file) epoch) }
        ensures adds { AddsOnly (D.may_find self.old.databases) (D.may_find self.new.databases)
            (λ at. at ≡ name_in_epoch (string_bytes self.old.file) epoch) }
        ensures same { (at : List ℕ) → (c : Held D.Pages) → D.may_open self.new.databases at c
            → D.may_open self.old.databases at c }
        ensures files { self.new ≡ record self.old { databases = self.new.databases } }
    {
        let file = self.file.as_str();
        match make_file(
            self.alloc,
            &mut self.databases,
            file,
            &self.owner,
            epoch,
            has_ended,
        ) {
            Ok(()) => Ok(()),
            Err(cause) => Err(OpenError::new(epoch, cause)),
        }
    }

    /// Makes the file of the next epoch, where it is not there. After an epoch that has ended it is made only where an
    /// operator asks for it: else one that is missing was lost.
    fn prepare_next(&mut self, epoch: u64, store: &SavedState<D::Pages>) -> Result<(), OpenError>
        ensures made { epoch < LAST_PLACE → has_ended_at self.old.most store.now.last ≡ false → OnOk result
            (MayBeReady D.Pages.Store self.old.owner (D.may_open self.old.databases) (string_bytes self.old.file)
            (epoch + 1) false) }
        ensures other { IfErr result (λ error. BlamesFile error.cause → MayBeOthers D.Pages.Store self.old.owner
            (D.may_open self.old.databases) (string_bytes self.old.file) (epoch + 1)) }
        ensures adds { AddsOnly (D.may_find self.old.databases) (D.may_find self.new.databases)
            (MayAddNext self.old.most self.old.adds_second (D.may_find self.old.databases) (string_bytes self.old.file)
            epoch store.now.last) }
        ensures same { (at : List ℕ) → (c : Held D.Pages) → D.may_open self.new.databases at c
            → D.may_open self.old.databases at c }
        ensures files { self.new ≡ record self.old { databases = self.new.databases } }
    {
        let Ok(saved) = store.last_saved() else {
            return Err(OpenError::new(epoch, Cause::NoMemory));
        };
        if epoch >= LAST_PLACE {
            return Ok(());
        }
        let is_over = has_ended(&saved, self.most);
        if !is_over {
            return self.make_ahead(epoch + 1, false);
        }
        if self.may_add_second(epoch)? {
            return self.make_ahead(epoch + 1, true);
        }
        Ok(())
    }

    /// Notes why a file was not opened, and answers the refusal.
    fn fail(&mut self, error: OpenError) -> Refusal
        ensures refusal { result ≡ cause_refusal error.cause }
        ensures kind { IsOpeningRefusal result }
        ensures error { self.new ≡ record self.old { error = Some error } }
    {
        let refusal = error.refusal();
        self.error = Some(error);
        refusal
    }

    /// Closes the file of an epoch: whether all that was saved stands in the file. Else it is to be opened with what
    /// stands beside it.
    pub fn close_epoch(&mut self, epoch: u64, store: SavedState<D::Pages>) -> bool
        ensures adds { AddsNone (D.may_find self.old.databases) (D.may_find self.new.databases) }
        ensures same { (at : List ℕ) → (c : Held D.Pages) → D.may_open self.new.databases at c
            → D.may_open self.old.databases at c }
        ensures files { self.new ≡ record self.old { databases = self.new.databases } }
    {
        match name_in_epoch(self.alloc, self.file.as_str(), epoch) {
            Ok(name) => {
                let mut connection = Some(store.into_connection());
                self.databases.close(name.as_str(), &mut connection)
            }
            Err(_) => {
                drop(store);
                false
            }
        }
    }

    /// Closes the file of an epoch after the work over it, which ended so: how that ended, with what in the file it is
    /// due to, and whether all that was saved stands in the file.
    pub(crate) fn end_epoch(
        &mut self,
        epoch: u64,
        store: SavedState<D::Pages>,
        outcome: Result<(), Refusal>,
    ) -> (FileEnd, bool)
        ensures outcome { result.0.outcome ≡ outcome }
        ensures adds { AddsNone (D.may_find self.old.databases) (D.may_find self.new.databases) }
        ensures same { (at : List ℕ) → (c : Held D.Pages) → D.may_open self.new.databases at c
            → D.may_open self.old.databases at c }
        ensures files { self.new ≡ record self.old { databases = self.new.databases } }
    {
        let EndedFile {
            mut connection,
            end,
        } = EndedFile::of_node(self.alloc, Some(store), outcome);
        match name_in_epoch(self.alloc, self.file.as_str(), epoch) {
            Ok(name) => {
                let is_whole = self.databases.close(name.as_str(), &mut connection);
                (end, is_whole)
            }
            Err(_) => {
                drop(connection);
                (end, false)
            }
        }
    }

    /// Why the file of a later epoch was not opened, where the node of an epoch ended by that: nothing else fails then
    /// but its store.
    fn error_of_end(&self, epoch: u64, outcome: &Result<(), Refusal>) -> Option<&OpenError>
        ensures well { OnOk outcome.now (result ≡ None) }
        ensures error { IfErr outcome.now (λ r. MatchOption result (ended_refusal self.now.error epoch r ≡ r)
            (λ error. ended_refusal self.now.error epoch r ≡ cause_refusal error.now.cause)) }
    {
        match (outcome, &self.error) {
            (Err(Refusal::StoreFault), Some(error)) if error.is_after(epoch) => Some(error),
            _ => None,
        }
    }

    /// Prints to the standard error how the work over the file of an epoch ended, where that was not well, and answers
    /// the exit status. A node that ended as the file of a later epoch was not opened ends by what refused that file.
    pub(crate) fn end_status<E: Write>(
        &self,
        errors: &mut E,
        epoch: u64,
        end: &FileEnd,
        is_whole: bool,
    ) -> u8
        ensures status { result ≤ FAILED }
        ensures done { result ≡ DONE → IsTrue is_whole × IsOk end.now.outcome }
        ensures failed { IfErr end.now.outcome (λ _. result ≡ FAILED) }
        ensures printed { IfErr end.now.outcome (λ r. PrintsFirst (E.contents errors.old) (E.contents errors.new)
            (ended_refusal self.now.error epoch r)) }
        ensures replaced { end.now.outcome ≡ Err refusals.NodeStopped
            → TellsReplaced (E.contents errors.old) (E.contents errors.new) }
        ensures unclosed { OnOk end.now.outcome (IsFalse is_whole →
            PrintsFirst (E.contents errors.old) (E.contents errors.new) refusals.StoreFault) }
        ensures unprinted { result ≡ DONE → Keeps (E.contents errors.old) (E.contents errors.new) }
    {
        let file = self.file.as_str();
        if let Some(error) = self.error_of_end(epoch, &end.outcome) {
            return error.status(self.alloc, errors, file, &self.owner);
        }
        if let Err(Refusal::NodeStopped) = &end.outcome {
            return replaced_status(errors);
        }
        match name_in_epoch(self.alloc, file, epoch) {
            Ok(name) => {
                let file = NodeFile::new(name.as_str(), &self.owner);
                closed_status(errors, file, end, is_whole)
            }
            Err(_) => unnamed_status(errors, &end.outcome, is_whole),
        }
    }

    /// Opens a node's file of an epoch, counted from 0, and makes that of the next one, unless the epoch has ended. The
    /// first file is made where it is missing. Err is `WantOfMemory` where memory is refused, and `StoreFault` where a
    /// file can't be opened, read or written. It is `WrongFile` where a file is missing, where it is another epoch's or
    /// node's, and where that of an epoch which has not begun is used. `refusal_status` prints which file it is.
    /// Nothing is deleted then: a file that was made in part is finished by a later call.
    pub fn open_epoch(&mut self, epoch: u64) -> Result<SavedState<D::Pages>, Refusal>
        ensures running { IfOk result (λ store. store.stopped ≡ false) }
        ensures held { IfOk result (λ store. MayHold D.Pages.Store self.old.owner (D.may_open self.old.databases)
            (string_bytes self.old.file) epoch store.last) }
        // Where the epoch has not ended, the file of the next one is there, and is whole.
        ensures next { epoch < LAST_PLACE → IfOk result (λ store. has_ended_at self.old.most store.last ≡ false
            → MayBeReady D.Pages.Store self.old.owner (D.may_open self.old.databases) (string_bytes self.old.file)
            (epoch + 1) false) }
        // That file is refused for what it holds only where it is another's.
        ensures other { IfErr result (λ _. IfSome self.new.error (λ error. error.epoch ≡ epoch + 1
            → BlamesFile error.cause → MayBeOthers D.Pages.Store self.old.owner (D.may_open self.old.databases)
            (string_bytes self.old.file) (epoch + 1))) }
        // A file after the first is opened only where a look finds it. Else it is the one that is said to be missing.
        ensures there { 0 < epoch → IfOk result (λ _.
            D.may_find self.old.databases (name_in_epoch (string_bytes self.old.file) epoch) (Ok true)) }
        ensures missing { 0 < epoch
            → ¬ (D.may_find self.old.databases (name_in_epoch (string_bytes self.old.file) epoch) (Ok true))
            → IfErr result (λ _. MatchOption self.new.error ⊥ (λ error. (error.epoch ≡ epoch) × IsUnfound
            (D.may_find self.old.databases (name_in_epoch (string_bytes self.old.file) epoch)) error.cause)) }
        // No file is made but the first, and the next one after a state that the epoch's file may be found with.
        ensures adds { AddsOnly (D.may_find self.old.databases) (D.may_find self.new.databases) (λ at.
            ((epoch ≡ 0) × (at ≡ name_in_epoch (string_bytes self.old.file) epoch))
            ⊎ ((s : SavedValue) × IfOk result (λ store. store.last ≡ s) × MayHold D.Pages.Store self.old.owner
            (D.may_open self.old.databases) (string_bytes self.old.file) epoch s × MayAddNext self.old.most
            self.old.adds_second (D.may_find self.old.databases) (string_bytes self.old.file) epoch s at)) }
        ensures fault { IfErr result IsOpeningRefusal }
        ensures reported { IfErr result (λ r. reported_refusal self.new.error r ≡ r) }
        ensures opened { IsOk result → self.new.error ≡ None }
        ensures same { (at : List ℕ) → (c : Held D.Pages) → D.may_open self.new.databases at c
            → D.may_open self.old.databases at c }
        ensures files { (self.new.file ≡ self.old.file) × (self.new.owner ≡ self.old.owner) }
    {
        self.error = None;
        let file = self.file.as_str();
        let store = match open_file(self.alloc, &mut self.databases, file, &self.owner, epoch) {
            Ok(store) => store,
            Err(cause) => return Err(self.fail(OpenError::new(epoch, cause))),
        };
        match self.prepare_next(epoch, &store) {
            Ok(()) => Ok(store),
            Err(error) => {
                let _ = self.close_epoch(epoch, store);
                Err(self.fail(error))
            }
        }
    }
}

impl<D: NamedDatabases> EpochStores for EpochFiles<D> {
    type Store = SavedState<D::Pages>;

    // A file may be found with any state with which its database may be opened.
    ghost may_hold = { λ files epoch s. MayHold D.Pages.Store files.owner (D.may_open files.databases)
        (string_bytes files.file) epoch s };

    fn open(&mut self, epoch: u64) -> Result<SavedState<D::Pages>, Refusal> {
        self.open_epoch(epoch)
    }

    fn close(&mut self, epoch: u64, store: SavedState<D::Pages>) -> bool {
        self.close_epoch(epoch, store)
    }
}
