//! The error of a file of an epoch that is not opened, and what is printed of it to standard error.

ghost use Rattle.std.specs.Prelude.{◌≡◌};
ghost use Rattle.desk_types.specs.declared.refusal.Refusal.TheVariants as refusals;
ghost use Rattle.desk_output.specs.Printing.{PrintsFirst};
ghost use Rattle.desk_output.specs.declared.printing.TheConstants.{FAILED};
ghost use Rattle.desk_saved.specs.Opening.{IsOpeningRefusal};
ghost use Rattle.desk_file.specs.Names.{name_in_epoch};
ghost use Rattle.desk_epoch_files.specs.declared.cause.Cause.TheVariants as causes;
ghost use Rattle.desk_epoch_files.specs.Causes.{unopened_refusal, cause_refusal};
ghost use Rattle.desk_epoch_files.specs.Reports.{TellsMissing, is_after};

use crate::cause::{Cause, cause_refusal, unopened_refusal};
use desk_file::{FileEnd, NodeFile, closed_status, name_in_epoch, unopened_status};
use desk_output::LinePart::{Number, Text};
use desk_output::{refusal_status, refusal_status_with};
use desk_types::{Owner, Refusal};
use std::alloc::Global;
use std::io::Write;

/// Tells the standard error why no state of a node was opened in its file, and answers the exit status.
fn state_status<E: Write>(errors: &mut E, file: NodeFile<'_>, end: &FileEnd) -> u8
    ensures status { result ≡ FAILED }
    ensures printed { PrintsFirst (E.contents errors.old) (E.contents errors.new) (unopened_refusal end.now.outcome) }
{
    match &end.outcome {
        Err(Refusal::WantOfMemory | Refusal::WrongFile | Refusal::StoreFault) => {
            closed_status(errors, file, end, true)
        }
        _ => refusal_status(errors, &unopened_refusal(&end.outcome)),
    }
}

/// Tells the standard error that the file of this name is missing, and answers the exit status.
fn missing_status<E: Write>(errors: &mut E, name: &str) -> u8
    ensures status { result ≡ FAILED }
    ensures printed { TellsMissing (E.contents errors.old) (E.contents errors.new) name.now }
{
    let line = [Text("desk: "), Text(name), Text(" is missing\n")];
    refusal_status_with(errors, &Refusal::WrongFile, &line)
}

/// Tells the standard error that a file is that of a node with epochs of so many places, and answers the exit status.
fn places_status<E: Write>(errors: &mut E, name: &str, places: u64) -> u8
    ensures status { result ≡ FAILED }
    ensures printed { PrintsFirst (E.contents errors.old) (E.contents errors.new) refusals.WrongFile }
{
    let more = [
        Text("desk: "),
        Text(name),
        Text(" has epochs of "),
        Number(places),
        Text(" places\n"),
    ];
    refusal_status_with(errors, &Refusal::WrongFile, &more)
}

/// The file of this epoch is not opened or made, for this cause.
#[derive(Drop)]
pub(crate) struct OpenError {
    epoch: u64,
    cause: Cause,
}

impl OpenError {
    /// The error of an epoch's file.
    pub(crate) fn new(epoch: u64, cause: Cause) -> OpenError
        ensures { result ≡ record { epoch = epoch; cause = cause } }
    {
        OpenError { epoch, cause }
    }

    /// The refusal that it is.
    pub(crate) fn refusal(&self) -> Refusal
        ensures value { result ≡ cause_refusal self.now.cause }
        ensures kind { IsOpeningRefusal result }
    {
        cause_refusal(&self.cause)
    }

    /// Whether it is of a later epoch than this one, and other than want of memory.
    pub(crate) fn is_after(&self, epoch: u64) -> bool
        ensures { result ≡ is_after self.now epoch }
    {
        epoch < self.epoch && !self.refusal().is_want_of_memory()
    }

    /// Tells the standard error why the file of a node is not opened, and which, and answers the exit status.
    pub(crate) fn status<E: Write>(
        &self,
        alloc: Global,
        errors: &mut E,
        file: &str,
        owner: &Owner,
    ) -> u8
        ensures status { result ≡ FAILED }
        ensures printed { PrintsFirst (E.contents errors.old) (E.contents errors.new) (cause_refusal self.now.cause) }
        ensures missing { self.now.cause ≡ causes.Missing → TellsMissing (E.contents errors.old) (E.contents errors.new)
            (name_in_epoch file.now self.now.epoch) }
    {
        let Ok(name) = name_in_epoch(alloc, file, self.epoch) else {
            return refusal_status(errors, &self.refusal());
        };
        let why = match &self.cause {
            Cause::NoMemory => return refusal_status(errors, &Refusal::WantOfMemory),
            Cause::Unopened(error) => return unopened_status(errors, name.as_str(), error),
            Cause::NoState(end) => {
                return state_status(errors, NodeFile::new(name.as_str(), owner), end);
            }
            Cause::Missing => return missing_status(errors, name.as_str()),
            Cause::NoTable => " can not be read or written, or has another table epoch",
            Cause::OtherEpoch => " is not the file of its epoch",
            Cause::Used => " is used, though the epoch before it has not ended",
            Cause::NoMemberTable => " can not be read or written, or has another table member",
            Cause::OtherMember => " has another table member",
            Cause::OtherPlaces(places) => return places_status(errors, name.as_str(), *places),
            Cause::OtherToken => " is the file of a node with another token",
            Cause::NoToken => " is the file of a node with no token",
        };
        let more = [Text("desk: "), Text(name.as_str()), Text(why), Text("\n")];
        refusal_status_with(errors, &self.refusal(), &more)
    }
}
