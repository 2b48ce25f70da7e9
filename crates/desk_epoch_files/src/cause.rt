//! Why files of epochs are not opened or made.

ghost use Rattle.std.specs.Prelude.{◌≡◌};
ghost use Rattle.desk_types.specs.declared.refusal.Refusal.TheVariants as refusals;
ghost use Rattle.desk_saved.specs.Opening.{IsOpeningRefusal};
ghost use Rattle.desk_epoch_files.specs.Causes.{BlamesFile, BlamesMember, unopened_refusal, cause_refusal};

use desk_file::FileEnd;
use desk_types::Refusal;
use sqlite::{Error, ErrorCode};

/// Why the file of an epoch is not opened or made.
#[derive(Drop)]
pub(crate) enum Cause {
    /// Memory is refused.
    NoMemory,
    /// The file is missing.
    Missing,
    /// Its database is not opened.
    Unopened(Error),
    /// Its table `epoch` can not be read or made.
    NoTable,
    /// It is not marked as the epoch's.
    OtherEpoch,
    /// No state of the node is opened in it.
    NoState(FileEnd),
    /// The epoch before it has not ended, and it has another state than a node's first.
    Used,
    /// Its table `member` can not be read or made.
    NoMemberTable,
    /// Its table `member` has other rows than the one of a node.
    OtherMember,
    /// It is the first file of a node with epochs of so many places, other than those that are asked for.
    OtherPlaces(u64),
    /// It is the first file of a node with another token than the one that is named.
    OtherToken,
    /// It is the first file of a node without a token, though one is named.
    NoToken,
}

/// The refusal of a state whose opening ended so.
pub(crate) fn unopened_refusal(outcome: &Result<(), Refusal>) -> Refusal
    ensures value { result ≡ unopened_refusal outcome.now }
    ensures kind { IsOpeningRefusal result }
{
    match outcome {
        Err(Refusal::WantOfMemory) => Refusal::WantOfMemory,
        Err(Refusal::WrongFile) => Refusal::WrongFile,
        _ => Refusal::StoreFault,
    }
}

/// The refusal of a file for this cause.
pub(crate) fn cause_refusal(cause: &Cause) -> Refusal
    ensures value { result ≡ cause_refusal cause.now }
    ensures kind { IsOpeningRefusal result }
{
    match cause {
        Cause::NoMemory => Refusal::WantOfMemory,
        Cause::Missing | Cause::OtherEpoch | Cause::Used => Refusal::WrongFile,
        Cause::OtherMember | Cause::OtherPlaces(_) => Refusal::WrongFile,
        Cause::OtherToken | Cause::NoToken => Refusal::WrongFile,
        Cause::NoTable | Cause::NoMemberTable => Refusal::StoreFault,
        Cause::Unopened(Error::SqliteFailure(ErrorCode::OutOfMemory)) => Refusal::WantOfMemory,
        Cause::Unopened(_) => Refusal::StoreFault,
        Cause::NoState(end) => unopened_refusal(&end.outcome),
    }
}

/// The cause where the table `epoch` of a file is refused so.
pub(crate) fn table_cause(refusal: &Refusal) -> Cause
    ensures value { IsOpeningRefusal refusal.now → cause_refusal result ≡ refusal.now }
    ensures other { BlamesFile result → refusal.now ≡ refusals.WrongFile }
{
    match refusal {
        Refusal::WantOfMemory => Cause::NoMemory,
        Refusal::WrongFile => Cause::OtherEpoch,
        _ => Cause::NoTable,
    }
}

/// The cause where the table `member` of a first file is refused so.
pub(crate) fn member_cause(refusal: &Refusal) -> Cause
    ensures value { IsOpeningRefusal refusal.now → cause_refusal result ≡ refusal.now }
    ensures other { BlamesMember result → refusal.now ≡ refusals.WrongFile }
{
    match refusal {
        Refusal::WantOfMemory => Cause::NoMemory,
        Refusal::WrongFile => Cause::OtherMember,
        _ => Cause::NoMemberTable,
    }
}
