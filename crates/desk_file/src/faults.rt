//! What is printed to standard error of nodes and of their files, and the exit status.

ghost use Rattle.std.specs.Prelude.{◌≡◌, ◌≤◌, IsTrue, IsFalse, IsOk, Err, IfErr, IfSome, IsNone, IsSome, OnOk};
ghost use Rattle.std.specs.Prelude.{string_bytes};
ghost use Rattle.std.specs.Io.KnownBytes.{Keeps};
ghost use Rattle.sqlite.specs.State.{HasCleanDisk};
ghost use Rattle.sqlite.specs.Held.{state};
ghost use Rattle.desk_types.specs.declared.refusal.Refusal.TheVariants as refusals;
ghost use Rattle.desk_output.specs.Printing.{PrintsFirst};
ghost use Rattle.desk_naming.specs.Named.{NamesOwner, NamesNobody};
ghost use Rattle.desk_file.specs.Faults.{IsReferring, NamesReferring, TellsReferring};
ghost use Rattle.desk_file.specs.Faults.{unopened_fault};
ghost use Rattle.desk_file.specs.Reading.{IsLookedInto};
ghost use Rattle.desk_file.specs.declared.faults.Cause.TheVariants as causes;
ghost use Rattle.desk_naming.specs.declared.named.NamedOwner.{NamedOwner as Named};

use desk_output::LinePart::{Number, Text};
use desk_output::{DONE, FAILED, LinePart, refusal_status, refusal_status_with};
use desk_saved::{NamedOwner, named_owner, referring_table};
use desk_types::{Owner, Refusal};
use sqlite::{Alter, Connection, Error, ErrorCode};
use std::alloc::Global;
use std::io::Write;

/// A node's file, as what is printed of it names it. Its owner is moved into the node, and so is not at hand when that
/// has ended.
#[derive(Clone, Copy)]
pub struct NodeFile<'a> {
    name: &'a str,
    /// The owner's number.
    id: u8,
    /// How many nodes its group has.
    n: u8,
}

impl<'a> NodeFile<'a> {
    /// The file of this name and owner.
    pub fn new(name: &'a str, owner: &Owner) -> NodeFile<'a>
        ensures id { result.id ≡ owner.now.id }
        ensures n { result.n ≡ owner.now.n }
    {
        NodeFile {
            name,
            id: owner.id,
            n: owner.n,
        }
    }
}

/// What in its file a node's refusal is due to.
#[derive(Drop)]
enum Cause {
    /// It is not known.
    Unknown,
    /// The table of this name has a foreign key that names one of the node's tables.
    Referring(String),
    /// The file is of this node.
    OfNode(NamedOwner),
    /// The file names no node.
    OfNobody,
}

/// The name of a table in the database with a foreign key that names one of the node's tables.
fn referring_name<S: Alter>(alloc: Global, connection: &Connection<S>) -> Option<String>
    ensures { IfSome result (λ name. IsReferring (state S.Store connection.now).now (string_bytes name)) }
{
    let name = str::from_utf8(referring_table(connection)?).ok()?;
    String::from_str(alloc, name).ok()
}

/// What in the database of a node's file the end of its answers is due to. The rows are read after `WrongFile` alone.
fn cause_of<S: Alter>(
    alloc: Global,
    connection: &mut Connection<S>,
    answered: &Result<(), Refusal>,
) -> Cause
    ensures node { (o : Named) → result ≡ causes.OfNode o → HasCleanDisk (state S.Store connection.new)
        → NamesOwner (state S.Store connection.old).now o }
    ensures nobody { result ≡ causes.OfNobody → HasCleanDisk (state S.Store connection.new)
        → NamesNobody (state S.Store connection.old).now }
    ensures referring { NamesReferring (state S.Store connection.old).now result }
    ensures same { ¬ (answered.now ≡ Err refusals.WrongFile) → connection.new ≡ connection.old }
    ensures read { IsLookedInto (state S.Store connection.old) (state S.Store connection.new) }
{
    match answered {
        Err(Refusal::WrongFile) => match named_owner(alloc, connection) {
            Ok(Some(owner)) => Cause::OfNode(owner),
            Ok(None) => Cause::OfNobody,
            Err(_) => Cause::Unknown,
        },
        Err(Refusal::StoreFault) => match referring_name(alloc, connection) {
            Some(table) => Cause::Referring(table),
            None => Cause::Unknown,
        },
        _ => Cause::Unknown,
    }
}

/// How the work of a node over its file ended, and what in the file that is due to.
#[derive(Drop)]
pub struct FileEnd {
    /// The refusal that ended it, or Ok where all was done.
    pub outcome: Result<(), Refusal>,
    cause: Cause,
}

impl FileEnd {
    /// The end of a node over the database of its file.
    pub(crate) fn over<S: Alter>(
        alloc: Global,
        connection: &mut Connection<S>,
        outcome: Result<(), Refusal>,
    ) -> FileEnd
        ensures outcome { result.outcome ≡ outcome }
        ensures node { (o : Named) → result.cause ≡ causes.OfNode o → HasCleanDisk (state S.Store connection.new)
            → NamesOwner (state S.Store connection.old).now o }
        ensures nobody { result.cause ≡ causes.OfNobody → HasCleanDisk (state S.Store connection.new)
            → NamesNobody (state S.Store connection.old).now }
        ensures referring { NamesReferring (state S.Store connection.old).now result.cause }
        ensures same { ¬ (outcome ≡ Err refusals.WrongFile) → connection.new ≡ connection.old }
        ensures read { IsLookedInto (state S.Store connection.old) (state S.Store connection.new) }
    {
        let cause = cause_of(alloc, connection, &outcome);
        FileEnd { outcome, cause }
    }

    /// The end of a node whose file is not at hand any more.
    pub(crate) fn without_file(outcome: Result<(), Refusal>) -> FileEnd
        ensures outcome { result.outcome ≡ outcome }
    {
        FileEnd {
            outcome,
            cause: Cause::Unknown,
        }
    }
}

/// Why a database was not opened, in words that follow the name of its file; nothing where memory was refused.
fn why_unopened(error: &Error) -> Option<&'static str>
    ensures none { IsNone result → unopened_fault error.now ≡ refusals.WantOfMemory }
    ensures some { IsSome result → unopened_fault error.now ≡ refusals.StoreFault }
{
    match error {
        Error::SqliteFailure(ErrorCode::OutOfMemory) => None,
        Error::SqliteFailure(ErrorCode::DatabaseBusy) => Some("is in use by another program"),
        Error::SqliteFailure(
            ErrorCode::NotADatabase | ErrorCode::DatabaseCorrupt | ErrorCode::TooBig,
        ) => Some("is no database, or is damaged"),
        _ => Some("can not be opened or made"),
    }
}

/// A file's name, as printed lines name it.
pub(crate) fn shown(name: &str) -> &str {
    if name.is_empty() {
        return "a file without a name";
    }
    name
}

/// Tells the standard error why the database in a file was not opened, and answers the exit status.
pub fn unopened_status<'a, E: Write>(errors: &mut E, file: &'a str, error: &Error) -> u8
    ensures status { result ≡ FAILED }
    ensures printed { PrintsFirst (E.contents errors.old) (E.contents errors.new) (unopened_fault error.now) }
{
    match why_unopened(error) {
        None => refusal_status(errors, &Refusal::WantOfMemory),
        Some(why) => {
            let more = [
                Text("desk: "),
                Text(shown(file)),
                Text(" "),
                Text(why),
                Text("\n"),
            ];
            refusal_status_with(errors, &Refusal::StoreFault, &more)
        }
    }
}

/// Tells the standard error that a file is that of another epoch, in words that follow its name, and answers the exit
/// status.
pub(crate) fn other_epoch_status<E: Write>(errors: &mut E, file: &str, why: &'static str) -> u8
    ensures status { result ≡ FAILED }
    ensures printed { PrintsFirst (E.contents errors.old) (E.contents errors.new) refusals.WrongFile }
{
    let words = [Text("desk: "), Text(shown(file)), Text(why)];
    refusal_status_with(errors, &Refusal::WrongFile, &words)
}

/// What is printed after the node that a file names, where that is the one that was asked for. The domain that was
/// asked for is not at hand here.
fn what_differs(owner: &NamedOwner, file: NodeFile<'_>) -> &'static str {
    if owner.id == file.id as u64 && owner.n == file.n as u64 {
        return ", so the domain is another, or the rows are no saved state";
    }
    ""
}

/// The line that tells that a file holds no saved state of the node that was asked for, with what it ends in.
fn none_held<'a>(file: NodeFile<'a>, end: &'a str) -> [LinePart<'a>; 8] {
    [
        Text("desk: "),
        Text(shown(file.name)),
        Text(" holds no saved state of node "),
        Number(file.id as u64),
        Text(" of "),
        Number(file.n as u64),
        Text(" with this domain"),
        Text(end),
    ]
}

/// Tells the standard error that a file is another node's, and whose it is, and answers the exit status.
fn other_node_status<'a, E: Write>(errors: &mut E, file: NodeFile<'a>, owner: &'a NamedOwner) -> u8
    ensures status { result ≡ FAILED }
    ensures printed { PrintsFirst (E.contents errors.old) (E.contents errors.new) refusals.WrongFile }
{
    let [desk, name, holds_none, id, of, n, domain, version] = none_held(
        file,
        ": it is of version ",
    );
    let more = [
        desk,
        name,
        holds_none,
        id,
        of,
        n,
        domain,
        version,
        Number(owner.version),
        Text(", node "),
        Number(owner.id),
        of,
        Number(owner.n),
        Text(", domain "),
        Text(owner.domain.as_text()),
        Text(what_differs(owner, file)),
        Text("\n"),
    ];
    refusal_status_with(errors, &Refusal::WrongFile, &more)
}

/// Tells the standard error that a file is none of the node's, and whose it is, and answers the exit status.
fn wrong_file_status<E: Write>(errors: &mut E, file: NodeFile<'_>, cause: &Cause) -> u8
    ensures status { result ≡ FAILED }
    ensures printed { PrintsFirst (E.contents errors.old) (E.contents errors.new) refusals.WrongFile }
{
    let end = match cause {
        Cause::OfNode(owner) => return other_node_status(errors, file, owner),
        Cause::OfNobody => ": it names no node\n",
        _ => "\n",
    };
    refusal_status_with(errors, &Refusal::WrongFile, &none_held(file, end))
}

/// Tells the standard error what a fault of the store is: the table whose foreign key names one of the node's, where
/// there is one; and answers the exit status.
fn store_fault_status<'a, E: Write>(errors: &mut E, name: &'a str, cause: &'a Cause) -> u8
    ensures status { result ≡ FAILED }
    ensures printed { PrintsFirst (E.contents errors.old) (E.contents errors.new) refusals.StoreFault }
    ensures referring { TellsReferring (E.contents errors.old) (E.contents errors.new) cause.now }
{
    let (desk, name) = (Text("desk: "), Text(shown(name)));
    match cause {
        Cause::Referring(table) => {
            let more = [
                desk,
                name,
                Text(" has a foreign key of the table "),
                Text(table.as_str()),
                Text(" that names node, entry or client\n"),
            ];
            refusal_status_with(errors, &Refusal::StoreFault, &more)
        }
        _ => {
            let more = [
                desk,
                name,
                Text(
                    " can not be read or written, or a view, an index or a foreign key in it names ",
                ),
                Text("node, entry or client\n"),
            ];
            refusal_status_with(errors, &Refusal::StoreFault, &more)
        }
    }
}

/// Tells the standard error what ended a node's answers early, and answers the exit status.
fn answer_fault_status<E: Write>(
    errors: &mut E,
    file: NodeFile<'_>,
    refusal: &Refusal,
    cause: &Cause,
) -> u8
    ensures status { result ≡ FAILED }
    ensures printed { PrintsFirst (E.contents errors.old) (E.contents errors.new) refusal.now }
{
    match refusal {
        Refusal::WrongFile => wrong_file_status(errors, file, cause),
        Refusal::StoreFault => store_fault_status(errors, file.name, cause),
        _ => refusal_status(errors, refusal),
    }
}

/// Tells the standard error how the work of a node over its file ended, where that was not well, and answers the exit
/// status. `closed` is whether the file was closed after it, with all that was saved.
pub fn closed_status<E: Write>(
    errors: &mut E,
    file: NodeFile<'_>,
    end: &FileEnd,
    closed: bool,
) -> u8
    ensures status { result ≤ FAILED }
    ensures done { result ≡ DONE → IsTrue closed × IsOk end.now.outcome }
    ensures failed { IfErr end.now.outcome (λ _. result ≡ FAILED) }
    // What is printed first is the line of what ended it, or of `StoreFault` where the file was not closed.
    ensures printed { IfErr end.now.outcome (PrintsFirst (E.contents errors.old) (E.contents errors.new)) }
    ensures unclosed { OnOk end.now.outcome (IsFalse closed →
        PrintsFirst (E.contents errors.old) (E.contents errors.new) refusals.StoreFault) }
    ensures unprinted { result ≡ DONE → Keeps (E.contents errors.old) (E.contents errors.new) }
{
    match &end.outcome {
        Err(refusal) => answer_fault_status(errors, file, refusal, &end.cause),
        Ok(()) if closed => DONE,
        Ok(()) => answer_fault_status(errors, file, &Refusal::StoreFault, &Cause::Unknown),
    }
}
