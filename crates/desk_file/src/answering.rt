//! The answers of one node, whose state a file keeps.

ghost use Rattle.std.specs.Prelude.{◌≡◌, ◌≤◌, ◌<◌, IfErr, IsOk, OnOk};
ghost use Rattle.std.specs.Io.KnownBytes.{IsAtEnd};
ghost use Rattle.desk_types.specs.Group.{IsGroup};
ghost use Rattle.desk_output.specs.Printing.{PrintsFirst};
ghost use Rattle.desk_output.specs.declared.printing.TheConstants.{DONE, FAILED};
ghost use Rattle.desk_file.specs.Closing.{EndsAnswers};
ghost use Rattle.desk_file.specs.Faults.{unopened_fault};

use crate::ended::{EndedFile, close_file};
use crate::epoch_end::has_ended;
use crate::epoch_table::is_of_epoch;
use crate::faults::{NodeFile, closed_status, other_epoch_status, unopened_status};
use crate::names::name_in_epoch;
use desk_answer::{Answered, answer_database};
use desk_database::open_database;
use desk_options::AnswerOptions;
use desk_output::{CountedInput, print_cut, print_no_packet};
use desk_types::{Owner, Refusal};
use sqlite::{Alter, Connection, Error, File, FileStore};
use std::alloc::Global;
use std::fs;
use std::io::{Read, Write};

/// Answers packets as the node whose state the database of a file keeps.
fn answer_opened<S: Alter, R: Read, W: Write>(
    alloc: Global,
    owner: Owner,
    connection: Connection<S>,
    input: &mut CountedInput<R>,
    output: &mut W,
) -> EndedFile<S>
    requires group { IsGroup owner.n }
    requires id { owner.id < owner.n }
    ensures end { OnOk result.end.outcome (IsAtEnd (R.remaining input.new.input)) }
    // No row of the file is touched beside the answers.
    ensures answers { EndsAnswers S.Store owner connection (R.remaining input.old.input) (R.remaining input.new.input)
        (W.contents output.old) (W.contents output.new) result.end.outcome result.connection }
{
    let Answered { connection, result } = answer_database(alloc, input, output, connection, owner);
    EndedFile::over(alloc, connection, result)
}

/// Answers packets as the node whose state a file keeps, which was to be opened, tells the standard error what ended
/// that, where it was a fault, and gives the exit status.
// The only function here over the files of the host: each proof of such a one goes over all parts of their store.
fn opened_status<R: Read, W: Write, E: Write>(
    alloc: Global,
    name: &str,
    owner: Owner,
    opened: Result<Connection<FileStore<File>>, Error>,
    input: &mut CountedInput<R>,
    output: &mut W,
    errors: &mut E,
) -> u8
    requires group { IsGroup owner.n }
    requires id { owner.id < owner.n }
    ensures status { result ≤ FAILED }
    // It ends with 0 only where the file was opened, and the input was read to its end.
    ensures done { result ≡ DONE → IsOk opened }
    ensures end { result ≡ DONE → IsAtEnd (R.remaining input.new.input) }
    ensures printed { IfErr opened
        (λ error. PrintsFirst (E.contents errors.old) (E.contents errors.new) (unopened_fault error)) }
{
    let connection = match opened {
        Ok(connection) => connection,
        Err(error) => return unopened_status(errors, name, &error),
    };
    let file = NodeFile::new(name, &owner);
    let EndedFile { connection, end } = answer_opened(alloc, owner, connection, input, output);
    let status = closed_status(errors, file, &end, close_file(connection).is_whole);
    match &end.outcome {
        Err(Refusal::FrameFault) => print_no_packet(errors, input),
        Err(Refusal::ReadFault) => print_cut(errors, input),
        _ => {}
    }
    status
}

/// Whether a file of the second epoch lies beside a first file.
fn has_second_file(host: &HostRuntime, file: &str) -> bool {
    match name_in_epoch(host.alloc(), file, 1) {
        Ok(name) => matches!(fs::exists(host, name.as_str()), Ok(true)),
        Err(_) => false,
    }
}

/// Why a file is none in which a node acts that knows the first epoch alone, in words that follow its name: it is
/// marked as that of a later epoch, or the first one is over and a second file lies beside it. A first file without one
/// is that of a desk of one epoch, which acts in it on a full log, too. A fault is left to who opens the state in it.
fn why_of_other_epoch<S: Alter>(
    opened: &mut Result<Connection<S>, Error>,
    has_second: bool,
) -> Option<&'static str> {
    let Ok(connection) = opened else {
        return None;
    };
    if matches!(is_of_epoch(connection, 0), Ok(false)) {
        return Some(" is the file of a later epoch\n");
    }
    if has_second && matches!(has_ended(connection), Ok(true)) {
        return Some(" is the file of an epoch that is over\n");
    }
    None
}

/// Answers packets between the standard streams as a node whose state an SQLite file keeps, tells the standard error
/// what ended that, where it was a fault, and gives the exit status. A file that is marked as that of a later epoch is
/// refused by `WrongFile`, and so is a first one whose epoch is over, where the second file lies beside it.
pub fn answer_file(rt: &HostRuntime, options: AnswerOptions) -> u8
    requires group { IsGroup options.owner.n }
    requires id { options.owner.id < options.owner.n }
    ensures status { result ≤ FAILED }
{
    let AnswerOptions { owner, file } = options;
    let mut opened = open_database(rt, file.as_str());
    let has_second = has_second_file(rt, file.as_str());
    if let Some(why) = why_of_other_epoch(&mut opened, has_second) {
        let _ = close_file(opened.ok());
        return other_epoch_status(&mut rt.stderr(), file.as_str(), why);
    }
    let mut input = CountedInput::new(rt.stdin());
    opened_status(
        rt.alloc(),
        file.as_str(),
        owner,
        opened,
        &mut input,
        &mut rt.stdout(),
        &mut rt.stderr(),
    )
}
