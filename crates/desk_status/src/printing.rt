//! What is printed of the nodes of a group.

ghost use Rattle.std.specs.Prelude.{◌≡◌, ◌≤◌, true, OnOk};
ghost use Rattle.std.specs.Io.KnownBytes.{Appends};
ghost use Rattle.desk_output.specs.Prefixes.{AppendsPrefix};
ghost use Rattle.desk_output.specs.declared.printing.TheConstants.{DONE, FAILED};
ghost use Rattle.desk_status.specs.Levels.{is_majority_level};
ghost use Rattle.desk_status.specs.Lines.{status_line, status_lines};

use crate::answers::{NodeAnswer, greatest_place, is_majority_level};
use desk_output::LinePart::{Number, Text};
use desk_output::{DONE, FAILED, refusal_status, write_parts};
use desk_types::Refusal;
use std::io::Write;

/// Writes the line of a node. Where a write fails, or takes no byte, a prefix of it is written.
fn write_node<W: Write>(
    writer: &mut W,
    greatest: u64,
    node: u64,
    answer: &NodeAnswer,
) -> Result<(), Refusal>
    ensures ok { OnOk result
        (Appends (W.contents writer.old) (W.contents writer.new) (status_line greatest node answer.now)) }
    ensures printed { AppendsPrefix (W.contents writer.old) (W.contents writer.new)
        (status_line greatest node answer.now) }
{
    match answer {
        NodeAnswer::Down => {
            write_parts(writer, &[Text("node "), Number(node), Text(": down\n")])
        }
        NodeAnswer::Up {
            place,
            milliseconds,
        } => write_parts(
            writer,
            &[
                Text("node "),
                Number(node),
                Text(": up, place "),
                Number(*place),
                Text(", "),
                Number(greatest.saturating_sub(*place)),
                Text(" behind, "),
                Number(*milliseconds),
                Text(" ms\n"),
            ],
        ),
    }
}

/// Writes a line for each node of a group, in the order of their numbers: `node 0: up, place 57, 0 behind, 1 ms`, or
/// `node 2: down`. A node that reported a lower place than another is behind.
///
/// Where a write fails, or takes no byte, that is `WriteFault`, and a prefix of the lines is written.
pub fn write_status<W: Write>(writer: &mut W, answers: &[NodeAnswer]) -> Result<(), Refusal>
    ensures ok { OnOk result
        (Appends (W.contents writer.old) (W.contents writer.new) (status_lines answers.now)) }
    ensures printed { AppendsPrefix (W.contents writer.old) (W.contents writer.new) (status_lines answers.now) }
{
    let greatest = greatest_place(answers);
    for node in 0..answers.len() {
        match write_node(writer, greatest, node as u64, &answers[node]) {
            Ok(()) => {}
            Err(fault) => return Err(fault),
        }
    }
    Ok(())
}

/// Writes the lines of the nodes of a group to the output, and answers the exit status: 0 where more than half of them
/// are level, as `is_majority_level` says, and else 1. Where the output can not be written, that is printed to standard
/// error (`WriteFault`), and it is 1 too.
pub fn status_of<O: Write, E: Write>(answers: &[NodeAnswer], output: &mut O, errors: &mut E) -> u8
    ensures status { result ≤ FAILED }
    ensures done { result ≡ DONE → is_majority_level answers.now ≡ true }
    ensures whole { result ≡ DONE →
        Appends (O.contents output.old) (O.contents output.new) (status_lines answers.now) }
    ensures printed { AppendsPrefix (O.contents output.old) (O.contents output.new) (status_lines answers.now) }
{
    match write_status(output, answers) {
        Ok(()) => if is_majority_level(answers) {
            DONE
        } else {
            FAILED
        },
        Err(fault) => refusal_status(errors, &fault),
    }
}
