//! What is printed to standard error about faults and refusals, and the exit statuses.

ghost use Rattle.std.specs.Prelude.{◌≡◌, ◌≤◌, ◌++◌, OnOk, OnErr, IfErr, IsOk, IsErr};
ghost use Rattle.std.specs.Io.KnownBytes.{Appends, Keeps};
ghost use Rattle.desk_output.specs.Prefixes.{AppendsPrefix};
ghost use Rattle.desk_output.specs.Printing.{printed_line, part_text, parts_text, PrintsLine};

use crate::output::write_text;
use desk_types::Refusal;
use itoa::Buffer;
use std::io::Write;

/// The exit status after all went well.
pub const DONE: u8 = 0;
/// The exit status after want of memory, or a fault of reading or writing.
pub const FAILED: u8 = 1;
/// The exit status after a command line that is refused, and after a line that is no event.
pub const REFUSED: u8 = 2;

/// A part of a line that is printed.
#[derive(Clone, Copy)]
pub enum LinePart<'a> {
    Text(&'a str),
    /// A number in decimal.
    Number(u64),
}

/// Writes a part of a line. Where a write fails, or takes no byte, a prefix of it is written.
fn write_part<W: Write>(writer: &mut W, part: &LinePart<'_>) -> Result<(), Refusal>
    ensures ok { OnOk result (Appends (W.contents writer.old) (W.contents writer.new) (part_text part.now)) }
    ensures err { OnErr result
        (AppendsPrefix (W.contents writer.old) (W.contents writer.new) (part_text part.now)) }
{
    match part {
        LinePart::Text(text) => write_text(writer, text.as_bytes()),
        LinePart::Number(number) => {
            let mut digits = Buffer::new();
            write_text(writer, digits.format(*number).as_bytes())
        }
    }
}

/// Writes parts of lines, one after the other, as far as they can be written.
pub fn write_parts<W: Write>(writer: &mut W, parts: &[LinePart<'_>]) -> Result<(), Refusal>
    ensures ok { OnOk result (Appends (W.contents writer.old) (W.contents writer.new) (parts_text parts.now)) }
    ensures printed { AppendsPrefix (W.contents writer.old) (W.contents writer.new) (parts_text parts.now) }
{
    for part in parts {
        match write_part(writer, part) {
            Ok(()) => {}
            Err(fault) => return Err(fault),
        }
    }
    Ok(())
}

/// Writes the line that tells a fault, with its number and its name.
fn write_fault<E: Write>(errors: &mut E, refusal: &Refusal) -> Result<(), Refusal>
    ensures ok { OnOk result (Appends (E.contents errors.old) (E.contents errors.new) (printed_line refusal.now)) }
    ensures printed { AppendsPrefix (E.contents errors.old) (E.contents errors.new) (printed_line refusal.now) }
{
    write_parts(
        errors,
        &[
            LinePart::Text("desk: "),
            LinePart::Number(refusal.number() as u64),
            LinePart::Text(" "),
            LinePart::Text(refusal.name()),
            LinePart::Text("\n"),
        ],
    )
}

/// Tells the standard error of a fault, in a line with its number and its name, as far as that can be written, and
/// answers the exit status. It takes no memory.
pub fn refusal_status<E: Write>(errors: &mut E, refusal: &Refusal) -> u8
    ensures status { result ≡ FAILED }
    ensures printed { AppendsPrefix (E.contents errors.old) (E.contents errors.new) (printed_line refusal.now) }
{
    let _ = write_fault(errors, refusal);
    FAILED
}

/// As `refusal_status`, with more after that line. Where a write fails, what follows is left out, and the status is the
/// same.
pub fn refusal_status_with<E: Write>(errors: &mut E, refusal: &Refusal, more: &[LinePart<'_>]) -> u8
    ensures status { result ≡ FAILED }
    ensures printed { AppendsPrefix (E.contents errors.old) (E.contents errors.new)
        (printed_line refusal.now ++ parts_text more.now) }
{
    match write_fault(errors, refusal) {
        Ok(()) => {}
        Err(_) => return FAILED,
    }
    let _ = write_parts(errors, more);
    FAILED
}

/// Tells the standard error of the fault that ended a run, where one did, and answers the exit status.
pub fn outcome_status<E: Write>(errors: &mut E, outcome: &Result<(), Refusal>) -> u8
    ensures status { result ≤ FAILED }
    ensures done { result ≡ DONE → IsOk outcome.now }
    ensures failed { result ≡ FAILED → IsErr outcome.now }
    ensures printed { IfErr outcome.now (PrintsLine (E.contents errors.old) (E.contents errors.new)) }
    ensures unprinted { OnOk outcome.now (Keeps (E.contents errors.old) (E.contents errors.new)) }
{
    match outcome {
        Ok(()) => DONE,
        Err(refusal) => refusal_status(errors, refusal),
    }
}
