//! What is printed to standard error where a run ended early.

ghost use Rattle.std.specs.Prelude.{◌≡◌};
ghost use Rattle.desk_options.specs.Faults.{printed_text};
ghost use Rattle.desk_output.specs.Prefixes.{AppendsPrefix};
ghost use Rattle.desk_program.specs.Ending.{options_end, world_end};
ghost use Rattle.desk_program.specs.Faults.{printed_world_line};
ghost use Rattle.desk_program.specs.declared.ending.RunEnd.TheVariants as ends;
ghost use Rattle.desk_output.specs.Printing.{printed_line};

use crate::ending::RunEnd;
use desk_options::{OptionsFault, fault_status};
use desk_output::{LinePart, refusal_status, write_parts};
use desk_script::WorldFault;
use desk_types::Refusal;
use std::io::Write;

/// The line that tells what a line of a script can be.
const EVENTS: &str =
    "desk: an event is request NODE DOCUMENT, deliver K, suspect NODE, resend NODE or restart NODE\n";

/// Tells the standard error of the fault that ended a run, as far as that can be written, and gives that end.
pub(crate) fn fault_end<E: Write>(errors: &mut E, fault: Refusal) -> RunEnd
    ensures end { result ≡ ends.Failed fault }
    ensures printed { AppendsPrefix (E.contents errors.old) (E.contents errors.new) (printed_line fault) }
{
    let _ = refusal_status(errors, &fault);
    RunEnd::Failed { fault }
}

/// Tells the standard error why there are no options, as far as that can be written, and gives that end.
pub(crate) fn options_end<E: Write>(errors: &mut E, fault: OptionsFault) -> RunEnd
    ensures end { result ≡ options_end fault }
    ensures printed { AppendsPrefix (E.contents errors.old) (E.contents errors.new) (printed_text fault) }
{
    match fault {
        OptionsFault::WantOfMemory => fault_end(errors, Refusal::WantOfMemory),
        OptionsFault::Refused { text } => {
            let _ = fault_status(errors, OptionsFault::Refused { text });
            RunEnd::Refused
        }
    }
}

/// Tells the standard error why a run of a group of nodes ended early, as far as that can be written, and gives that
/// end.
pub(crate) fn world_end<E: Write>(errors: &mut E, fault: WorldFault) -> RunEnd
    ensures end { result ≡ world_end fault }
    ensures printed { AppendsPrefix (E.contents errors.old) (E.contents errors.new) (printed_world_line fault) }
{
    match fault {
        WorldFault::NoEvent { line } => {
            let _ = write_parts(
                errors,
                &[
                    LinePart::Text("desk: line "),
                    LinePart::Number(line),
                    LinePart::Text(" is no event\n"),
                    LinePart::Text(EVENTS),
                ],
            );
            RunEnd::Refused
        }
        WorldFault::Refused { refusal } => fault_end(errors, refusal),
    }
}
