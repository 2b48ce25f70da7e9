//! What is printed to standard error where words are refused, and where a program does not run what they ask for.

ghost use Rattle.std.specs.Prelude.{◌≡◌};
ghost use Rattle.desk_output.specs.Prefixes.{AppendsPrefix};
ghost use Rattle.desk_output.specs.declared.printing.TheConstants.{REFUSED};
ghost use Rattle.desk_options.specs.Faults.{printed_text, options_status, unserved_line};

use crate::command_line::OptionsFault;
use desk_output::LinePart::Text;
use desk_output::{REFUSED, refusal_status, write_parts, write_text};
use desk_types::Refusal;
use std::io::Write;

/// Tells the standard error why there are no options, and answers the exit status.
pub fn fault_status<E: Write>(errors: &mut E, fault: OptionsFault) -> u8
    ensures status { result ≡ options_status fault }
    ensures printed { AppendsPrefix (E.contents errors.old) (E.contents errors.new) (printed_text fault) }
{
    match fault {
        OptionsFault::WantOfMemory => refusal_status(errors, &Refusal::WantOfMemory),
        OptionsFault::Refused { text } => {
            let _ = write_text(errors, text.as_bytes());
            REFUSED
        }
    }
}

/// Tells the standard error that a program runs these commands alone, and answers the exit status.
pub fn unserved_status<E: Write>(errors: &mut E, commands: &str) -> u8
    ensures status { result ≡ REFUSED }
    ensures printed { AppendsPrefix (E.contents errors.old) (E.contents errors.new) (unserved_line commands.now) }
{
    let line = [
        Text("desk: this program runs "),
        Text(commands),
        Text(" alone\n"),
    ];
    let _ = write_parts(errors, &line);
    REFUSED
}
