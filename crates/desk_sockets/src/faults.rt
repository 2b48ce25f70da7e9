//! What is printed to standard error of ports, of nodes at them and of groups, and the exit status.

ghost use Rattle.std.specs.Prelude.{◌≡◌, ◌≤◌, IsOk, IfErr, OnOk};
ghost use Rattle.std.specs.Io.KnownBytes.{Keeps};
ghost use Rattle.desk_types.specs.declared.refusal.Refusal.TheVariants as refusals;
ghost use Rattle.desk_output.specs.Printing.{PrintsFirst, PrintsLine};
ghost use Rattle.desk_sockets.specs.Faults.{refused_fault};

use desk_connections::PortRefused;
use desk_output::LinePart::{Number, Text};
use desk_output::{DONE, FAILED, outcome_status, refusal_status, refusal_status_with};
use desk_types::{Refusal, session_port};
use std::io::Write;

/// Tells the standard error which port was refused, and answers the exit status.
pub(crate) fn no_ports_status<E: Write>(errors: &mut E, refused: &PortRefused) -> u8
    ensures status { result ≡ FAILED }
    ensures printed { PrintsFirst (E.contents errors.old) (E.contents errors.new) (refused_fault refused.now) }
{
    let (port, why) = match refused {
        PortRefused::WantOfMemory => return refusal_status(errors, &Refusal::WantOfMemory),
        PortRefused::InUse(port) => (*port, " is in use\n"),
        PortRefused::NotBound(port) => (*port, " can not be bound\n"),
    };
    let more = [Text("desk: port "), Number(port as u64), Text(why)];
    refusal_status_with(errors, &Refusal::ReadFault, &more)
}

/// Tells the standard error what ended a group of nodes, where that was a fault, and answers the exit status.
pub fn served_status<E: Write>(errors: &mut E, outcome: &Result<(), Refusal>) -> u8
    ensures status { result ≤ FAILED }
    ensures done { result ≡ DONE → IsOk outcome.now }
    ensures printed { IfErr outcome.now (PrintsLine (E.contents errors.old) (E.contents errors.new)) }
    ensures unprinted { OnOk outcome.now (Keeps (E.contents errors.old) (E.contents errors.new)) }
{
    outcome_status(errors, outcome)
}

/// Tells the standard error that nobody listens at a port, and answers the exit status.
pub(crate) fn no_node_status<E: Write>(errors: &mut E, port: u16) -> u8
    ensures status { result ≡ FAILED }
    ensures printed { PrintsFirst (E.contents errors.old) (E.contents errors.new) refusals.ReadFault }
{
    let more = [
        Text("desk: no node listens at port "),
        Number(port as u64),
        Text("\n"),
    ];
    refusal_status_with(errors, &Refusal::ReadFault, &more)
}

/// Tells the standard error that the node at a port does not show that it holds the key, and answers the exit status.
pub(crate) fn no_proof_status<E: Write>(errors: &mut E, host: &str, port: u16) -> u8
    ensures status { result ≡ FAILED }
    ensures printed { PrintsFirst (E.contents errors.old) (E.contents errors.new) refusals.ReadFault }
{
    let more = [
        Text("desk: the node at "),
        Text(host),
        Text(" port "),
        Number(port as u64),
        Text(" does not prove that it holds the key\n"),
    ];
    refusal_status_with(errors, &Refusal::ReadFault, &more)
}

/// Tells the standard error what ended the lines that were sent to a node early, where that was a fault, and answers
/// the exit status. `is_broken` is whether the node failed.
pub(crate) fn sent_status<E: Write>(
    errors: &mut E,
    port: u16,
    is_broken: bool,
    outcome: &Result<(), Refusal>,
) -> u8
    ensures status { result ≤ FAILED }
    ensures done { result ≡ DONE → IsOk outcome.now }
    // What is printed first is the line of what ended them.
    ensures printed { IfErr outcome.now (PrintsFirst (E.contents errors.old) (E.contents errors.new)) }
    ensures unprinted { OnOk outcome.now (Keeps (E.contents errors.old) (E.contents errors.new)) }
{
    match outcome {
        Err(refusal) if is_broken => {
            let port = Number(port as u64);
            let more = [
                Text("desk: the node at port "),
                port,
                Text(" ended before its reply\n"),
            ];
            refusal_status_with(errors, refusal, &more)
        }
        _ => outcome_status(errors, outcome),
    }
}

/// Tells the standard error what ended the lines that were sent to a group early, where that was a fault, and answers
/// the exit status. `is_late` is whether no node answered a line in time.
pub(crate) fn followed_status<E: Write>(
    errors: &mut E,
    first: u16,
    nodes: u8,
    is_late: bool,
    outcome: &Result<(), Refusal>,
) -> u8
    ensures status { result ≤ FAILED }
    ensures done { result ≡ DONE → IsOk outcome.now }
    // What is printed first is the line of what ended them.
    ensures printed { IfErr outcome.now (PrintsFirst (E.contents errors.old) (E.contents errors.new)) }
    ensures unprinted { OnOk outcome.now (Keeps (E.contents errors.old) (E.contents errors.new)) }
{
    match outcome {
        Err(refusal) if is_late => {
            let more = [
                Text("desk: no node answers at ports "),
                Number(session_port(first, 0) as u64),
                Text(" to "),
                Number(session_port(first, nodes.saturating_sub(1)) as u64),
                Text("\n"),
            ];
            refusal_status_with(errors, refusal, &more)
        }
        _ => outcome_status(errors, outcome),
    }
}
