//! A run of a group of nodes: event lines in, what each event gave out.

ghost use Rattle.std.specs.Prelude.{◌≡◌, ◌≢◌, IfSome, IfErr, OnOk, MatchResult};
ghost use Rattle.std.specs.Io.KnownBytes.{IsAtEnd, Keeps};
ghost use Rattle.desk_types.specs.Group.{IsGroup};
ghost use Rattle.desk_types.specs.declared.refusal.Refusal.TheVariants as refusals;
ghost use Rattle.desk_lines.specs.FailedCalls.{NoneFailed};
ghost use Rattle.desk_script.specs.WorldRun.{AppendsWorld, AppendsWorldPrefix, IsNoEventOf, OnNoEvent, IsWorldFault};
ghost use Rattle.desk_script.specs.WorldRun.{IsWorldStreamsFault};
ghost use Rattle.desk_script.specs.declared.world.WorldFault.TheVariants as faults;

mod report_text;
mod script;

use crate::input::read_input;
use desk_lines::{ReadPieces, WriteTexts};
use desk_types::{Domain, Refusal, WantOfMemory};
use desk_world::run;
use report_text::report_text;
use script::events_in;
use std::alloc::Global;
use std::fmt;
use thiserror::Error;

/// Why a run of a group of nodes ended early.
#[derive(Drop, Error)]
pub enum WorldFault {
    /// A line is no event. Lines are counted from 1.
    #[error("line {line} is no event")]
    NoEvent { line: u64 },
    /// Memory was refused, or reading or writing failed.
    #[error("{} {}", .refusal.number(), .refusal.name())]
    Refused { refusal: Refusal },
}

impl fmt::Debug for WorldFault {
    fn fmt<W: fmt::Write>(&self, f: &mut fmt::Formatter<W>) -> fmt::Result {
        match self {
            WorldFault::NoEvent { .. } => f.write_str("NoEvent"),
            WorldFault::Refused { refusal } => f.write_str(refusal.name()),
        }
    }
}

impl From<Refusal> for WorldFault {
    ghost use Rattle.std.specs.Prelude.{◌≡◌};
    ghost use Rattle.desk_script.specs.declared.world.WorldFault.TheVariants as faults;

    ghost from_gives = { λ refusal fault. fault ≡ faults.Refused refusal };

    fn from(refusal: Refusal) -> WorldFault {
        WorldFault::Refused { refusal }
    }
}

impl From<WantOfMemory> for WorldFault {
    ghost use Rattle.std.specs.Prelude.{◌≡◌};
    ghost use Rattle.desk_types.specs.declared.refusal.Refusal.TheVariants as refusals;
    ghost use Rattle.desk_script.specs.declared.world.WorldFault.TheVariants as faults;

    ghost from_gives = { λ _ fault. fault ≡ faults.Refused refusals.WantOfMemory };

    fn from(_refused: WantOfMemory) -> WorldFault {
        WorldFault::Refused {
            refusal: Refusal::WantOfMemory,
        }
    }
}

/// Runs `n` new nodes of a desk through the events of a script, one a line, and writes what each event gave and, at the
/// end, what each node saves.
///
/// An event is `request NODE DOCUMENT`, whose document is a command, or `deliver K`, `resend NODE`, `suspect NODE` or
/// `restart NODE`. One space stands between the words, and a number has 1 to 18 decimal digits. Nodes are numbered from
/// 0, packets from 1 in the order of their sending; what names one that is not there does nothing. A line of spaces,
/// tabs and carriage returns alone is skipped, and a last line without a newline counts. All lines are read before
/// anything is written.
///
/// It ends where memory is first refused (`WantOfMemory`), at a read that fails and after 4,294,967,295 reads
/// (`ReadFault`), and at a write that fails or takes no byte (`WriteFault`).
pub fn world_lines<R: ReadPieces, W: WriteTexts>(
    alloc: Global,
    reader: &mut R,
    writer: &mut W,
    n: u8,
    domain: Domain,
) -> Result<(), WorldFault>
    requires group { IsGroup n }
    // It read to the end, and wrote exactly the text of the run.
    ensures end { OnOk result (IsAtEnd (R.remaining reader.new)) }
    ensures ok { OnOk result (IfSome (R.remaining reader.old)
        (λ input. AppendsWorld (W.contents writer.old) (W.contents writer.new) domain n input)) }
    // Where a line is no event, it read to the end, that line is the first such, and it wrote nothing.
    ensures no_event_end { IfErr result (λ fault. OnNoEvent fault (IsAtEnd (R.remaining reader.new))) }
    ensures no_event { IfErr result (λ fault. IfSome (R.remaining reader.old) (λ input. IsNoEventOf input fault)) }
    // Only a write that fails ends it after something was written, and this is a prefix of the text of the run. It read
    // to the end then.
    ensures unwritten { IfErr result (λ fault. fault ≢ faults.Refused refusals.WriteFault →
        Keeps (W.contents writer.old) (W.contents writer.new)) }
    ensures prefix_end { IfErr result (λ fault. fault ≡ faults.Refused refusals.WriteFault →
        IsAtEnd (R.remaining reader.new)) }
    ensures prefix { IfErr result (λ fault. fault ≡ faults.Refused refusals.WriteFault →
        IfSome (R.remaining reader.old)
        (λ input. AppendsWorldPrefix (W.contents writer.old) (W.contents writer.new) domain n input)) }
    ensures fault { IfErr result IsWorldFault }
    // The fault that is reported is that of the one call that failed, where one did.
    ensures calls { MatchResult result
        (λ _. NoneFailed (R.failed reader.old) (R.failed reader.new) (W.failed writer.old) (W.failed writer.new))
        (λ fault. IsWorldStreamsFault fault
        (R.failed reader.old) (R.failed reader.new) (W.failed writer.old) (W.failed writer.new)) }
{
    let input = read_input(alloc, reader)?;
    let events = events_in(alloc, input.as_slice())?;
    let report = run(alloc, n, domain, events.as_slice())?;
    let text = report_text(alloc, &report)?;
    writer.write_text(text.as_bytes())?;
    writer.flush()?;
    Ok(())
}
