//! The program over any standard input, output and error.

ghost use Rattle.std.specs.Prelude.{◌≡◌, ◌≢◌, ◌⊎◌, ℕ, List, Option, map, OnSome, IfSome, IfOk, IfErr, OnErr};
ghost use Rattle.std.specs.Io.KnownBytes.{Appends, Keeps, IsAtEnd};
ghost use Rattle.desk_types.specs.Group.{IsGroup};
ghost use Rattle.desk_options.specs.CommandLine.{AskForNothing};
ghost use Rattle.desk_options.specs.declared.command_line.choice.Options.TheVariants as asked;
ghost use Rattle.desk_options.specs.Version.{version_line};
ghost use Rattle.desk_output.specs.Prefixes.{AppendsPrefix};
ghost use Rattle.desk_replay.specs.Replay.{replay_text};
ghost use Rattle.desk_script.specs.WorldRun.{AppendsWorld, AppendsWorldPrefix};
ghost use Rattle.desk_options.specs.Host.{AsksHost, IsRunInRange};
ghost use Rattle.desk_program.specs.Run.{HasNoEvent, IsDone, IsCutShort, IsUnasked, IsNoScript};
ghost use Rattle.desk_program.specs.Run.{IsAskedFault, IsWordsFault};
ghost use Rattle.desk_lines.specs.FailedCalls.{NoneFailed};
ghost use Rattle.desk_program.specs.Ending.{fault_in, IsEndByCalls};
ghost use Rattle.desk_program.specs.Faults.{PrintsFault};
ghost use Rattle.desk_program.specs.declared.ending.RunEnd.TheVariants as ends;

use crate::ending::RunEnd;
use crate::faults::{fault_end, options_end, world_end};
use crate::version_line::write_version;
use desk_lines::{ReadPieces, WriteTexts};
use desk_options::{HostRun, Options, ReplayOptions, WorldOptions, options};
use desk_replay::replay_lines;
use desk_script::world_lines;
use desk_types::HashSeed;
use std::alloc::Global;
use std::io::Write;

/// Replays the documents of the reader, and gives how that ended.
fn replay<R: ReadPieces, W: WriteTexts, E: Write>(
    alloc: Global,
    options: ReplayOptions,
    reader: &mut R,
    writer: &mut W,
    errors: &mut E,
) -> RunEnd
    ensures asked { result ≢ ends.Refused }
    ensures end { result ≡ ends.Done → IsAtEnd (R.remaining reader.new) }
    ensures done { result ≡ ends.Done → IfSome (R.remaining reader.old)
        (λ input. Appends (W.contents writer.old) (W.contents writer.new) (replay_text options.domain input)) }
    ensures failed { OnSome (fault_in result) (IfSome (R.remaining reader.old)
        (λ input. AppendsPrefix (W.contents writer.old) (W.contents writer.new) (replay_text options.domain input))) }
    ensures printed { IfSome (fault_in result) (PrintsFault (IsAskedFault (asked.Replay options)
        (R.remaining reader.old) (R.remaining reader.new) (W.contents writer.old) (W.contents writer.new))
        (E.contents errors.old) (E.contents errors.new)) }
    ensures unprinted { result ≡ ends.Done → Keeps (E.contents errors.old) (E.contents errors.new) }
    ensures calls { IsEndByCalls (fault_in result)
        (R.failed reader.old) (R.failed reader.new) (W.failed writer.old) (W.failed writer.new) }
{
    match replay_lines(alloc, reader, writer, options.domain) {
        Ok(()) => RunEnd::Done,
        Err(fault) => fault_end(errors, fault),
    }
}

/// Runs a group of nodes through the events of the reader, and gives how that ended.
fn world<R: ReadPieces, W: WriteTexts, E: Write>(
    alloc: Global,
    options: WorldOptions,
    reader: &mut R,
    writer: &mut W,
    errors: &mut E,
) -> RunEnd
    requires group { IsGroup options.nodes }
    ensures end { result ≡ ends.Done → IsAtEnd (R.remaining reader.new) }
    ensures done { result ≡ ends.Done → IfSome (R.remaining reader.old) (λ input.
        AppendsWorld (W.contents writer.old) (W.contents writer.new) options.domain options.nodes input) }
    ensures failed { OnSome (fault_in result) (Keeps (W.contents writer.old) (W.contents writer.new)
        ⊎ IfSome (R.remaining reader.old) (λ input.
        AppendsWorldPrefix (W.contents writer.old) (W.contents writer.new) options.domain options.nodes input)) }
    ensures refused_end { result ≡ ends.Refused → IsAtEnd (R.remaining reader.new) }
    ensures refused { result ≡ ends.Refused → IfSome (R.remaining reader.old) HasNoEvent }
    ensures refused_unwritten { result ≡ ends.Refused → Keeps (W.contents writer.old) (W.contents writer.new) }
    ensures printed { IfSome (fault_in result) (PrintsFault (IsAskedFault (asked.World options)
        (R.remaining reader.old) (R.remaining reader.new) (W.contents writer.old) (W.contents writer.new))
        (E.contents errors.old) (E.contents errors.new)) }
    ensures unprinted { result ≡ ends.Done → Keeps (E.contents errors.old) (E.contents errors.new) }
    ensures calls { IsEndByCalls (fault_in result)
        (R.failed reader.old) (R.failed reader.new) (W.failed writer.old) (W.failed writer.new) }
{
    match world_lines(alloc, reader, writer, options.nodes, options.domain) {
        Ok(()) => RunEnd::Done,
        Err(fault) => world_end(errors, fault),
    }
}

/// Prints the version, and gives how that ended.
fn version<W: WriteTexts, E: Write>(writer: &mut W, errors: &mut E) -> RunEnd
    ensures asked { result ≢ ends.Refused }
    ensures done { result ≡ ends.Done → Appends (W.contents writer.old) (W.contents writer.new) version_line }
    ensures failed { OnSome (fault_in result)
        (AppendsPrefix (W.contents writer.old) (W.contents writer.new) version_line) }
    ensures printed { (input rest : Option (List ℕ)) → IfSome (fault_in result) (PrintsFault
        (IsAskedFault asked.Version input rest (W.contents writer.old) (W.contents writer.new))
        (E.contents errors.old) (E.contents errors.new)) }
    ensures unprinted { result ≡ ends.Done → Keeps (E.contents errors.old) (E.contents errors.new) }
    ensures calls { (reads : Option ℕ) → IsEndByCalls (fault_in result)
        reads reads (W.failed writer.old) (W.failed writer.new) }
{
    match write_version(writer) {
        Ok(()) => RunEnd::Done,
        Err(unwritten) => fault_end(errors, unwritten),
    }
}

/// Does what the words after the program's name ask for, and gives how that ended. After a fault its number and name
/// stand in `errors`; for words that are refused, and for a line that is no event, the reason. Where the words ask for
/// what needs files or sockets, it hands that back: these are to be opened by the caller. Boards hash with the seed.
pub fn run_words<R: ReadPieces, W: WriteTexts, E: Write>(
    alloc: Global,
    seed: HashSeed,
    words: &[&str],
    reader: &mut R,
    writer: &mut W,
    errors: &mut E,
) -> Result<RunEnd, HostRun>
    ensures done { IfOk result (λ end. end ≡ ends.Done → IsDone (map (λ s. s.now) words.now)
        (R.remaining reader.old) (R.remaining reader.new) (W.contents writer.old) (W.contents writer.new)) }
    ensures failed { IfOk result (λ end. OnSome (fault_in end) (
        Keeps (W.contents writer.old) (W.contents writer.new)
        ⊎ IsCutShort (map (λ s. s.now) words.now)
        (R.remaining reader.old) (W.contents writer.old) (W.contents writer.new))) }
    ensures refused { IfOk result (λ end. end ≡ ends.Refused →
        IsUnasked (map (λ s. s.now) words.now) (R.remaining reader.old) (R.remaining reader.new)
        ⊎ IsNoScript (map (λ s. s.now) words.now) (R.remaining reader.old) (R.remaining reader.new)) }
    ensures refused_unwritten { IfOk result (λ end. end ≡ ends.Refused →
        Keeps (W.contents writer.old) (W.contents writer.new)) }
    // After a fault the very fault that is given is printed to standard error, by which the run can have ended, and
    // nothing where all went well.
    ensures printed { IfOk result (λ end. IfSome (fault_in end)
        (PrintsFault (IsWordsFault (map (λ s. s.now) words.now)
        (R.remaining reader.old) (R.remaining reader.new) (W.contents writer.old) (W.contents writer.new))
        (E.contents errors.old) (E.contents errors.new))) }
    ensures unprinted { IfOk result (λ end. end ≡ ends.Done →
        Keeps (E.contents errors.old) (E.contents errors.new)) }
    // That fault is the one of the call that failed, by the counts of the streams: `ReadFault` where a read did, and
    // `WriteFault` where a write did. Where none failed it is `WantOfMemory`, or there is none.
    ensures calls { IfOk result (λ end. IsEndByCalls (fault_in end)
        (R.failed reader.old) (R.failed reader.new) (W.failed writer.old) (W.failed writer.new)) }
    // Where files or sockets are needed, the words ask for what is handed back, and nothing was read or written.
    ensures host { IfErr result (AsksHost (map (λ s. s.now) words.now)) }
    ensures host_range { IfErr result IsRunInRange }
    ensures host_unread { OnErr result (Keeps (R.remaining reader.old) (R.remaining reader.new)) }
    ensures host_unwritten { OnErr result (Keeps (W.contents writer.old) (W.contents writer.new)) }
    ensures host_calls { OnErr result (NoneFailed
        (R.failed reader.old) (R.failed reader.new) (W.failed writer.old) (W.failed writer.new)) }
    ensures host_unprinted { OnErr result (Keeps (E.contents errors.old) (E.contents errors.new)) }
    // However it ends, words that ask for nothing have nothing read and nothing written.
    ensures unread { AskForNothing (map (λ s. s.now) words.now) →
        Keeps (R.remaining reader.old) (R.remaining reader.new) }
    ensures unwritten { AskForNothing (map (λ s. s.now) words.now) →
        Keeps (W.contents writer.old) (W.contents writer.new) }
{
    let mut given = match options(alloc, words) {
        Ok(given) => given,
        Err(fault) => return Ok(options_end(errors, fault)),
    };
    given.set_seed(seed);
    match given {
        Options::Replay(options) => Ok(replay(alloc, options, reader, writer, errors)),
        Options::World(options) => Ok(world(alloc, options, reader, writer, errors)),
        Options::Answer(options) => Err(HostRun::Answer(options)),
        Options::Serve(options) => Err(HostRun::Serve(options)),
        Options::Cluster(options) => Err(HostRun::Cluster(options)),
        Options::Send(options) => Err(HostRun::Send(options)),
        Options::Status(options) => Err(HostRun::Status(options)),
        Options::Page(options) => Err(HostRun::Page(options)),
        Options::Log(options) => Err(HostRun::Log(options)),
        Options::Version => Ok(version(writer, errors)),
    }
}
