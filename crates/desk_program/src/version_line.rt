//! The line that tells the version of the program.

ghost use Rattle.std.specs.Prelude.{◌≡◌, OnOk, OnErr, IfErr, MatchResult};
ghost use Rattle.std.specs.Io.KnownBytes.{Appends};
ghost use Rattle.desk_output.specs.Prefixes.{AppendsPrefix};
ghost use Rattle.desk_types.specs.declared.refusal.Refusal.TheVariants as refusals;
ghost use Rattle.desk_options.specs.Version.{version_line};
ghost use Rattle.desk_lines.specs.FailedCalls.{count_after_failure};

use desk_lines::WriteTexts;
use desk_options::VERSION;
use desk_output::LinePart::Text;
use desk_types::Refusal;

/// Writes the line that tells the version. A write that fails is `WriteFault`.
pub(crate) fn write_version<W: WriteTexts>(writer: &mut W) -> Result<(), Refusal>
    ensures ok { OnOk result (Appends (W.contents writer.old) (W.contents writer.new) version_line) }
    ensures err { OnErr result (AppendsPrefix (W.contents writer.old) (W.contents writer.new) version_line) }
    ensures fault { IfErr result (λ r. r ≡ refusals.WriteFault) }
    ensures failed { MatchResult result (λ _. W.failed writer.new ≡ W.failed writer.old)
        (λ _. W.failed writer.new ≡ count_after_failure (W.failed writer.old)) }
{
    match writer.write_parts(&[Text("desk "), Text(VERSION), Text("\n")]) {
        Ok(()) => writer.flush(),
        Err(_) => Err(Refusal::WriteFault),
    }
}
