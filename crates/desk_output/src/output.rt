//! Writes to any writer.

ghost use Rattle.std.specs.Prelude.{◌≡◌, ◌<◌, length, take, OnOk, OnErr, IfErr};
ghost use Rattle.std.specs.Io.KnownBytes.{Appends, Keeps};
ghost use Rattle.desk_output.specs.Prefixes.{AppendsPrefix};
ghost use Rattle.desk_types.specs.declared.refusal.Refusal.TheVariants as refusals;

use desk_types::Refusal;
use std::io::Write;

/// Writes all of the bytes, or tells how many of them went out. A write that takes no byte is a fault.
pub fn write_all<W: Write>(writer: &mut W, bytes: &[u8]) -> Result<(), usize>
    ensures ok { OnOk result (Appends (W.contents writer.old) (W.contents writer.new) bytes.now) }
    // Some byte did not go out.
    ensures sent { IfErr result (λ sent. sent < length bytes.now) }
    // What went out is a prefix of the bytes.
    ensures prefix { IfErr result (λ sent.
        Appends (W.contents writer.old) (W.contents writer.new) (take sent bytes.now)) }
{
    let mut sent = 0;
    while sent < bytes.len() {
        match writer.write(&bytes[sent..]) {
            Ok(0) => return Err(sent),
            Ok(count) => sent += count,
            Err(_) => return Err(sent),
        }
    }
    Ok(())
}

/// Writes the whole of a text. Where a write fails, or takes no byte, that is `WriteFault`, and a prefix of the text is
/// written.
pub fn write_text<W: Write>(writer: &mut W, text: &[u8]) -> Result<(), Refusal>
    ensures ok { OnOk result (Appends (W.contents writer.old) (W.contents writer.new) text.now) }
    ensures err { OnErr result (AppendsPrefix (W.contents writer.old) (W.contents writer.new) text.now) }
    ensures fault { IfErr result (λ r. r ≡ refusals.WriteFault) }
{
    match write_all(writer, text) {
        Ok(()) => Ok(()),
        Err(_) => Err(Refusal::WriteFault),
    }
}

/// Sends on what the writer holds back. Where that fails, that is `WriteFault`.
pub fn flush<W: Write>(writer: &mut W) -> Result<(), Refusal>
    ensures bytes { Keeps (W.contents writer.old) (W.contents writer.new) }
    ensures fault { IfErr result (λ r. r ≡ refusals.WriteFault) }
{
    match writer.flush() {
        Ok(()) => Ok(()),
        Err(_) => Err(Refusal::WriteFault),
    }
}
