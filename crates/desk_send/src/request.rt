//! What a node is sent for a line.

ghost use Rattle.std.specs.Prelude.{◌≡◌, ◌∷◌, [], if◌then◌else◌, ℕ, List, IfOk, IfErr, OnOk, OnErr};
ghost use Rattle.std.specs.Io.KnownBytes.{Appends};
ghost use Rattle.desk_output.specs.Prefixes.{AppendsPrefix};
ghost use Rattle.desk_lines.specs.Holding.{HoldsLine};
ghost use Rattle.desk_send.specs.Exchanges.{request};
ghost use Rattle.desk_send.specs.declared.fault.NodeFault.TheVariants as faults;

use crate::fault::NodeFault;
use desk_lines::LineBuffer;
use desk_output::{flush, write_text};
use desk_types::WantOfMemory;
use std::alloc::Global;
use std::io::Write;

/// What goes after the bytes that were held of a line. A node refuses a long line, whatever its last byte is.
fn request_end(is_long: bool) -> &'static str
    ensures { result.now ≡ (if is_long then 32 ∷ 10 ∷ [] else 10 ∷ []) }
{
    match is_long {
        true => " \n",
        false => "\n",
    }
}

/// The bytes that a node is sent for the line that has come.
pub(crate) fn request_bytes(alloc: Global, line: &LineBuffer) -> Result<Vec<u8>, WantOfMemory>
    ensures { IfOk result (λ bytes. (text : List ℕ) → HoldsLine line.now text → bytes.items ≡ request text) }
{
    let mut bytes = Vec::new(alloc);
    bytes.extend_from_slice(line.bytes.as_slice())?;
    bytes.extend_from_slice(request_end(line.is_long).as_bytes())?;
    Ok(bytes)
}

/// Sends bytes to a node, and holds none of them back.
pub(crate) fn send_bytes<W: Write>(writer: &mut W, bytes: &[u8]) -> Result<(), NodeFault>
    ensures ok { OnOk result (Appends (W.contents writer.old) (W.contents writer.new) bytes.now) }
    ensures err { OnErr result (AppendsPrefix (W.contents writer.old) (W.contents writer.new) bytes.now) }
    ensures fault { IfErr result (λ fault. fault ≡ faults.Broken) }
{
    if write_text(writer, bytes).is_err() {
        return Err(NodeFault::Broken);
    }
    match flush(writer) {
        Ok(()) => Ok(()),
        Err(_) => Err(NodeFault::Broken),
    }
}
