//! The document lines of entries, in their order.

ghost use Rattle.std.specs.Prelude.{◌≡◌, ◌⊎◌, OnOk, OnErr, IfErr};
ghost use Rattle.desk_types.specs.declared.refusal.Refusal.TheVariants as refusals;
ghost use Rattle.desk_archive.specs.Lines.{AppendsLines, AppendsFirstLines};
ghost use Rattle.desk_archive.specs.Archive.{IsWritingRefusal};

use crate::document::document_line;
use desk_output::write_text;
use desk_types::{Entry, Refusal};
use std::alloc::Global;
use std::io::Write;

/// Writes the document line of each entry, in their order. It ends early where memory is refused (`WantOfMemory`), at a
/// write that fails or takes no byte (`WriteFault`), and at an entry whose instant no document names (`WrongFile`).
pub fn write_documents<W: Write>(
    alloc: Global,
    writer: &mut W,
    entries: &[Entry],
) -> Result<(), Refusal>
    ensures ok { OnOk result (AppendsLines entries.now (W.contents writer.old) (W.contents writer.new)) }
    ensures err { OnErr result (AppendsFirstLines entries.now (W.contents writer.old) (W.contents writer.new)) }
    ensures fault { IfErr result IsWritingRefusal }
{
    for entry in entries {
        let line = match document_line(alloc, entry) {
            Ok(line) => line,
            Err(refusal) => return Err(refusal),
        };
        match write_text(writer, line.as_bytes()) {
            Ok(()) => {}
            Err(fault) => return Err(fault),
        }
    }
    Ok(())
}
