//! Reading the whole of an input.

ghost use Rattle.std.specs.Prelude.{◌≡◌, ◌⊎◌, ℕ, Option, IfOk, IfErr, OnOk, IfSome, MatchResult};
ghost use Rattle.std.specs.Io.KnownBytes.{IsAtEnd};
ghost use Rattle.desk_types.specs.declared.refusal.Refusal.TheVariants as refusals;
ghost use Rattle.desk_lines.specs.FailedCalls.{NoneFailed, IsStreamsFault, IsWant};

use desk_lines::ReadPieces;
use desk_output::{READ_BYTES, ReadCount};
use desk_types::Refusal;
use std::alloc::Global;

/// Reads to the end of an input. Where memory is refused that is `WantOfMemory`; at a read that fails, and after
/// 4,294,967,295 reads, it is `ReadFault`.
pub(crate) fn read_input<R: ReadPieces>(alloc: Global, reader: &mut R) -> Result<Vec<u8>, Refusal>
    ensures bytes { IfOk result (λ bytes. IfSome (R.remaining reader.old) (λ input. bytes.items ≡ input)) }
    ensures end { OnOk result (IsAtEnd (R.remaining reader.new)) }
    ensures fault { IfErr result (λ r. (r ≡ refusals.WantOfMemory) ⊎ (r ≡ refusals.ReadFault)) }
    // However many writes have failed, no more does.
    ensures calls { (writes : Option ℕ) → MatchResult result
        (λ _. NoneFailed (R.failed reader.old) (R.failed reader.new) writes writes)
        (λ r. IsStreamsFault IsWant r (R.failed reader.old) (R.failed reader.new) writes writes) }
{
    let mut bytes = Vec::new(alloc);
    let mut room = [0u8; READ_BYTES];
    let mut reads = ReadCount::new();
    loop {
        let count = reader.read_piece(&mut reads, &mut room)?;
        if count == 0 {
            return Ok(bytes);
        }
        bytes.extend_from_slice(&room[..count])?;
    }
}
