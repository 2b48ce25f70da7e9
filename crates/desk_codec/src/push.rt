//! Putting bytes last.
#![tactic(auto, using(crate::proofs::Growing::grows_none))]

ghost use Rattle.std.specs.Prelude.{◌≡◌, ◌++◌, [], ◌∷◌, OnOk, OnErr};
ghost use Rattle.desk_codec.specs.Growing.{Grows};
ghost use Rattle.desk_codec.specs.Spelling.{long};

use desk_types::WantOfMemory;

pub(crate) fn push_byte(out: &mut Vec<u8>, byte: u8) -> Result<(), WantOfMemory>
    ensures spelling { OnOk result (out.new.items ≡ out.old.items ++ byte ∷ []) }
    ensures err { OnErr result (Grows out.old.items out.new.items) }
{
    out.push(byte)?;
    Ok(())
}

pub(crate) fn push_bytes(out: &mut Vec<u8>, bytes: &[u8]) -> Result<(), WantOfMemory>
    ensures spelling { OnOk result (out.new.items ≡ out.old.items ++ bytes.now) }
    ensures err { OnErr result (Grows out.old.items out.new.items) }
{
    out.extend_from_slice(bytes)?;
    Ok(())
}

/// Puts a number of eight bytes last.
pub(crate) fn push_u64(out: &mut Vec<u8>, number: u64) -> Result<(), WantOfMemory>
    ensures spelling { OnOk result (out.new.items ≡ out.old.items ++ long number) }
    ensures err { OnErr result (Grows out.old.items out.new.items) }
{
    push_bytes(out, &number.to_be_bytes())
}
