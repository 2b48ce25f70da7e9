//! Laws of the spellings.

ghost use Rattle.desk_codec.specs.Spelling.{SpellsBody, SpellsEntry, SpellsFrame, AreOne, EntriesBeginNone};
ghost use Rattle.desk_codec.specs.Spelling.{FramesBeginNone, BodiesFit, PacketsFit};

/// What is true of all spellings. It does nothing: its clauses are the laws.
pub fn spellings()
    // A value has one spelling, and bytes spell one value.
    ensures bodies { AreOne SpellsBody }
    ensures entries { AreOne SpellsEntry }
    ensures frames { AreOne SpellsFrame }
    // No spelling begins another.
    ensures entries_begin_none { EntriesBeginNone }
    ensures frames_begin_none { FramesBeginNone }
    // The lengths that bodies have, and those that frames have.
    ensures body_lengths { BodiesFit }
    ensures lengths { PacketsFit }
{}
