//! Where a text lies.

/// A text of an arena, by its place in the list of the text bytes.
#[derive(Clone, Copy, Debug, PartialEq, Eq)]
pub struct Text {
    /// How many bytes it has.
    pub len: u32,
    /// How far its first byte is from the end of the list: later pushes leave that as it is.
    pub from_end: u32,
}
