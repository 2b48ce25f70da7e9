//! What a reader sees of a value.

/// What a reader sees of a value that isn't null.
#[derive(Clone, Copy)]
pub(crate) enum Seen<'a> {
    Text(&'a str),
    /// A whole number from 0 on.
    Natural(u64),
    /// A negative whole number.
    Negative,
    /// A truth value, a number that is not held as a whole number, a list or an object.
    Other,
}
