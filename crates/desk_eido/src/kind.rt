//! The kinds of the nodes of a copy, each node's first word.

pub(crate) const NULL: u32 = 0;

pub(crate) const TRUTH_VALUE: u32 = 1;
/// A whole number from 0 on.
pub(crate) const NATURAL: u32 = 2;
/// A negative whole number.
pub(crate) const NEGATIVE: u32 = 3;
/// A number that is not held as a whole number.
pub(crate) const OTHER_NUMBER: u32 = 4;

pub(crate) const TEXT: u32 = 5;

pub(crate) const LIST: u32 = 6;

pub(crate) const OBJECT: u32 = 7;
