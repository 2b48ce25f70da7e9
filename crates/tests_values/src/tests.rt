//! Worked examples, one module for each subject.

mod arena;
mod bytes;
mod identifiers;
mod items;
mod names;
mod refusals;
