//! A reader and a writer in memory, for the crates of tests: each gives or takes few bytes a call, and a call of it
//! fails.
#![tactic(auto)]

mod calls;
mod sink;
mod source;

pub use crate::calls::{AtEnd, Calls};
pub use crate::sink::Sink;
pub use crate::source::Source;
