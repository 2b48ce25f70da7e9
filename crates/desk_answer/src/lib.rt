//! One node of a group between a stream of packets that it reads and one that it writes, with a database that keeps its
//! state.
#![tactic(auto)]

mod database;
mod stream;

pub use database::{Answered, answer_database};
pub use stream::answer_stream;
