//! The published board: one writer publishes the entries of a log with their board, and readers read that board
//! without ever waiting. What is published is a prefix of one history of entries, which only grows; a reader's pass and
//! what is reported to a client carry how far that history had come, so each read begins with what its reader saw and
//! heard before.
#![tactic(auto)]

mod board_name;
mod history;
pub mod laws;
pub mod limits;
mod published;
mod reader;
mod reported;
mod rule;
mod writer;

pub use board_name::BoardName;
pub use history::{HistoryEnd, HistoryPrefix, HistoryRule, NewHistory};
pub use published::{NextEntry, PublishedBoard};
pub use reader::BoardReader;
pub use reported::{Reported, ReportedWord};
pub use rule::{PrefixRule, SeatView};
pub use writer::BoardWriter;
