//! Lines of documents in, reply lines out. An input is cut into lines by one rule, and one driver reads it, has its
//! lines answered, and writes the replies. Its streams may count their calls that fail.
#![tactic(auto)]

mod buffer;
mod handler;
mod lines;
mod serve;
mod streams;

pub use buffer::LineBuffer;
pub use handler::{Gate, Handler, NoGate, ReplyText};
pub use lines::{first_line, is_blank, split_at_first};
pub use serve::{serve_lines, serve_streams};
pub use streams::{ReadPieces, WatchedReader, WatchedWriter, WriteTexts};
